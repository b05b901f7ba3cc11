// What the product promises across its crates, as theorems: this crate has no code, only specs/ and proofs/.
//
// - proofs/Marked.antt: the marked examples of the scope document, one statement over the list.
// - Demand 3 over frames: specs/Frames.antt has runs of the public call `receive`, what demand 3 supposes of one, and
//   what it concludes; proofs/Frames.antt proves it (`demand-3`) and its companions (`at-most-three`, `never-meet`,
//   `eight-slots`). proofs/Witness.antt meets the premises in bytes, with the frames of proofs/Worked.antt.
// - The same for runs of the library's `lift_receive` (crate lift): specs/Library.antt, proofs/Library.antt
//   (`lift-demand-3`).
// - It rests on demand 3 over runs of calls of the slot table: specs/Cuttings.antt (a cutting of a datagram) and
//   specs/Runs.antt, proofs/Runs.antt. That is proved of any engine that meets the laws of proofs/Engine.antt, which
//   know neither frames nor marks. The slot table is one: proofs/Instance.antt, by proofs/Filling.antt on one slot and
//   the laws of reassembly/proofs.
#![tactic(auto)]
