// Captures in pcap: a capture of blocks moved to pcap and back (the change requests, 12).
//
// - `going`: `to_pcap`, from blocks to pcap. `coming`: `from_pcap`, from pcap to blocks. Each measures first, which
//   decides all that can be refused, and then writes by a pass that cannot refuse: a refusal writes nothing. For files
//   of any size each has a form that moves a block at a time, with a state of one number by value: `going::file_header`
//   and `going::one_block`; `read::head` and `coming::one_block`.
// - `read`: the fields of pcap. `put` and `fill`: frames into pcap and into blocks.
//
// Both moves are over one list of timed frames (specs/Frames.antt); `to_pcap` and `from_pcap` are specs/Moves.antt's
// `to_pcap` and `from_pcap` on every slice. proofs/Moves.antt shows what they keep, and proofs/Streaming.antt that a
// block at a time (specs/Streaming.antt) is the whole move. No public function asks anything of its caller.
#![tactic(auto)]

pub mod coming;
mod fill;
pub mod going;
mod put;
pub mod read;
