// Captures: blocks of 512 bytes with up to three frames, their times, and a check (the scope document, "Capture blocks
// and the program").
//
// - `block`: a block judged at its number (`judge`), and how many frames it holds, their times and their bytes
//   (`count`, `time`, `frame`). A frame is a part of the block that was lent: nothing is copied.
// - `fcs`: the frame check sequence of IEEE 802.15.4, a byte at a time by a table.
//
// `fcs` is the remainder that specs/Fcs.antt defines from the standard, bit by bit. `judge` is specs/Block.antt's
// `judged` on every slice of bytes: the count of frames where each field of the block is right and each unused byte
// zero, else 15. proofs/ shows that the definition of a good block is exact: what a writer makes of a number and at
// most three frames (specs/Made.antt) is good, and gives back these frames and times (Made); every good block is what a
// writer makes of its own frames (Exact). No public function asks anything of its caller, and each contract fixes the
// answer (Unique).
#![tactic(auto)]

pub mod block;
pub mod fcs;
mod table;
