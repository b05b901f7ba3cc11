// Captures over the service cable: a reader that takes a capture in chunks of 0 to 600 bytes, cut anywhere, and hands
// on its state and what it found.
//
// - `reader`: `Reader::new` begins a capture, `chunk` takes a chunk, `end` declares the end. Each answers the reader
//   after it, the good blocks that it completed, and whether the block behind them is bad or the call was refused. The
//   frames and times of the blocks are read by `capture`.
//
// specs/Reading.antt has what a capture says, read on from a place; specs/Feed.antt what each call answers, on every
// reader and every chunk; specs/Runs.antt what a run of calls comes to. proofs/Promises.antt shows that for every
// cutting the frames, the times and the first refusal are those of the whole file (`whole_file` of `capture`), and
// that the last readers agree; proofs/States.antt that a reader has one value for each state, and that a refused call
// changes nothing; proofs/Refused.antt that a run with refused calls is the run without them. No public function
// asks anything of its caller.
#![tactic(auto)]

pub mod reader;

pub use reader::{Fed, Found, Reader, Status, chunk, end};
