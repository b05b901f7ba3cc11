// Captures heard: what a receiver with the gateways 0001 to 0004 and no contexts makes of the blocks of a capture, as
// text (the scope document, "Capture blocks and the program").
//
// - `ear`: who listens, a table in its numbers and two counts. `Ear::new` begins a capture; `hear` takes a block,
//   `hear_all` the blocks of a capture or of a part of it, and both put their lines.
// - `line`: a line of each kind, put into lent room whole or not at all.
//
// specs/Lines.antt has the text of the lines, and specs/Heard.antt what a block and a whole capture say. The answer,
// the lent memory, the output and the text of `hear` and `hear_all` are, on every input, those of `hear_block` and
// `hear_all`. No public function asks anything of its caller.
#![tactic(auto)]

pub mod ear;
pub mod line;

pub use ear::{Ear, Heard, hear, hear_all};
pub use line::put_end;
