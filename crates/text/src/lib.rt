// Text in bytes: lines of input, and numbers and words put into lent room.
//
// - `field`: the fields of a line, read one after another: numbers, and bytes put into lent room.
// - `line`: the end of a line or of a field, and the move of an unfinished line to the front of the room.
// - `print`: puts a text at a place of the room and answers the place after it. A text that does not fit is not put at
//   all, and the place stays: nothing is ever cut in the middle.
// - `out`: output that waits in a room until it is written. `input`: lines of input, each answered in its turn.
//
// No public function asks anything of its caller, and each contract fixes the answer and the lent bytes; but for `flush`,
// `make_room` and `answer_each`, whose answer is a writer's, and say what it holds where all went well.
#![tactic(auto)]

pub mod field;
pub mod input;
pub mod line;
pub mod out;
pub mod print;
