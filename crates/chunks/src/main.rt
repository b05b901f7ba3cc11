// Takes a capture in chunks: a line on standard input, its answer a line on standard output (tests/README.md has the
// lines, and `text::input` what is answered to a line that is none of them).
//
// - `commands`: what the lines `chunk`, `end` and `new` do. `answer`: the parts of an answer.
#![tactic(auto)]

mod answer;
mod commands;

use commands::Session;
use text::input::answer_each;

// The same in chunks, cutter, calls and replay: a function for these lines would take as much to call.
fn main(rt: HostRuntime) {
    let mut session = Session::new();
    // A write that fails ends the run, and nobody is left to be told.
    let _ = answer_each(&mut rt.stdin(), &mut rt.stdout(), &mut session);
}
