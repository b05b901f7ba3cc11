// Answers calls on the slot table: one line on standard input, one answer a line on standard output (tests/README.md
// has the protocol, and `text::input` what is answered to a line that is no call).
//
// - `commands`: what the lines `gateways` and `call` do. `fields`: addresses in a line. `answer`: the parts of an
//   answer.
#![tactic(auto)]

mod answer;
mod commands;
mod fields;

use commands::Session;
use text::input::answer_each;

// The same in chunks, cutter, calls and replay: a function for these lines would take as much to call.
fn main(rt: HostRuntime) {
    let mut session = Session::new();
    // A write that fails ends the run, and nobody is left to be told.
    let _ = answer_each(&mut rt.stdin(), &mut rt.stdout(), &mut session);
}
