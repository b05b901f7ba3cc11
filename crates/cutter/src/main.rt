// Answers what a datagram is cut into: one line on standard input, one answer a line on standard output
// (tests/README.md has the protocol, and `text::input` what is answered to a line that is no command).
//
// - `commands`: what the lines `cut` and `frames` do.
// - `fields`: what they say beside the datagram. `room`: what a frame is written into.
#![tactic(auto)]

mod commands;
mod fields;
mod room;

use commands::Session;
use text::input::answer_each;

// The same in chunks, cutter, calls and replay: a function for these lines would take as much to call.
fn main(rt: HostRuntime) {
    let mut session = Session::new();
    // A write that fails ends the run, and nobody is left to be told.
    let _ = answer_each(&mut rt.stdin(), &mut rt.stdout(), &mut session);
}
