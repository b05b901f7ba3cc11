// Answers commands on the header layer: one command a line on standard input, one answer a line on standard output
// (oracle/README.md has the protocol, and `text::input` what is answered to a line that is no command).
//
// - `commands`: the commands by name. `mac`, `fragment`, `nhc`, `compressed`, `relays`: what each does, by header.
// - `fields`: the fields of a line. `answer`: the parts of an answer. `room`: what a writer writes into.
#![tactic(auto)]

mod answer;
mod commands;
mod compressed;
mod fields;
mod fragment;
mod mac;
mod nhc;
mod relays;
mod room;

use commands::Session;
use text::input::answer_each;

// The same in chunks, cutter, calls and replay: a function for these lines would take as much to call.
fn main(rt: HostRuntime) {
    let mut session = Session::new();
    // A write that fails ends the run, and nobody is left to be told.
    let _ = answer_each(&mut rt.stdin(), &mut rt.stdout(), &mut session);
}
