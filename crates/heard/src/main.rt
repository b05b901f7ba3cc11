// Reads a capture on standard input, or from the file that its one argument names, and prints a line for each frame
// (the scope document, "Capture blocks and the program"). What the system does not let it read or write it says in a
// line on standard error: that is not the end of a capture, so the lines so far stand and no `end` follows.
//
// What the blocks say is the library's (`listen::hear_all`); here they are read, up to 128 at a time, and their lines
// written. No line is longer than 46 bytes, so that the text has room for all lines of one read.
#![tactic(auto)]

use ends::ReadEnd;
use listen::{Ear, Heard, hear_all, put_end};
use std::env::Env;
use std::io;
use std::io::{Read, Stderr, Stdout, Write};
use text::field::upto;
use text::line;

// As capture's: crates.txt does not have this program rest on `capture`.
const BLOCK: usize = 512;

// Where the capture is read, where the lines go, and where errors are said.
#[derive(Drop)]
struct Ways {
    input: ReadEnd,
    lines: Stdout,
    errors: Stderr,
}

// What is kept from one read to the next: who listens, and how many bytes of an unfinished block stand at the input's
// start.
#[derive(Clone, Copy)]
struct Kept {
    ear: Ear,
    have: usize,
}

// Writes text to standard output, or says why it cannot.
// As `ends::send` but for the words on an error: with them as an argument no call of it would be plainer.
fn write(ways: &mut Ways, text: &[u8]) -> bool {
    match ways.lines.write_all(text) {
        Ok(()) => true,
        Err(error) => {
            let _ = ends::fail(
                &mut ways.errors,
                b"heard: the lines cannot be written",
                &error,
            );
            false
        }
    }
}

// Puts the last line and writes the text out. The run is over.
fn finish(h: Heard, ways: &mut Ways, text: &mut [u8]) -> Option<Kept> {
    let end = put_end(text, h.next, h.ear.frames);
    write(ways, upto(text, end));
    None
}

// The input has ended: what is left of it is less than a block.
fn last(
    ear: Ear,
    ways: &mut Ways,
    rest: &[u8],
    mem: &mut [u8],
    out: &mut [u8],
    text: &mut [u8],
) -> Option<Kept> {
    let h = hear_all(ear, rest, mem, out, text, 0);
    finish(h, ways, text)
}

// Writes out the lines of the whole blocks, and moves what is left behind them to the start.
// The input and how much of it is read, here and below: no heap, and what is left moves within the one room.
fn pass_on(
    h: Heard,
    ways: &mut Ways,
    input: &mut [u8],
    all: usize,
    text: &mut [u8],
) -> Option<Kept> {
    if !h.more || input.len() < all {
        return finish(h, ways, text);
    }
    let rest = all % BLOCK;
    line::shift(&mut input[0..all], all - rest);
    if !write(ways, upto(text, h.next)) {
        return None;
    }
    Some(Kept {
        ear: h.ear,
        have: rest,
    })
}

// Hears the whole blocks among the first `all` bytes of the input.
fn heard(
    ear: Ear,
    input: &[u8],
    all: usize,
    mem: &mut [u8],
    out: &mut [u8],
    text: &mut [u8],
) -> Heard {
    hear_all(ear, upto(input, all - all % BLOCK), mem, out, text, 0)
}

// Reads once, and hears the blocks that are whole; none where the run is over. Where the capture cannot be read on, why
// is said, and there is no last line.
// Rooms by themselves, not in a struct: each call lends another part of the input and of the text beside the others.
fn turn(
    k: Kept,
    ways: &mut Ways,
    input: &mut [u8],
    mem: &mut [u8],
    out: &mut [u8],
    text: &mut [u8],
) -> Option<Kept> {
    let have = k.have;
    if input.len() <= have {
        return last(k.ear, ways, input, mem, out, text);
    }
    let n = match ways.input.read(&mut input[have..]) {
        Ok(n) => n,
        Err(error) => {
            let what = b"heard: the capture cannot be read";
            let _ = ends::fail(&mut ways.errors, what, &error);
            return None;
        }
    };
    if n == 0 {
        return last(k.ear, ways, upto(input, have), mem, out, text);
    }
    if input.len() - have < n {
        return last(k.ear, ways, input, mem, out, text);
    }
    let h = heard(k.ear, input, have + n, mem, out, text);
    pass_on(h, ways, input, have + n, text)
}

// Nothing says that the input ends, so the turns are counted up to a number that no run reaches.
// Alike in heard, to_pcap and from_pcap: what is kept and the end differ, so one loop for all would take closures.
fn run(ways: &mut Ways, input: &mut [u8], mem: &mut [u8], out: &mut [u8], text: &mut [u8]) {
    let mut k = Kept {
        ear: Ear::new(),
        have: 0,
    };
    for _ in 0..u64::MAX {
        match turn(k, ways, input, mem, out, text) {
            Some(next) => k = next,
            None => return,
        }
    }
}

// Says what is wanted. There is nothing to read.
fn usage(rt: &HostRuntime) -> Option<ReadEnd> {
    let _ = rt.stderr().write_all(b"usage: heard [CAPTURE]\n");
    None
}

// Opens the file that the first argument names, or says why it cannot. `path` is room for the name.
fn named(rt: &HostRuntime, path: &mut [u8]) -> Option<ReadEnd> {
    let Ok(n) = rt.arg(1, path) else {
        return usage(rt);
    };
    let name = upto(path, n);
    if name.is_empty() || name[0] == b'-' {
        return usage(rt);
    }
    match ends::open_read(rt, name) {
        Ok(file) => Some(ReadEnd::Named(file)),
        Err(error) => {
            let _ = ends::fail(&mut rt.stderr(), name, &error);
            None
        }
    }
}

// What to read: standard input, or the file that the one argument names; `None` where there is nothing, and that has
// been said.
fn source(rt: &HostRuntime) -> Option<ReadEnd> {
    let words = ends::arg_count(rt);
    if words < 2 {
        return Some(ReadEnd::Standard(rt.stdin()));
    }
    if 2 < words {
        return usage(rt);
    }
    let mut path = [0u8; 4096];
    named(rt, &mut path)
}

fn main(rt: HostRuntime) {
    let Some(input) = source(&rt) else {
        return;
    };
    let mut ways = Ways {
        input,
        lines: rt.stdout(),
        errors: rt.stderr(),
    };
    let mut input = [0u8; 65536];
    let mut mem = [0u8; 16384];
    let mut out = [0u8; 2047];
    let mut text = [0u8; 65536];
    run(&mut ways, &mut input, &mut mem, &mut out, &mut text);
}
