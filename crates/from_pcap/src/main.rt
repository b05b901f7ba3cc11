// Moves pcap to a capture of blocks: standard input to standard output, or with two arguments a file to a file (the
// change request "Captures in pcap").
//
// What the next frames come to is the library's (`pcap::coming::one_block`); here pcap is read, up to 64 KiB at a time,
// and the blocks are written. Until the input has ended a block is made only of 429 bytes or more, which hold three
// frames.
#![tactic(auto)]

use ends::{Ends, send};
use octets::cursor::Cursor;
use octets::refusal::Refusal;
use pcap::coming::{FromPcap, one_block};
use pcap::read::head;
use std::io::{Read, Stderr, Write};
use std::ops::ControlFlow;
use text::field::upto;
use text::{line, print};

// As capture's: crates.txt does not have this program rest on `capture`.
const BLOCK: usize = 512;

// The bytes of the file header, and the most of three frames.
const HEAD: usize = 24;

const THREE: usize = 429;

// What is due, the place of the next frame in the input, and the place behind the blocks that were put.
// Places beside the lent rooms, here and in `pass_on`: no heap, and the library reads and puts at the front of a room.
#[derive(Clone, Copy)]
struct Moved {
    due: FromPcap,
    at: usize,
    next: usize,
}

// What is kept from one read to the next: what is due, once the header was read, and how many bytes stand at the start
// of the input.
#[derive(Clone, Copy)]
struct Kept {
    due: Option<FromPcap>,
    have: usize,
}

// What a read comes to: what is kept, or at the end whether all was moved; where it was not, why was said.
type Turn = ControlFlow<bool, Kept>;

// The line `no R` on standard error.
// In a room with a place: no heap. to_pcap's names the block too.
fn refuse(mut errors: Stderr, refusal: Refusal) {
    let mut line = [0u8; 64];
    let a = print::text(&mut line, 0, b"no ");
    let b = print::decimal(&mut line, a, refusal.number() as u64);
    let c = print::text(&mut line, b, b"\n");
    let _ = errors.write_all(upto(&line, c));
}

// The block of the next frames behind the blocks that were put before, for which there is room. Where there is none,
// why was said, and the answer is the place behind the blocks that were put.
fn put(m: Moved, input: &[u8], out: &mut [u8], errors: Stderr) -> ControlFlow<usize, Moved> {
    let at = m.at;
    let next = m.next;
    if input.len() < at || out.len() < next {
        return ControlFlow::Break(next);
    }
    let r = one_block(m.due, &input[at..], &mut out[next..]);
    match r.answer {
        Ok(n) => {
            if input.len() - at < r.used || out.len() - next < n {
                return ControlFlow::Break(next);
            }
            ControlFlow::Continue(Moved {
                due: r.after,
                at: at + r.used,
                next: next + n,
            })
        }
        Err(e) => {
            refuse(errors, e);
            ControlFlow::Break(next)
        }
    }
}

// One block more; the blocks before it are written where the room is full.
fn step(m: Moved, e: &mut Ends, input: &[u8], out: &mut [u8]) -> ControlFlow<usize, Moved> {
    if m.next <= out.len() && BLOCK <= out.len() - m.next {
        return put(m, input, out, e.errors);
    }
    if send(&mut e.output, &mut e.errors, upto(out, m.next)) {
        let emptied = Moved {
            due: m.due,
            at: m.at,
            next: 0,
        };
        return put(emptied, input, out, e.errors);
    }
    ControlFlow::Break(0)
}

// Whether the input holds the frames of one block more.
fn holds(input: &[u8], at: usize, ended: bool) -> bool {
    at < input.len() && (ended || THREE <= input.len() - at)
}

// The frames of the input from a place on. Each step uses a byte or more.
fn move_all(
    due: FromPcap,
    e: &mut Ends,
    input: &[u8],
    at: usize,
    ended: bool,
    out: &mut [u8],
) -> ControlFlow<usize, Moved> {
    let mut m = Moved { due, at, next: 0 };
    for _ in 0..input.len() {
        if !holds(input, m.at, ended) {
            return ControlFlow::Continue(m);
        }
        m = step(m, e, input, out)?;
    }
    ControlFlow::Continue(m)
}

// Writes the blocks, and moves what is left of the input to its start. At the end of the input nothing is left.
// How much is read, and whether that is all, stand beside the input here and in `first`: what is left moves in it.
fn pass_on(
    moved: ControlFlow<usize, Moved>,
    e: &mut Ends,
    input: &mut [u8],
    all: usize,
    ended: bool,
    out: &[u8],
) -> Turn {
    let m = match moved {
        ControlFlow::Continue(m) => m,
        ControlFlow::Break(next) => {
            send(&mut e.output, &mut e.errors, upto(out, next));
            return ControlFlow::Break(false);
        }
    };
    if !send(&mut e.output, &mut e.errors, upto(out, m.next)) || input.len() < all || all < m.at {
        return ControlFlow::Break(false);
    }
    if ended {
        return ControlFlow::Break(true);
    }
    line::shift(&mut input[0..all], m.at);
    ControlFlow::Continue(Kept {
        due: Some(m.due),
        have: all - m.at,
    })
}

// The first bytes: the file header, which is read once it is there or the input has ended.
fn first(e: &mut Ends, input: &mut [u8], all: usize, ended: bool, out: &mut [u8]) -> Turn {
    if !ended && all < HEAD {
        return ControlFlow::Continue(Kept {
            due: None,
            have: all,
        });
    }
    match head(upto(input, all), Cursor::START) {
        Ok(c) => {
            let due = FromPcap { frames: 0 };
            let m = move_all(due, e, upto(input, all), c.at, ended, out);
            pass_on(m, e, input, all, ended, out)
        }
        Err(refusal) => {
            refuse(e.errors, refusal);
            ControlFlow::Break(false)
        }
    }
}

// Reads once, and moves the frames that are whole.
fn turn(k: Kept, e: &mut Ends, input: &mut [u8], out: &mut [u8]) -> Turn {
    let have = k.have;
    if input.len() <= have {
        return ControlFlow::Break(false);
    }
    let n = match e.input.read(&mut input[have..]) {
        Ok(n) => n,
        Err(error) => {
            let _ = ends::fail(&mut e.errors, b"read", &error);
            return ControlFlow::Break(false);
        }
    };
    if input.len() - have < n {
        return ControlFlow::Break(false);
    }
    let ended = n == 0;
    let all = have + n;
    match k.due {
        Some(due) => {
            let m = move_all(due, e, upto(input, all), 0, ended, out);
            pass_on(m, e, input, all, ended, out)
        }
        None => first(e, input, all, ended, out),
    }
}

// Nothing says that the input ends, so the turns are counted up to a number that no run reaches.
// Alike in heard, to_pcap and from_pcap: what is kept and the end differ, so one loop for all would take closures.
fn run(e: &mut Ends, input: &mut [u8], out: &mut [u8]) -> bool {
    let mut k = Kept { due: None, have: 0 };
    for _ in 0..u64::MAX {
        match turn(k, e, input, out) {
            ControlFlow::Continue(next) => k = next,
            ControlFlow::Break(whole) => return whole,
        }
    }
    false
}

fn main(rt: HostRuntime) {
    let mut name = [0u8; 4096];
    let Some(mut e) = ends::open(&rt, b"usage: from_pcap [PCAP CAPTURE]\n", &mut name) else {
        return;
    };
    let mut input = [0u8; 65536];
    let mut out = [0u8; 65536];
    let whole = run(&mut e, &mut input, &mut out);
    ends::close(&rt, e, whole, &name);
}
