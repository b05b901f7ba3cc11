// Moves a capture of blocks to pcap: standard input to standard output, or with two arguments a file to a file (the
// change request "Captures in pcap").
//
// What a block comes to is the library's (`pcap::going::one_block`); here blocks are read, up to 128 at a time, and
// what they come to is written. A block comes to at most 429 bytes, so that the room holds what one read brings.
#![tactic(auto)]

use ends::{Ends, send};
use octets::refusal::Refusal;
use pcap::going::{ToPcap, file_header, one_block};
use std::io::{Read, Stderr, Write};
use std::ops::ControlFlow;
use text::field::upto;
use text::{line, print};

// As capture's: crates.txt does not have this program rest on `capture`.
const BLOCK: usize = 512;

// What is due, and the place behind what was put.
// A place beside the lent room, here and in `pass_on`: no heap, and the library puts a block at the front of a room.
#[derive(Clone, Copy)]
struct Moved {
    due: ToPcap,
    next: usize,
}

// What is kept from one read to the next: what is due, and how many bytes of an unfinished block stand at the input's
// start.
#[derive(Clone, Copy)]
struct Kept {
    due: ToPcap,
    have: usize,
}

// What a read comes to: what is kept, or at the end whether all was moved; where it was not, why was said.
type Turn = ControlFlow<bool, Kept>;

// The line `no R at block B` on standard error.
// In a room with a place: no heap. from_pcap's names no block.
fn refuse(mut errors: Stderr, refusal: Refusal, block: u64) {
    let mut line = [0u8; 64];
    let a = print::text(&mut line, 0, b"no ");
    let b = print::decimal(&mut line, a, refusal.number() as u64);
    let c = print::text(&mut line, b, b" at block ");
    let d = print::decimal(&mut line, c, block);
    let e = print::text(&mut line, d, b"\n");
    let _ = errors.write_all(upto(&line, e));
}

// One block behind what was put before; none where it cannot be moved, and why was said.
fn step(m: Moved, block: &[u8], out: &mut [u8], errors: Stderr) -> Option<Moved> {
    let at = m.next;
    if out.len() < at {
        return None;
    }
    let r = one_block(m.due, block, &mut out[at..]);
    match r.answer {
        Ok(n) => {
            if out.len() - at < n {
                return None;
            }
            Some(Moved {
                due: r.after,
                next: at + n,
            })
        }
        Err(e) => {
            refuse(errors, e, r.after.block);
            None
        }
    }
}

// The whole blocks of the input; where one cannot be moved, the place behind what was put before it.
fn move_all(
    due: ToPcap,
    input: &[u8],
    out: &mut [u8],
    errors: Stderr,
) -> ControlFlow<usize, Moved> {
    let mut m = Moved { due, next: 0 };
    for block in input.chunks_exact(BLOCK) {
        match step(m, block, out, errors) {
            Some(next) => m = next,
            None => return ControlFlow::Break(m.next),
        }
    }
    ControlFlow::Continue(m)
}

// The input has ended: what is left of it is less than a block, and must be nothing.
fn last(due: ToPcap, rest: usize, errors: Stderr) -> Turn {
    if rest != 0 {
        refuse(errors, Refusal::BadBlock, due.block);
    }
    ControlFlow::Break(rest == 0)
}

// Writes what the whole blocks came to, and moves what is left behind them to the start.
fn pass_on(
    moved: ControlFlow<usize, Moved>,
    e: &mut Ends,
    input: &mut [u8],
    all: usize,
    out: &[u8],
) -> Turn {
    let m = match moved {
        ControlFlow::Continue(m) => m,
        ControlFlow::Break(next) => {
            send(&mut e.output, &mut e.errors, upto(out, next));
            return ControlFlow::Break(false);
        }
    };
    if !send(&mut e.output, &mut e.errors, upto(out, m.next)) || input.len() < all {
        return ControlFlow::Break(false);
    }
    let rest = all % BLOCK;
    line::shift(&mut input[0..all], all - rest);
    ControlFlow::Continue(Kept {
        due: m.due,
        have: rest,
    })
}

// Reads once, and moves the blocks that are whole.
fn turn(k: Kept, e: &mut Ends, input: &mut [u8], out: &mut [u8]) -> Turn {
    let have = k.have;
    if input.len() <= have {
        return ControlFlow::Break(false);
    }
    let n = match e.input.read(&mut input[have..]) {
        Ok(n) => n,
        Err(error) => {
            let _ = ends::fail(&mut e.errors, b"read", &error);
            return ControlFlow::Break(false);
        }
    };
    if n == 0 {
        return last(k.due, have, e.errors);
    }
    if input.len() - have < n {
        return ControlFlow::Break(false);
    }
    let moved = move_all(k.due, upto(input, have + n), out, e.errors);
    pass_on(moved, e, input, have + n, out)
}

// Nothing says that the input ends, so the turns are counted up to a number that no run reaches.
// Alike in heard, to_pcap and from_pcap: what is kept and the end differ, so one loop for all would take closures.
fn run(e: &mut Ends, input: &mut [u8], out: &mut [u8]) -> bool {
    let mut k = Kept {
        due: ToPcap { block: 0 },
        have: 0,
    };
    for _ in 0..u64::MAX {
        match turn(k, e, input, out) {
            ControlFlow::Continue(next) => k = next,
            ControlFlow::Break(whole) => return whole,
        }
    }
    false
}

// The file header, and then the blocks.
fn begin(e: &mut Ends) -> bool {
    let mut input = [0u8; 65536];
    let mut out = [0u8; 65536];
    match file_header(&mut out) {
        Ok(n) => {
            if send(&mut e.output, &mut e.errors, upto(&out, n)) {
                return run(e, &mut input, &mut out);
            }
            false
        }
        Err(_) => false,
    }
}

fn main(rt: HostRuntime) {
    let mut name = [0u8; 4096];
    let Some(mut e) = ends::open(&rt, b"usage: to_pcap [CAPTURE PCAP]\n", &mut name) else {
        return;
    };
    let whole = begin(&mut e);
    ends::close(&rt, e, whole, &name);
}
