// Who listens to a capture, block by block (the scope document, "Capture blocks and the program").
ghost use Rattle.std.specs.Prelude.{◌≡◌};
ghost use Rattle.listen.specs.Heard.{listed_as, standing, starting, hear_frames, hear_block, hear_all, Hears};

use super::line::{put_bad, put_frame};
use capture::block::{BLOCK, count, frame, judge, time};
use ieee802154::{Address, Pan};
use reassembly::Gateway;
use receiver::receive;
use std::num::wrapping_add_u64;
use words::WORDS;

// The slot table in its numbers (crate `words`), how many frames were received, and the number of the block that is
// due.
#[derive(Clone, Copy)]
pub struct Ear {
    pub table: [u64; WORDS],
    pub frames: u64,
    pub block: u64,
}

// What a block came to: who listens on, whether reading goes on, and the place after the lines. The other fields stand
// in either case, so `more` is a field, as `Hears` of specs/Heard.antt has it.
#[derive(Clone, Copy)]
pub struct Heard {
    pub ear: Ear,
    pub more: bool,
    pub next: usize,
}

// The gateway of a short address under PAN abcd.
fn listed_as(x: u16) -> Gateway
    ensures { result ≡ listed_as x }
{
    Gateway {
        addr: Address::Short(x),
        pan: Some(Pan(0xabcd)),
    }
}

impl Ear {
    // At the beginning of a capture.
    pub fn new() -> Ear
        ensures { standing result ≡ starting }
    {
        let a = listed_as(1);
        let b = listed_as(2);
        let c = listed_as(3);
        let d = listed_as(4);
        let mut table = [0u64; WORDS];
        let _ = words::begin(&mut table, [a, b, c, d], 4);
        Ear {
            table,
            frames: 0,
            block: 0,
        }
    }
}

// The frames of a block, one after the other.
// The lent rooms stay parameters, here and below: `receive` takes `mem` and `out` apart, and a struct of the three
// would be made and taken apart in each call.
fn hear_frames(
    ear: Ear,
    block: &[u8],
    mem: &mut [u8],
    out: &mut [u8],
    text: &mut [u8],
    at: usize,
) -> Heard
    ensures { Hears result mem.new out.new text.old text.new at
        (hear_frames (record { ear = standing ear; mem = mem.old; out = out.old })
        block.now) }
{
    let mut e = ear;
    let mut to = at;
    for k in 0..count(block) {
        let answer = receive(
            &mut e.table,
            time(block, k) as u64,
            frame(block, k),
            &block[0..0],
            mem,
            out,
        );
        e.frames = wrapping_add_u64(e.frames, 1);
        to = put_frame(text, to, e.frames, answer);
    }
    Heard {
        ear: e,
        more: true,
        next: to,
    }
}

// A block of 512 bytes, or the rest of a capture. Where it is the good block that is due, its frames are received in
// their order and at their times, with the lent memory and output, and a line for each goes to `text` from `at` on;
// where it is not, one line says so, and reading stops. A line that does not fit is left out.
pub fn hear(
    ear: Ear,
    block: &[u8],
    mem: &mut [u8],
    out: &mut [u8],
    text: &mut [u8],
    at: usize,
) -> Heard
    ensures { Hears result mem.new out.new text.old text.new at
        (hear_block (record { ear = standing ear; mem = mem.old; out = out.old })
        block.now) }
{
    match judge(block, ear.block) {
        Ok(_) => {
            let h = hear_frames(ear, block, mem, out, text, at);
            let mut e = h.ear;
            e.block = wrapping_add_u64(e.block, 1);
            Heard {
                ear: e,
                more: true,
                next: h.next,
            }
        }
        Err(_) => {
            let next = put_bad(text, at, ear.block);
            Heard {
                ear,
                more: false,
                next,
            }
        }
    }
}

// A capture, or a part of one that begins where a block does: block after block, up to the first bad one. What is left
// over behind the whole blocks is a bad block.
pub fn hear_all(
    ear: Ear,
    capture: &[u8],
    mem: &mut [u8],
    out: &mut [u8],
    text: &mut [u8],
    at: usize,
) -> Heard
    ensures { Hears result mem.new out.new text.old text.new at
        (hear_all (record { ear = standing ear; mem = mem.old; out = out.old })
        capture.now) }
{
    let mut h = Heard {
        ear,
        more: true,
        next: at,
    };
    for block in capture.chunks(BLOCK) {
        let e = h.ear;
        h = hear(e, block, mem, out, text, h.next);
        if !h.more {
            return h;
        }
    }
    h
}
