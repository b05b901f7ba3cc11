// A capture of blocks to pcap.
// `out, at` is the lent room and a place in it, as the writers of octets take them.
ghost use Rattle.octets.specs.Answers.{of_answer};
ghost use Rattle.std.specs.Prelude.{◌≡◌, ◌+◌, ◌≤◌, length};
ghost use Rattle.octets.specs.Read.{is, refused};
ghost use Rattle.octets.specs.Refusal.{number_of};
ghost use Rattle.octets.specs.Write.{put};
ghost use Rattle.capture.specs.Block.{good_block};
ghost use Rattle.pcap.specs.Moves.{to_pcap, sized, placed, lengthed, place_bytes, block_bytes, carried_all};
ghost use Rattle.pcap.specs.Frames.{head_bytes};
ghost use Rattle.pcap.specs.Streaming.{go_block, due_after};

use super::put::{FRONT, HEAD, put_frame, put_head};
use capture::block::{BLOCK, count, frame, judge, time};
use octets::refusal::Refusal;

fn is_good(block: &[u8], number: u64) -> bool
    ensures { result ≡ good_block number block.now }
{
    judge(block, number).is_ok()
}

// The bytes of what place k of a block comes to.
fn place_len(block: &[u8], k: usize) -> usize
    ensures { (result ≡ length (place_bytes k block.now)) × (result ≤ 143) }
{
    if k < count(block) {
        return FRONT + frame(block, k).len();
    }
    0
}

// (Three places, written out, as `block_bytes` of specs/Moves.antt has them.)
fn block_len(block: &[u8]) -> usize
    ensures { (result ≡ length (block_bytes block.now)) × (result ≤ 429) }
{
    place_len(block, 0) + (place_len(block, 1) + place_len(block, 2))
}

// How many bytes the capture comes to, or why it is none.
fn measure(capture: &[u8]) -> Result<usize, Refusal>
    ensures { of_answer result ≡ lengthed (to_pcap capture.now) }
{
    let mut n = HEAD;
    let mut number: u64 = 0;
    for block in capture.chunks(BLOCK) {
        if !is_good(block, number) {
            return Err(Refusal::BadBlock);
        }
        n += block_len(block);
        number += 1;
    }
    Ok(n)
}

fn put_place(block: &[u8], k: usize, out: &mut [u8], at: usize) -> usize
    requires { at + length (place_bytes k block.now) ≤ length out.old }
    ensures { (result ≡ at + length (place_bytes k block.now))
        × (out.new ≡ put at (place_bytes k block.now) out.old) }
{
    if k < count(block) {
        return put_frame(out, at, time(block, k), frame(block, k));
    }
    at
}

// (Three places, written out: each takes the place that the one before answers.)
fn put_block(block: &[u8], out: &mut [u8], at: usize) -> usize
    requires { at + length (block_bytes block.now) ≤ length out.old }
    ensures { (result ≡ at + length (block_bytes block.now))
        × (out.new ≡ put at (block_bytes block.now) out.old) }
{
    let a = put_place(block, 0, out, at);
    let b = put_place(block, 1, out, a);
    put_place(block, 2, out, b)
}

// The frames of every block, from a place of the room on.
fn put_blocks(capture: &[u8], out: &mut [u8], from: usize)
    requires { from + length (carried_all capture.now) ≤ length out.old }
    ensures { out.new ≡ put from (carried_all capture.now) out.old }
{
    let mut to = from;
    for block in capture.chunks(BLOCK) {
        to = put_block(block, out, to);
    }
}

// Moves a capture of blocks to pcap, at the front of the room, and answers its length. Any bad block refuses the whole,
// 15; then a room that is too small, 7. A refusal writes nothing.
pub fn to_pcap(capture: &[u8], out: &mut [u8]) -> Result<usize, Refusal>
    ensures { (of_answer result ≡ sized (to_pcap capture.now) out.old)
        × (out.new ≡ placed (to_pcap capture.now) out.old) }
{
    let n = measure(capture)?;
    if out.len() < n {
        return Err(Refusal::NoRoom);
    }
    put_head(out);
    put_blocks(capture, out, HEAD);
    Ok(n)
}

// A capture that goes to pcap a block at a time: the number of the block that is due.
#[derive(Clone, Copy)]
pub struct ToPcap {
    pub block: u64,
}

// What is due after a call, and how many bytes of pcap it put, or why it put none.
#[derive(Clone, Copy)]
pub struct WentOn {
    pub after: ToPcap,
    pub answer: Result<usize, Refusal>,
}

// The file header, at the front of the room; 7 where that is too small.
pub fn file_header(out: &mut [u8]) -> Result<usize, Refusal>
    ensures { (of_answer result ≡ sized (is head_bytes) out.old)
        × (out.new ≡ placed (is head_bytes) out.old) }
{
    if out.len() < HEAD {
        return Err(Refusal::NoRoom);
    }
    put_head(out);
    Ok(HEAD)
}

// Nothing was put, and what is due stays.
fn stay(block: u64, e: Refusal) -> WentOn
    ensures { (result.after.block ≡ block) × (of_answer result.answer ≡ refused (number_of e)) }
{
    WentOn {
        after: ToPcap { block },
        answer: Err(e),
    }
}

// The block that is due, at the front of the room. A bad block is refused, 15; then a room that is too small, 7: 429
// bytes are always enough. A refusal writes nothing, and what is due stays.
pub fn one_block(g: ToPcap, block: &[u8], out: &mut [u8]) -> WentOn
    ensures { (of_answer result.answer ≡ sized (go_block g.block block.now) out.old)
        × ((result.after.block ≡ due_after g.block (sized (go_block g.block block.now) out.old))
        × (out.new ≡ placed (go_block g.block block.now) out.old)) }
{
    if !is_good(block, g.block) {
        return stay(g.block, Refusal::BadBlock);
    }
    let n = block_len(block);
    if out.len() < n {
        return stay(g.block, Refusal::NoRoom);
    }
    put_block(block, out, 0);
    WentOn {
        after: ToPcap { block: g.block + 1 },
        answer: Ok(n),
    }
}
