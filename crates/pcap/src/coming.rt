// Pcap to a capture of blocks.
ghost use Rattle.octets.specs.Answers.{of_answer};
ghost use Rattle.std.specs.Prelude.{◌≡◌, length};
ghost use Rattle.pcap.specs.Moves.{from_pcap, sized, placed, counted};
ghost use Rattle.pcap.specs.Streaming.{Comes};

use super::fill::{put_block, put_blocks};
use super::read::{frame_at, head};
use capture::block::BLOCK;
use octets::cursor::Cursor;
use octets::refusal::Refusal;

// How many frames fit into blocks: three to a block, and 2^32 block numbers.
const MOST: u64 = 0x3_0000_0000;

// How many frames there are from a place on, at most so many, where k were read before; or why they are none.
fn count(s: &[u8], c: Cursor, k: u64, most: usize) -> Result<usize, Refusal>
    ensures { of_answer result ≡ counted most k s.now 0 c.at }
{
    let mut number = k;
    let mut at = c.at;
    for n in 0..most {
        if s.len() <= at {
            return Ok(n);
        }
        let f = frame_at(s, Cursor { at })?;
        if MOST <= number {
            return Err(Refusal::NotHeld);
        }
        at = f.start.at + f.len;
        number += 1;
    }
    Ok(most)
}

// Moves pcap to a capture of blocks, at the front of the room, and answers its length. What is refused is refused in
// the order of the fields, and last a room that is too small, 7. A refusal writes nothing.
pub fn from_pcap(pcap: &[u8], out: &mut [u8]) -> Result<usize, Refusal>
    ensures { (of_answer result ≡ sized (from_pcap pcap.now) out.old)
        × (out.new ≡ placed (from_pcap pcap.now) out.old) }
{
    let c = head(pcap, Cursor::START)?;
    let k = count(pcap, c, 0, pcap.len())?;
    let n = BLOCK * ((k + 2) / 3);
    if out.len() < n {
        return Err(Refusal::NoRoom);
    }
    put_blocks(pcap, c.at, k, out);
    Ok(n)
}

// Pcap that comes a block at a time: how many of its frames were moved.
#[derive(Clone, Copy)]
pub struct FromPcap {
    pub frames: u64,
}

// What is due after a call, how many bytes of pcap it used, and the bytes of the block that it put, or why it put none.
#[derive(Clone, Copy)]
pub struct CameOn {
    pub after: FromPcap,
    pub used: usize,
    pub answer: Result<usize, Refusal>,
}

// Nothing was used, and what is due stays.
fn stay(frames: u64, answer: Result<usize, Refusal>) -> CameOn
    ensures { (result.after.frames ≡ frames)
        × ((result.used ≡ 0) × (of_answer result.answer ≡ of_answer answer)) }
{
    CameOn {
        after: FromPcap { frames },
        used: 0,
        answer,
    }
}

// The next block, of the next three frames or of all that are left. `part` is what is left of the pcap behind its
// header and the frames used before, or its next 429 bytes or more. Where nothing is left the answer is 0. What is
// refused is refused in the order of the fields, and last a room of less than a block, 7. A refusal writes nothing, and
// what is due stays.
pub fn one_block(c: FromPcap, part: &[u8], out: &mut [u8]) -> CameOn
    ensures { Comes c.frames part.now out.old
        (of_answer result.answer) result.used result.after.frames out.new }
{
    match count(part, Cursor::START, c.frames, 3) {
        Ok(n) => {
            if n == 0 {
                return stay(c.frames, Ok(0));
            }
            if out.len() < BLOCK {
                return stay(c.frames, Err(Refusal::NoRoom));
            }
            let used = put_block(part, 0, n, (c.frames / 3) as u32, out, 0);
            CameOn {
                after: FromPcap {
                    frames: c.frames + n as u64,
                },
                used,
                answer: Ok(BLOCK),
            }
        }
        Err(e) => stay(c.frames, Err(e)),
    }
}
