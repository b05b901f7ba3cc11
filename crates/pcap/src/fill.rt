// Blocks put into lent room that is large enough, from frames of pcap.
// `s, at` and `out, to` are lent bytes and a lent room, each with a place by value: a bound is that of its own index.
ghost use Rattle.std.specs.Prelude.{◌≡◌, ◌++◌, ◌+◌, ◌*◌, ◌/◌, ◌≤◌, length, replicate, ltb};
ghost use Rattle.octets.specs.Read.{choose};
ghost use Rattle.octets.specs.Write.{put};
ghost use Rattle.capture.specs.Made.{place_of, place_in, block_of};
ghost use Rattle.pcap.specs.Frames.{blocks_of, most_frames};
ghost use Rattle.pcap.specs.Placing.{frame_at, after_at, frames_at, behind_at, front_bytes, places_bytes};

use super::put::put_all;
use super::read::frame;
use capture::block::{CHECK, PLACE};
use capture::fcs::fcs;
use octets::cursor::Cursor;
use octets::write::{put_byte, put_le16, put_le32};

// Two places of a block.
const TWO_PLACES: usize = 2 * PLACE;

fn put_zeros(buf: &mut [u8], at: usize, n: usize)
    requires { at + n ≤ length buf.old }
    ensures { buf.new ≡ put at (replicate n 0) buf.old }
{
    buf[at..at + n].fill(0);
}

// A place with a frame.
fn put_used(time: u32, bytes: &[u8], out: &mut [u8], to: usize)
    requires { (length bytes.now ≤ 127) × (to + 132 ≤ length out.old) }
    ensures { out.new
        ≡ put to (place_of (record { time = time; frame = bytes.now })) out.old }
{
    let n = bytes.len();
    put_le32(out, to, time);
    put_byte(out, to + 4, n as u8);
    put_all(out, to + 5, bytes);
    put_zeros(out, to + 5 + n, 127 - n);
}

// The next frame into a place, where the place is used; the place after the frame.
fn put_place(s: &[u8], at: usize, used: bool, out: &mut [u8], to: usize) -> usize
    requires { (at ≤ length s.now) × (to + 132 ≤ length out.old) }
    ensures { (result ≡ choose used (after_at s.now at) at)
        × (out.new
        ≡ put to (choose used (place_of (frame_at s.now at)) (replicate 132 0)) out.old) }
{
    if used {
        match frame(s, Cursor { at }) {
            Ok((f, next)) => {
                put_used(f.time, f.bytes, out, to);
                return next.at;
            }
            Err(_) => {
                put_zeros(out, to, PLACE);
                return at;
            }
        }
    }
    put_zeros(out, to, PLACE);
    at
}

// A block's number and its count of frames.
fn put_front(out: &mut [u8], to: usize, number: u32, n: u8)
    requires { to + 6 ≤ length out.old }
    ensures { out.new ≡ put to (front_bytes number n) out.old }
{
    put_le32(out, to, number);
    put_byte(out, to + 4, n);
    put_byte(out, to + 5, 0);
}

// The next n frames into a block's places; the place after them.
// (Three places, written out: each takes the place that the one before answers.)
fn put_places(s: &[u8], at: usize, n: usize, out: &mut [u8], to: usize) -> usize
    requires { (n ≤ 3) × ((at ≤ length s.now) × (to + 396 ≤ length out.old)) }
    ensures { (result ≡ behind_at n s.now at)
        × (out.new ≡ put to (places_bytes (frames_at n s.now at)) out.old) }
{
    let a = put_place(s, at, 0 < n, out, to);
    let b = put_place(s, a, 1 < n, out, to + PLACE);
    put_place(s, b, 2 < n, out, to + TWO_PLACES)
}

// A block of the next n frames; the place after them.
pub fn put_block(s: &[u8], at: usize, n: usize, number: u32, out: &mut [u8], to: usize) -> usize
    requires { (n ≤ 3) × ((at ≤ length s.now) × (to + 512 ≤ length out.old)) }
    ensures { (result ≡ behind_at n s.now at)
        × (out.new ≡ put to (block_of number (frames_at n s.now at)) out.old) }
{
    put_front(out, to, number, n as u8);
    let next = put_places(s, at, n, out, to + 6);
    put_zeros(out, to + 402, 108);
    let check = fcs(&out[to..to + CHECK]);
    put_le16(out, to + CHECK, check);
    next
}

// The frames from a place on into blocks, at the front of the room.
pub fn put_blocks(s: &[u8], from: usize, total: usize, out: &mut [u8])
    requires { (from ≤ length s.now) × ((total ≤ most_frames) × (512 * ((total + 2) / 3) ≤ length out.old)) }
    ensures { out.new ≡ put 0 (blocks_of (frames_at total s.now from)) out.old }
{
    let mut at = from;
    for number in 0..(total + 2) / 3 {
        let n = (total - 3 * number).min(3);
        at = put_block(s, at, n, number as u32, out, 512 * number);
    }
}
