// The writer of compressed IPv6 headers: the parts that `Repr::emit` puts together. Each takes the fields that it
// writes, as its definition in specs/Emit.antt does: a struct of them would be `Repr` once more.
// `buf, at` is the lent room and a place in it, as the writers of octets take them.
ghost use Rattle.std.specs.Prelude.{◌≡◌, ◌≤◌};
ghost use Rattle.octets.specs.Write.{put};
ghost use Rattle.iphc.specs.Emit.{hop_bits, hop_length, hop_bytes, base_word};
ghost use Rattle.iphc.specs.Emit.{front_length, front_bytes, addresses_length, addresses_bytes};

use super::form::Form;
use octets::write::{put_be16, put_byte};
use sixlowpan::next::{next_bit, next_len, put_next};
use sixlowpan::protocol::NextHeader;

fn hop_bits(h: u8) -> u16
    ensures value { result ≡ hop_bits h }
    ensures upper_bound { result ≤ 3 }
{
    match h {
        1 => 0b01,
        64 => 0b10,
        255 => 0b11,
        _ => 0b00,
    }
}

fn hop_len(h: u8) -> usize
    ensures value { result ≡ hop_length h }
    ensures upper_bound { result ≤ 1 }
{
    if hop_bits(h) == 0b00 { 1 } else { 0 }
}

#[tactic(auto, unfolding(octets::specs::Write::put))]
fn put_hop(buf: &mut [u8], at: usize, h: u8)
    ensures { buf.new ≡ put at (hop_bytes h) buf.old }
{
    if hop_bits(h) == 0b00 {
        put_byte(buf, at, h);
    }
}

// The first two bytes.
#[tactic(auto, unfolding(crate::specs::Emit::base_word))]
fn base_word(n: NextHeader, h: u8, src: Form, dst: Form) -> u16
    ensures { result ≡ base_word n h src dst }
{
    0b011_11 * 2048
        + (next_bit(n) as u16) * 1024
        + hop_bits(h) * 256
        + (src.mode as u16) * 16
        + (dst.mode as u16)
}

pub fn front_len(n: NextHeader, h: u8) -> usize
    ensures value { result ≡ front_length n h }
    ensures upper_bound { result ≤ 512 }
{
    2 + (next_len(n) + hop_len(h))
}

// Puts what stands before the addresses at the front of the room.
#[tactic(auto, using(crate::proofs::Puts::iphc_puts), unfolding(crate::specs::Emit::front_bytes))]
pub fn put_front(buf: &mut [u8], n: NextHeader, h: u8, src: Form, dst: Form)
    ensures { buf.new ≡ put 0 (front_bytes n h src dst) buf.old }
{
    put_be16(buf, 0, base_word(n, h, src, dst));
    put_next(buf, 2, n);
    put_hop(buf, 2 + next_len(n), h);
}

pub fn addresses_len(src: Form, dst: Form) -> usize
    ensures value { result ≡ addresses_length src dst }
    ensures upper_bound { result ≤ 512 }
{
    src.inline.len() + dst.inline.len()
}

// Puts the inline bits of both addresses at a place of the room.
#[tactic(auto, using(crate::proofs::Puts::iphc_puts), unfolding(crate::specs::Emit::addresses_bytes))]
pub fn put_addresses(buf: &mut [u8], at: usize, src: Form, dst: Form)
    ensures { buf.new ≡ put at (addresses_bytes src dst) buf.old }
{
    if buf.len() <= at {
        return;
    }
    src.inline.put(buf, at);
    dst.inline.put(buf, at + src.inline.len());
}
