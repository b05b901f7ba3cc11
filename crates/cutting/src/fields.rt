// The fields of a datagram that is sent. A field past the end is 0.
ghost use Rattle.std.specs.Prelude.{◌≡◌, ◌+◌, ◌*◌, ◌^◌, ◌<◌};
ghost use Rattle.octets.specs.Read.{byte, be16, be32, be64};
ghost use Rattle.cutting.specs.Fields.{or_zero, is_ours, is_udp};

use octets::cursor::{Cursor, value_or};

pub fn byte_at(d: &[u8], at: usize) -> u8
    ensures { result ≡ or_zero (byte d.now at) }
{
    value_or(Cursor { at }.byte(d), 0)
}

pub fn word_at(d: &[u8], at: usize) -> u16
    ensures { result ≡ or_zero (be16 d.now at) }
{
    value_or(Cursor { at }.be16(d), 0)
}

fn wide_at(d: &[u8], at: usize) -> u32
    ensures { result ≡ or_zero (be32 d.now at) }
{
    value_or(Cursor { at }.be32(d), 0)
}

// Four bytes, the high one first.
fn quad(a: u8, b: u8, c: u8, e: u8) -> u64
    ensures { (result ≡ a * 2 ^ 24 + b * 2 ^ 16 + c * 2 ^ 8 + e) × (result < 2 ^ 32) }
{
    (a as u64) * 0x100_0000 + (b as u64) * 0x1_0000 + (c as u64) * 0x100 + (e as u64)
}

// Eight bytes behind one test, and not through `Cursor`, so that the compiler reads them at once.
#[tactic(auto, using(crate::proofs::FieldLaws::long_told))]
pub fn long_at(d: &[u8], at: usize) -> u64
    ensures { result ≡ or_zero (be64 d.now at) }
{
    if d.len() < 8 {
        return 0;
    }
    if d.len() - 8 < at {
        return 0;
    }
    quad(d[at], d[at + 1], d[at + 2], d[at + 3]) * 0x1_0000_0000
        + quad(d[at + 4], d[at + 5], d[at + 6], d[at + 7])
}

// Version 6, traffic class and flow label 0, a payload length of the bytes that are present.
#[tactic(auto, unfolding(crate::specs::Fields::is_ours))]
pub fn is_ours(d: &[u8]) -> bool
    ensures { result ≡ is_ours d.now }
{
    let first = wide_at(d, 0);
    let payload = word_at(d, 4);
    first == 0x6000_0000 && (payload as usize) + 40 == d.len()
}

// Whether its UDP header is compressed.
#[tactic(auto, unfolding(crate::specs::Fields::is_udp))]
pub fn is_udp(d: &[u8]) -> bool
    ensures { result ≡ is_udp d.now }
{
    let next = byte_at(d, 6);
    let len = word_at(d, 44);
    48 <= d.len() && next == 17 && (len as usize) + 40 == d.len()
}
