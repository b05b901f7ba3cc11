// The next header field, which extension headers and compressed IPv6 headers share.
// `buf, at` is the lent room and a place in it, as the writers of octets take them.
ghost use Rattle.octets.specs.Answers.{of_read};
ghost use Rattle.std.specs.Prelude.{◌≡◌, ◌≤◌};
ghost use Rattle.octets.specs.Write.{put};
ghost use Rattle.sixlowpan.specs.Next.{next_header, next_bit, next_width, next_bytes};

use super::protocol::{IpProtocol, NextHeader};
use octets::cursor::{Cursor, Read};
use octets::refusal::Refusal;
use octets::write::put_byte;

// Inline where the bit NH is clear.
// (The bit is a number, as `next_header` of specs/Next.antt takes it.)
#[tactic(auto, unfolding(crate::specs::Next::next_header))]
pub fn read_next(buf: &[u8], c: Cursor, nh: u8) -> Read<NextHeader>
    ensures { of_read result ≡ next_header nh buf.now c.at }
{
    if nh == 0 {
        let (p, d) = c.byte(buf)?;
        Ok((NextHeader::Uncompressed(IpProtocol(p)), d))
    } else {
        Ok((NextHeader::Compressed, c))
    }
}

// The bit NH.
pub fn next_bit(next: NextHeader) -> u8
    ensures { (result ≡ next_bit next) × (result ≤ 1) }
{
    match next {
        NextHeader::Compressed => 1,
        NextHeader::Uncompressed(_) => 0,
    }
}

// How many bytes carry the next header.
pub fn next_len(next: NextHeader) -> usize
    ensures { (result ≡ next_width (next_bit next)) × (result ≤ 1) }
{
    match next {
        NextHeader::Compressed => 0,
        NextHeader::Uncompressed(_) => 1,
    }
}

#[tactic(auto, unfolding(octets::specs::Write::put))]
pub fn put_next(buf: &mut [u8], at: usize, next: NextHeader)
    ensures { buf.new ≡ put at (next_bytes next) buf.old }
{
    if let NextHeader::Uncompressed(p) = next {
        put_byte(buf, at, p.0);
    }
}
