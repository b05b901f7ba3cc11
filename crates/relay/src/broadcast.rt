// Broadcast headers (RFC 4944, 11.1).
// `buf, at` is the lent room and a place in it, as the writers of octets take them.
ghost use Rattle.octets.specs.Answers.{of_read};
ghost use Rattle.std.specs.Prelude.{◌≡◌, ◌≤◌};
ghost use Rattle.octets.specs.Write.{put};
ghost use Rattle.relay.specs.Broadcast.{broadcast, broadcast_length, broadcast_bytes};

use octets::cursor::{Cursor, Read};
use octets::refusal::Refusal;
use octets::write::put_byte;

// The dispatch byte, LOWPAN_BC0.
pub const BROADCAST: u8 = 0b0101_0000;

// The sequence number of the header that stands at a place of the frame, and the place after it.
#[tactic(auto, unfolding(crate::specs::Broadcast::broadcast))]
pub fn read_broadcast(frame: &[u8], c: Cursor) -> Read<u8>
    ensures { of_read result ≡ broadcast frame.now c.at }
{
    let (b, d) = c.byte(frame)?;
    if b == BROADCAST {
        d.byte(frame)
    } else {
        Err(Refusal::NotThisHeader)
    }
}

pub(crate) fn broadcast_len(sequence: Option<u8>) -> usize
    ensures { (result ≡ broadcast_length sequence) × (result ≤ 2) }
{
    match sequence {
        None => 0,
        Some(_) => 2,
    }
}

#[tactic(auto, unfolding(octets::specs::Write::put, octets::specs::Write::byte_bytes))]
pub(crate) fn put_broadcast(buf: &mut [u8], at: usize, sequence: Option<u8>)
    ensures { buf.new ≡ put at (broadcast_bytes sequence) buf.old }
{
    if let Some(x) = sequence {
        if at < buf.len() {
            put_byte(buf, at, BROADCAST);
            put_byte(buf, at + 1, x);
        }
    }
}
