// The datagram that a frame stands for.
ghost use Rattle.std.specs.Prelude.{◌≡◌};
ghost use Rattle.expand.specs.Expand.{of_expanded, finished_in, expansion, measured, answered, written};
ghost use Rattle.expand.specs.Expand.{Fills, filled};

use super::chain::{Way, walk};
use super::checksum::{UdpSum, put_checksum};
use super::copy::{clear, put_slice};
use super::nested::{Inner, header};
use iphc::LinkAddresses;
use octets::cursor::Cursor;
use octets::refusal::Refusal;

// The bytes of the longest expansion: eight headers, UDP's and the rest of a frame (`at-most-455`,
// proofs/Datagrams.antt).
pub const LONGEST: usize = 455;

// How many bytes the datagram, or its first part, has, and what is to be remembered of its UDP checksum.
#[derive(Clone, Copy)]
pub struct Expanded {
    pub len: usize,
    pub sum: UdpSum,
}

// An elided checksum is computed where the datagram is not in parts.
fn put_elided(buf: &mut [u8], size: Option<u16>, n: usize, m: UdpSum)
    ensures { buf.new ≡ finished_in size m n buf.old }
{
    if size.is_none() {
        put_checksum(buf, n, m);
    }
}

// As `fill`, but that a refusal leaves in the room what was written before it.
fn fill_from(
    frame: &[u8],
    c: Cursor,
    ll: LinkAddresses,
    contexts: &[u8],
    size: Option<u16>,
    room: &mut [u8],
) -> Result<Expanded, Refusal>
    ensures { (of_expanded result ≡ answered (expansion contexts.now ll.src ll.dst size
        frame.now c.at) room.old)
        × Fills result (expansion contexts.now ll.src ll.dst size frame.now c.at)
        room.old room.new }
{
    if 127 < frame.len() {
        return Err(Refusal::BadLength);
    }
    let end = walk(frame, c, ll, contexts, size, room)?;
    let len = end.len as usize;
    let sum = end.sum;
    put_elided(room, size, len, sum);
    Ok(Expanded { len, sum })
}

// Writes the datagram that the frame stands for into the front of a room, which a refusal leaves all zeros: headers are
// written as they are read, before it is known whether what follows is refused.
//
// The compressed header stands at the place c of the frame; `size` is the size of the whole datagram where the frame is
// its first part. The link-layer addresses are those of the frame; the contexts are flat bytes, 8 for each identifier.
// These stay parameters, no struct: each caller holds them apart, and each reader below takes but some.
pub fn fill(
    frame: &[u8],
    c: Cursor,
    ll: LinkAddresses,
    contexts: &[u8],
    size: Option<u16>,
    room: &mut [u8],
) -> Result<Expanded, Refusal>
    ensures { (of_expanded result ≡ answered (expansion contexts.now ll.src ll.dst size
        frame.now c.at) room.old)
        × (room.new ≡ filled (expansion contexts.now ll.src ll.dst size frame.now
        c.at) room.old) }
{
    // No `map_err`: its closure would have to hold the room.
    match fill_from(frame, c, ll, contexts, size, room) {
        Ok(x) => Ok(x),
        Err(e) => {
            clear(room);
            Err(e)
        }
    }
}

// As `fill_from`, by the two functions that call each other. The walk is no closure: its contract would be the whole of
// this one again.
fn expand_from(
    frame: &[u8],
    c: Cursor,
    ll: LinkAddresses,
    contexts: &[u8],
    size: Option<u16>,
    room: &mut [u8],
) -> Result<Expanded, Refusal>
    ensures { (of_expanded result ≡ answered (expansion contexts.now ll.src ll.dst size
        frame.now c.at) room.old)
        × Fills result (expansion contexts.now ll.src ll.dst size frame.now c.at)
        room.old room.new }
{
    if 127 < frame.len() {
        return Err(Refusal::BadLength);
    }
    let end = header(frame, Inner { at: c, ll }, contexts, Way::START, size, room)?;
    let len = end.len as usize;
    let sum = end.sum;
    put_elided(room, size, len, sum);
    Ok(Expanded { len, sum })
}

// Writes the datagram that the frame stands for into the front of the output, or refuses and writes nothing: it is
// put into a room of the call's own, and copied.
pub fn expand(
    frame: &[u8],
    c: Cursor,
    ll: LinkAddresses,
    contexts: &[u8],
    size: Option<u16>,
    out: &mut [u8],
) -> Result<Expanded, Refusal>
    ensures { (of_expanded result ≡ answered (expansion contexts.now ll.src ll.dst size
        frame.now c.at) out.old)
        × (out.new ≡ written (expansion contexts.now ll.src ll.dst size frame.now
        c.at) out.old) }
{
    let mut room = [0u8; LONGEST];
    let x = expand_from(frame, c, ll, contexts, size, &mut room)?;
    if out.len() < x.len {
        return Err(Refusal::NoRoom);
    }
    put_slice(out, 0, &room, 0, x.len);
    Ok(x)
}

// What `expand` would answer in room enough.
pub fn measure(
    frame: &[u8],
    c: Cursor,
    ll: LinkAddresses,
    contexts: &[u8],
    size: Option<u16>,
) -> Result<Expanded, Refusal>
    ensures { of_expanded result ≡ measured (expansion contexts.now ll.src ll.dst size
        frame.now c.at) }
{
    let mut room = [0u8; LONGEST];
    expand_from(frame, c, ll, contexts, size, &mut room)
}
