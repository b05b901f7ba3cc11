// A frame's payload: a whole datagram, or a part of one.
ghost use Rattle.std.specs.Prelude.{◌≡◌, List, ℕ, ◌≤◌, length};
ghost use Rattle.incoming.specs.Incoming.{Brings, Begins, expanded_to, piece, fragment, payload, payload_in};
ghost use Rattle.incoming.specs.declared.arrival.Arrival.{Arrival};

use super::arrival::Arrival;
use expand::checksum::UdpSum;
use expand::copy::clear;
use expand::{Expanded, LONGEST, fill};
use octets::cursor::Cursor;
use octets::refusal::Refusal;
use sixlowpan::frag::Units;
use sixlowpan::{SixlowpanPacket, frag};

// What a payload is: a whole datagram, or a part of one. What was expanded stands, in full, at the scratch's start and
// ends at a place: a whole datagram, and the part at offset 0. A later part's bytes stand in the frame and begin at a
// place.
#[derive(Clone, Copy)]
pub enum Payload {
    Whole {
        len: usize,
        sum: UdpSum,
    },
    Part {
        size: u16,
        tag: u16,
        offset: Units,
        sum: UdpSum,
        at: usize,
    },
}

// What a payload begins with: a compressed header at a place, of a whole datagram (no size) or of a first part; or the
// bytes of a later part. The size stands in an Option of its own, without the tag, as `fill` takes it.
#[derive(Clone, Copy)]
enum Head {
    Compressed {
        at: Cursor,
        size: Option<u16>,
        tag: u16,
    },
    Later {
        size: u16,
        tag: u16,
        offset: Units,
        from: usize,
    },
}

// A part, whose fragment header ends at `next`.
#[tactic(auto, using(crate::proofs::Steps::heads))]
fn part_head(h: frag::Repr, next: Cursor) -> Result<Head, Refusal>
    ensures { (ctx : List ℕ) (a : Arrival) (s : List ℕ) → next.at ≤ length s
        → Begins result ctx a s (piece ctx a h next.at s) }
{
    match h {
        frag::Repr::FirstFragment { size, tag } => Ok(Head::Compressed {
            at: next,
            size: Some(size),
            tag,
        }),
        frag::Repr::Fragment { size, tag, offset } => {
            if offset.0 == 0 {
                return Err(Refusal::BadPart);
            }
            Ok(Head::Later {
                size,
                tag,
                offset,
                from: next.at,
            })
        }
    }
}

#[tactic(auto, using(crate::proofs::Steps::heads))]
fn fragment_head(frame: &[u8], c: Cursor) -> Result<Head, Refusal>
    ensures { (ctx : List ℕ) (a : Arrival) → a.payload ≡ c
        → Begins result ctx a frame.now (fragment ctx a frame.now) }
{
    let (h, next) = frag::Repr::read(frame, c)?;
    part_head(h, next)
}

// By its dispatch, a compressed header or a fragment header.
#[tactic(auto, using(crate::proofs::Steps::heads))]
fn read_head(frame: &[u8], c: Cursor) -> Result<Head, Refusal>
    ensures { (ctx : List ℕ) (a : Arrival) → a.payload ≡ c
        → Begins result ctx a frame.now (payload ctx a frame.now) }
{
    match SixlowpanPacket::dispatch_at(frame, c)? {
        SixlowpanPacket::FragmentHeader => fragment_head(frame, c),
        SixlowpanPacket::IphcHeader => Ok(Head::Compressed {
            at: c,
            size: None,
            tag: 0,
        }),
    }
}

// What was expanded: a whole datagram, where there is no size, or a first part.
fn expanded(size: Option<u16>, tag: u16, e: Expanded) -> Payload
    ensures { result ≡ expanded_to size tag e.len e.sum }
{
    match size {
        None => Payload::Whole {
            len: e.len,
            sum: e.sum,
        },
        Some(size) => Payload::Part {
            size,
            tag,
            offset: Units(0),
            sum: e.sum,
            at: e.len,
        },
    }
}

impl Payload {
    // What stands behind the MAC header. The scratch holds what is expanded: 7 where it is shorter than the longest
    // expansion, 455 bytes. Every refusal clears it.
    #[tactic(auto, using(crate::proofs::Steps::payloads))]
    pub fn read(
        frame: &[u8],
        a: Arrival,
        contexts: &[u8],
        scratch: &mut [u8],
    ) -> Result<Payload, Refusal>
        ensures { Brings result scratch.old scratch.new frame.now
            (payload_in scratch.old contexts.now a frame.now) }
    {
        if scratch.len() < LONGEST {
            clear(scratch);
            return Err(Refusal::NoRoom);
        }
        match read_head(frame, a.payload) {
            Ok(Head::Compressed { at, size, tag }) => {
                let e = fill(frame, at, a.link_addresses(), contexts, size, scratch)?;
                Ok(expanded(size, tag, e))
            }
            Ok(
                Head::Later {
                    size,
                    tag,
                    offset,
                    from,
                },
            ) => Ok(Payload::Part {
                size,
                tag,
                offset,
                sum: UdpSum::NONE,
                at: from,
            }),
            Err(e) => {
                clear(scratch);
                Err(e)
            }
        }
    }
}
