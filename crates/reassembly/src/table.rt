// The slot table: what it is, the list of its gateways, and a part taken by one of its slots.
ghost use Rattle.std.specs.Prelude.{◌≡◌, Err, ◌||◌, ◌+◌, ◌*◌, ◌<◌, ◌≤◌, length, ltb, leb};
ghost use Rattle.octets.specs.Answers.{of_answer};
ghost use Rattle.octets.specs.Read.{choose};
ghost use Rattle.reassembly.specs.Lists.{count};
ghost use Rattle.reassembly.specs.Slots.{same_source, opened, is_key};
ghost use Rattle.reassembly.specs.Parts.{with_bytes, offer, Placeable};
ghost use Rattle.reassembly.specs.Table.{chunk, take_at, Lands};
ghost use Rattle.reassembly.specs.Fresh.{seats, sources, unfit, seated};

use super::part::{InSlot, LARGEST, Part, fits, offer_part};
use super::slot::{Key, Slot, Source};
use ieee802154::{Address, Pan};
use octets::refusal::Refusal;

// The slots of a table, the bytes of memory that each has, and of all together.
pub const SLOTS: usize = 8;

const SLOT_BYTES: usize = 2048;

pub const LENT: usize = 16384;

// A gateway as it is listed: its address, and its PAN or none.
#[derive(Clone, Copy)]
pub struct Gateway {
    pub addr: Address,
    pub pan: Option<Pan>,
}

// What a table is: the slots, the last time taken, and the gateways; a seat without one holds an absent address. Its
// caller keeps it as numbers (crate `words`).
#[derive(Clone, Copy)]
pub struct Table {
    pub slots: [Slot; 8],
    pub last: u64,
    pub gateways: [Source; 4],
}

// Where a part goes, and when: slot `index`, whose record is `slot`.
#[derive(Clone, Copy)]
pub struct Target {
    pub slot: Slot,
    pub index: usize,
    pub time: u64,
}

// The seats of the first `count` of these gateways: 14 where there are more than four, two that are equal, or one whose
// address is absent. A count beside them: over four are counted and not held (lift's flat list).
pub fn seat(gateways: [Gateway; 4], count: usize) -> Result<[Source; 4], Refusal>
    ensures { of_answer result ≡ seated count (sources count gateways) }
{
    if 4 < count {
        return Err(Refusal::BadGateways);
    }
    let seats = seat_all(gateways, count);
    if has_unfit(&seats[0..count]) {
        return Err(Refusal::BadGateways);
    }
    Ok(seats)
}

// The seats of the first `count` gateways.
fn seat_all(gateways: [Gateway; 4], count: usize) -> [Source; 4]
    requires { count ≤ 4 }
    ensures { result ≡ seats (sources count gateways) }
{
    // By place, since a `map` over the four would fill the seats behind `count` too.
    let mut all = [Source::NONE; 4];
    for i in 0..count {
        all[i] = Source::of(gateways[i].addr, gateways[i].pan);
    }
    all
}

// How many of the seats are g's.
fn count_seats(seats: &[Source], g: Source) -> usize
    ensures { result ≡ count (same_source g) seats.now }
{
    // By place, here and below: a reference in an Option, which a slice's iterator hands out, is not compiled right for
    // controllers of 32 bits (examples/cortex-m).
    let mut n = 0;
    for i in 0..seats.len() {
        if g == seats[i] {
            n += 1;
        }
    }
    n
}

// Whether a seat's address is absent, or stands twice among them.
#[tactic(auto, unfolding(crate::specs::Fresh::unfit))]
fn is_unfit(seats: &[Source], g: Source) -> bool
    ensures { result ≡ unfit seats.now g }
{
    !g.is_present() || 1 < count_seats(seats, g)
}

fn has_unfit(seats: &[Source]) -> bool
    ensures { result ≡ leb 1 (count (unfit seats.now) seats.now) }
{
    for i in 0..seats.len() {
        if is_unfit(seats, seats[i]) {
            return true;
        }
    }
    false
}

// Whether too little was lent.
pub fn is_short(mem: usize, out: usize) -> bool
    ensures { result ≡ (ltb mem 16384 || ltb out 2047) }
{
    mem < LENT || out < LARGEST
}

// A part under the key of slot i, whose record is s; the slot's bytes are lent on.
// (The bound on i is that of an index.)
fn offer_at(s: Slot, i: usize, part: Part, bytes: &[u8], mem: &mut [u8], out: &mut [u8]) -> InSlot
    requires i_bound { (i < 8) × (16384 ≤ length mem.old) }
    requires placeable { Placeable s.key.size part.offset.0 bytes.now (chunk i mem.old) out.old }
    ensures { Lands result i mem.old mem.new out.old out.new
        (offer s (chunk i mem.old) (with_bytes part bytes.now)) }
{
    let from = i * SLOT_BYTES;
    let to = from + SLOT_BYTES;
    offer_part(s, &mut mem[from..to], part, bytes, out)
}

// A part for a slot, at a time at which the slot is not old: one under the slot's key is offered to it, any other
// opens it. Refused, the slot as it was, where too little is lent, the part is none of its datagram, or there is no
// such slot.
pub fn take_at(to: Target, part: Part, bytes: &[u8], mem: &mut [u8], out: &mut [u8]) -> InSlot
    ensures { Lands result to.index mem.old mem.new out.old out.new
        (take_at to.slot to.index to.time (with_bytes part bytes.now) mem.old
        out.old) }
{
    if is_short(mem.len(), out.len()) {
        return stays(to.slot, Refusal::NoRoom);
    }
    if !fits(part.key.size, part.offset, bytes.len()) {
        return stays(to.slot, Refusal::BadPart);
    }
    if SLOTS <= to.index {
        return stays(to.slot, Refusal::NoSlot);
    }
    let z = slot_for(to.slot, part.key, to.time);
    offer_at(z, to.index, part, bytes, mem, out)
}

// The record that a part finds: the slot's under its own key, or that of the slot as it is opened.
fn slot_for(s: Slot, key: Key, time: u64) -> Slot
    ensures { result ≡ choose (is_key key s) s (opened key time) }
{
    if s.has_key(key) {
        s
    } else {
        Slot::opened(key, time)
    }
}

// A refusal that leaves the slot as it was.
fn stays(slot: Slot, e: Refusal) -> InSlot
    ensures { result ≡ record { outcome = Err e; slot = slot } }
{
    InSlot {
        outcome: Err(e),
        slot,
    }
}
