// A part and one slot: its record, and its 2,048 bytes of the lent memory.
ghost use Rattle.std.specs.Prelude.{◌≡◌, true, false, ◌+◌, ◌*◌, ◌<◌, ◌≤◌, length, take, eqb};
ghost use Rattle.octets.specs.Read.{choose};
ghost use Rattle.octets.specs.Write.{put};
ghost use Rattle.marks.specs.Marks.{unpack, has_in};
ghost use Rattle.reassembly.specs.Lists.{same_list};
ghost use Rattle.reassembly.specs.Parts.{with_bytes, units, fits_in, spans, repeats_in, taken_in, full, handed};
ghost use Rattle.reassembly.specs.Parts.{place, offer, Placeable, Hands, Does};

use super::slot::{Key, Slot};
use expand::checksum::{UdpSum, is_right, put_checksum};
use expand::copy::put_slice;
use octets::refusal::Refusal;
use sixlowpan::frag::Units;

// The bytes of the smallest datagram, an IPv6 header alone, and of the largest that a fragment header can name.
const SMALLEST: usize = 40;

pub const LARGEST: usize = 2047;

// A part beside its bytes, which are lent: specs/Parts.antt has the two as one (`with_bytes`). `sum` is read of the
// part at byte 0 only.
#[derive(Clone, Copy)]
pub struct Part {
    pub key: Key,
    pub offset: Units,
    pub sum: UdpSum,
}

// What a call comes to that is not refused: the part is kept, or a datagram of so many bytes stands at the output's
// start.
#[derive(Clone, Copy)]
pub enum Outcome {
    Kept,
    Out(usize),
}

// What a part comes to in its slot: the answer, and the record after it, which a refusal may change too.
#[derive(Clone, Copy)]
pub struct InSlot {
    pub outcome: Result<Outcome, Refusal>,
    pub slot: Slot,
}

// Not `==` of slices: its code for any length takes 1,800 bytes of a controller's flash (bench/size, the limit on what
// receives).
fn same_bytes(a: &[u8], b: &[u8]) -> bool
    ensures { result ≡ same_list a.now b.now }
{
    if a.len() != b.len() {
        return false;
    }
    // By the index: slices are taken so in the crates under `lift_c` (docs/DECISIONS.md).
    for i in 0..a.len() {
        if a[i] != b[i] {
            return false;
        }
    }
    true
}

// The units of 8 bytes that n bytes take. That n is at most 2,047 is one number's bound, said where it is needed.
#[tactic(auto, unfolding(crate::specs::Parts::units))]
fn units_of(n: usize) -> usize
    requires { n ≤ 2047 }
    ensures { (result ≡ units n) × (result ≤ 256) }
{
    (n + 7) / Units::SIZE
}

// Whether a part of n bytes is one of a datagram of so many bytes: check 10.
#[tactic(auto, unfolding(crate::specs::Parts::fits_in))]
pub fn fits(size: u16, offset: Units, n: usize) -> bool
    ensures { result ≡ fits_in size offset.0 n }
{
    let total = size as usize;
    if total < SMALLEST || (LARGEST < total || (n < 1 || total < n)) {
        return false;
    }
    let end = offset.bytes() + n;
    end <= total && (n % 8 == 0 || end == total)
}

// Whether a part that was taken lies exactly from unit u to unit e.
// Two arrays of marks side by side, as the slot has them by value (a rule of the project).
#[tactic(auto, unfolding(crate::specs::Parts::spans))]
fn is_span(covered: [u64; 4], starts: [u64; 4], u: usize, e: usize) -> bool
    requires { u < 256 }
    ensures { result ≡ spans (unpack covered) (unpack starts) u e }
{
    marks::marked(starts, u)
        && (!marks::has_mark(covered, false, u, e)
            && (!marks::has_mark(starts, true, u + 1, e)
                && (!marks::marked(covered, e) || marks::marked(starts, e))))
}

// Whether the very part was taken before: at its place, of its length, with its bytes.
fn is_repeat(s: Slot, room: &[u8], offset: Units, part: &[u8]) -> bool
    requires { (offset.0 * 8 + length part.now ≤ 2047) × (length room.now ≡ 2048) }
    ensures { result ≡ repeats_in s room.now offset.0 part.now }
{
    let u = offset.0 as usize;
    let at = offset.bytes();
    let to = at + part.len();
    is_span(s.covered, s.starts, u, u + units_of(part.len())) && same_bytes(&room[at..to], part)
}

// Whether a part of n bytes touches a taken one.
fn is_touching(covered: [u64; 4], offset: Units, n: usize) -> bool
    requires { n ≤ 2047 }
    ensures { result ≡ has_in true (unpack covered) offset.0 (units n) }
{
    let u = offset.0 as usize;
    marks::has_mark(covered, true, u, u + units_of(n))
}

// What is to be known of the checksum is remembered when the part at byte 0 is taken.
fn remembered(offset: Units, sum: UdpSum, was: UdpSum) -> UdpSum
    ensures { result ≡ choose (eqb offset.0 0) sum was }
{
    if offset.0 == 0 { sum } else { was }
}

// The record with a part of n bytes taken.
fn with_part(s: Slot, part: Part, n: usize) -> Slot
    requires { n ≤ 2047 }
    ensures { result ≡ taken_in s part.offset.0 part.sum n }
{
    let u = part.offset.0 as usize;
    Slot {
        covered: marks::mark(s.covered, u, u + units_of(n)),
        starts: marks::mark_one(s.starts, u),
        sum: remembered(part.offset, part.sum, s.sum),
        ..s
    }
}

fn is_full(s: Slot) -> bool
    requires { s.key.size ≤ 2047 }
    ensures { result ≡ full s }
{
    !marks::has_mark(s.covered, false, 0, units_of(s.key.size as usize))
}

// The datagram goes to the output's start, its checksum computed where it was elided. One that was carried is tested
// first: where it does not hold nothing is handed out, 17.
fn hand_out(room: &[u8], size: usize, sum: UdpSum, out: &mut [u8]) -> Result<Outcome, Refusal>
    requires { (size ≤ 2047) × (size ≤ length room.now) × (size ≤ length out.old) }
    ensures { Hands result out.old out.new (handed sum (take size room.now)) }
{
    if !is_right(room, size, sum) {
        return Err(Refusal::BadChecksum);
    }
    put_slice(out, 0, room, 0, size);
    put_checksum(out, size, sum);
    Ok(Outcome::Out(size))
}

// Takes a part that touches nothing taken: its bytes are written at their place and its units marked. Full cover hands
// the datagram out and frees the slot.
fn place_part(s: Slot, room: &mut [u8], part: Part, bytes: &[u8], out: &mut [u8]) -> InSlot
    requires { Placeable s.key.size part.offset.0 bytes.now room.old out.old }
    ensures { Does result room.new out.old out.new
        (place s room.old (with_bytes part bytes.now)) }
{
    put_slice(room, part.offset.bytes(), bytes, 0, bytes.len());
    let slot = with_part(s, part, bytes.len());
    if is_full(slot) {
        return InSlot {
            outcome: hand_out(room, slot.key.size as usize, slot.sum, out),
            slot: Slot::free(),
        };
    }
    InSlot {
        outcome: Ok(Outcome::Kept),
        slot,
    }
}

// A part that comes under the slot's key.
// Record, part and bytes apart from the two lent rooms: `offer` of specs/Parts.antt takes them so.
pub(crate) fn offer_part(
    s: Slot,
    room: &mut [u8],
    part: Part,
    bytes: &[u8],
    out: &mut [u8],
) -> InSlot
    requires { Placeable s.key.size part.offset.0 bytes.now room.old out.old }
    ensures { Does result room.new out.old out.new
        (offer s room.old (with_bytes part bytes.now)) }
{
    if is_repeat(s, room, part.offset, bytes) {
        return InSlot {
            outcome: Ok(Outcome::Kept),
            slot: s,
        };
    }
    if is_touching(s.covered, part.offset, bytes.len()) {
        return InSlot {
            outcome: Err(Refusal::Clash),
            slot: Slot::free(),
        };
    }
    place_part(s, room, part, bytes, out)
}
