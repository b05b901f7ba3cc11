// The numbers changed.
// The bounds are those of an index, each told where the array is written.
ghost use Rattle.std.specs.Prelude.{◌≡◌, ◌+◌, ◌*◌, ◌<◌, ◌≤◌, get_or, replicate};
ghost use Rattle.octets.specs.Write.{put};
ghost use Rattle.reassembly.specs.Slots.{free_slot, expire, expire1};
ghost use Rattle.reassembly.specs.Fresh.{Begins};
ghost use Rattle.reassembly.specs.Table.{with_slots};
ghost use Rattle.words.specs.Words.{four_in, table_in, with_slot, with_seat};
ghost use Rattle.words.specs.Words.{source_words, head_words, packed, slot_words};

use super::{LAST, SEATS, SLOT_WORDS, WORDS};
use octets::refusal::Refusal;
use reassembly::slot::is_expired;
use reassembly::table::SLOTS;
use reassembly::{Gateway, Slot, Source, seat};

fn put_source(t: &mut [u64; WORDS], k: usize, s: Source)
    requires { k + 3 ≤ 149 }
    ensures { t.new ≡ put k (source_words s) t.old }
{
    t[k] = s.node.kind;
    t[k + 1] = s.node.number;
    t[k + 2] = s.pan;
}

fn put_four(t: &mut [u64; WORDS], k: usize, v: [u64; 4])
    requires { k + 4 ≤ 149 }
    ensures { t.new ≡ put k (four_in v 0) t.old }
{
    t[k] = v[0];
    t[k + 1] = v[1];
    t[k + 2] = v[2];
    t[k + 3] = v[3];
}

#[tactic(auto, unfolding(crate::specs::Words::packed))]
fn pack(size: u16, tag: u16, ip: u16, udp: u16) -> u64
    ensures { result ≡ packed size tag ip udp }
{
    (size as u64) + (tag as u64) * 65536 + (ip as u64) * 4294967296 + (udp as u64) * 281474976710656
}

// What stands between a slot's source and its marks.
fn put_head(t: &mut [u64; WORDS], k: usize, s: Slot)
    requires { k + 4 ≤ 149 }
    ensures { t.new ≡ put k (head_words s) t.old }
{
    t[k] = s.key.dst.kind;
    t[k + 1] = s.key.dst.number;
    t[k + 2] = pack(s.key.size, s.key.tag, s.sum.ip, s.sum.udp);
    t[k + 3] = s.since;
}

fn put_words(t: &mut [u64; WORDS], k: usize, s: Slot)
    requires { k + 17 ≤ 149 }
    ensures { t.new ≡ put k (slot_words s) t.old }
{
    put_source(t, k, s.key.src);
    put_head(t, k + 3, s);
    put_four(t, k + 7, s.covered);
    put_four(t, k + 11, s.starts);
    t[k + 15] = s.live;
    t[k + 16] = s.sum.kind;
}

// Makes s the record of slot i; nothing is written where there is no such slot.
pub fn put_slot(t: &mut [u64; WORDS], i: usize, s: Slot)
    ensures { table_in t.new ≡ with_slot (table_in t.old) i s }
{
    if i < SLOTS {
        put_words(t, i * SLOT_WORDS, s);
    }
}

// Frees slot i, where it is 60,000 ms or more past its opening.
fn age_slot(t: &mut [u64; WORDS], i: usize, time: u64)
    requires { i < 8 }
    ensures { table_in t.new ≡ with_slot (table_in t.old) i
        (expire1 time (get_or (table_in t.old).slots i free_slot)) }
{
    let k = i * SLOT_WORDS;
    if is_expired(t[k + 15], t[k + 6], time) {
        put_slot(t, i, Slot::free());
    }
}

// The time is taken, and slots 60,000 ms or more past their opening are freed.
pub fn age(t: &mut [u64; WORDS], time: u64)
    ensures { table_in t.new ≡ with_slots (table_in t.old) time
        (expire time (table_in t.old).slots) }
{
    for i in 0..SLOTS {
        age_slot(t, i, time);
    }
    t[LAST] = time;
}

fn put_seat(t: &mut [u64; WORDS], i: usize, s: Source)
    requires { i < 4 }
    ensures { table_in t.new ≡ with_seat (table_in t.old) i s }
{
    put_source(t, SEATS + i * 3, s);
}

fn clear(t: &mut [u64; WORDS])
    ensures { t.new ≡ replicate 149 0 }
{
    t.fill(0);
}

// A table at its beginning, of these seats (four by value: a rule of the project): every other number is 0.
fn sit(t: &mut [u64; WORDS], seats: [Source; 4])
    ensures { table_in t.new ≡ record { slots = replicate 8 free_slot; last = 0; gateways = seats } }
{
    clear(t);
    put_seat(t, 0, seats[0]);
    put_seat(t, 1, seats[1]);
    put_seat(t, 2, seats[2]);
    put_seat(t, 3, seats[3]);
}

// A table of the first `count` of these gateways, at its beginning; a refused list, 14, leaves it as it was.
// (A count beside the gateways, as `seat` of reassembly takes them.)
pub fn begin(t: &mut [u64; WORDS], gateways: [Gateway; 4], count: usize) -> Result<(), Refusal>
    ensures { Begins result (table_in t.old) (table_in t.new) count gateways }
{
    sit(t, seat(gateways, count)?);
    Ok(())
}
