// What the numbers say.
// The bounds are those of an index, each told where the array is read.
ghost use Rattle.std.specs.Prelude.{◌≡◌, ◌+◌, ◌*◌, ◌<◌, ◌≤◌, get_or};
ghost use Rattle.reassembly.specs.Slots.{free_slot};
ghost use Rattle.words.specs.Words.{source_in, four_in, key_of, sum_of, slot_in, table_in};

use super::{LAST, SLOT_WORDS, WORDS};
use expand::checksum::UdpSum;
use reassembly::table::SLOTS;
use reassembly::{Key, Node, Slot, Source};

// The last time that the table took.
#[tactic(auto, unfolding(crate::specs::Words::table_in))]
pub fn last(t: &[u64; WORDS]) -> u64
    ensures { result ≡ (table_in t.now).last }
{
    t[LAST]
}

// The sender at a place.
#[tactic(auto, unfolding(crate::specs::Words::source_in, crate::specs::Words::node_in))]
pub(crate) fn source_at(t: &[u64; WORDS], k: usize) -> Source
    requires { k + 3 ≤ 149 }
    ensures { result ≡ source_in t.now k }
{
    Source {
        node: Node {
            kind: t[k],
            number: t[k + 1],
        },
        pan: t[k + 2],
    }
}

// Four words by value, here and in `put_four`: a rule of the project.
#[tactic(auto, unfolding(crate::specs::Words::four_in))]
fn four_at(t: &[u64; WORDS], k: usize) -> [u64; 4]
    requires { k + 4 ≤ 149 }
    ensures { result ≡ four_in t.now k }
{
    [t[k], t[k + 1], t[k + 2], t[k + 3]]
}

#[tactic(auto, unfolding(crate::specs::Words::key_of))]
fn key_of(src: Source, dst: Node, w: u64) -> Key
    ensures { result ≡ key_of src dst w }
{
    Key {
        src,
        dst,
        size: (w % 65536) as u16,
        tag: (w / 65536 % 65536) as u16,
    }
}

// The kind stays a number: each 64-bit number is one table (`table-one`).
#[tactic(auto, unfolding(crate::specs::Words::sum_of))]
fn sum_of(kind: u64, w: u64) -> UdpSum
    ensures { result ≡ sum_of kind w }
{
    UdpSum {
        kind,
        ip: (w / 4294967296 % 65536) as u16,
        udp: (w / 281474976710656 % 65536) as u16,
    }
}

// The record at a place.
fn slot_from(t: &[u64; WORDS], k: usize) -> Slot
    requires { k + 17 ≤ 149 }
    ensures { result ≡ slot_in t.now k }
{
    let dst = Node {
        kind: t[k + 3],
        number: t[k + 4],
    };
    Slot {
        key: key_of(source_at(t, k), dst, t[k + 5]),
        since: t[k + 6],
        covered: four_at(t, k + 7),
        starts: four_at(t, k + 11),
        live: t[k + 15],
        sum: sum_of(t[k + 16], t[k + 5]),
    }
}

// A slot's record; a free one, where there is no such slot.
pub fn slot_at(t: &[u64; WORDS], i: usize) -> Slot
    ensures { result ≡ get_or (table_in t.now).slots i free_slot }
{
    if i < SLOTS {
        slot_from(t, i * SLOT_WORDS)
    } else {
        Slot::free()
    }
}
