// What is looked for among the slots and the gateways, where the numbers lie. The bounds are those of an index, each
// told where the array is read.
ghost use Rattle.std.specs.Prelude.{◌≡◌, ◌&&◌, ◌+◌, ◌*◌, ◌<◌, ◌≤◌, get_or};
ghost use Rattle.reassembly.specs.Lists.{first_at};
ghost use Rattle.reassembly.specs.Slots.{same_node, same_source, free_slot, no_source, is_key, is_of, is_free};
ghost use Rattle.reassembly.specs.Slots.{gates_of, is_gate, held, free, idle_others, opening};
ghost use Rattle.words.specs.Words.{node_in, source_in, found, seat, idle_seat, table_in};

use super::read::source_at;
use super::{GATEWAYS, SEATS, SLOT_WORDS, WORDS};
use reassembly::table::SLOTS;
use reassembly::{Key, Node, Source};

// Whether the address at a place is this one.
// (Where the numbers lie, and no `==` of records: none is made to be compared.)
#[tactic(auto, unfolding(reassembly::specs::Slots::same_node, crate::specs::Words::node_in))]
fn is_node(t: &[u64; WORDS], k: usize, a: Node) -> bool
    requires { k + 2 ≤ 149 }
    ensures { result ≡ same_node (node_in t.now k) a }
{
    t[k] == a.kind && t[k + 1] == a.number
}

// Whether the sender at a place is this one.
#[tactic(auto, unfolding(reassembly::specs::Slots::same_source, crate::specs::Words::source_in))]
fn is_source(t: &[u64; WORDS], k: usize, g: Source) -> bool
    requires { k + 3 ≤ 149 }
    ensures { result ≡ same_source (source_in t.now k) g }
{
    is_node(t, k, g.node) && t[k + 2] == g.pan
}

// Whether slot i is open under a key. Size and tag lie in one number and differ most often: they come first.
fn has_key(t: &[u64; WORDS], i: usize, key: Key) -> bool
    requires { i < 8 }
    ensures { result ≡ is_key key (get_or (table_in t.now).slots i free_slot) }
{
    let k = i * SLOT_WORDS;
    t[k + 5] % 4294967296 == (key.size as u64) + (key.tag as u64) * 65536
        && (t[k + 15] == 1 && (is_source(t, k, key.src) && is_node(t, k + 3, key.dst)))
}

// The slot that is open under a key.
pub fn find(t: &[u64; WORDS], key: Key) -> Option<usize>
    ensures { result ≡ found (first_at (is_key key) (table_in t.now).slots) }
{
    (0..SLOTS).find(|i| has_key(t, *i, key))
}

// Whether slot i is open under a key of the gateway g.
fn is_of(t: &[u64; WORDS], i: usize, g: Source) -> bool
    requires { i < 8 }
    ensures { result ≡ is_of g (get_or (table_in t.now).slots i free_slot) }
{
    let k = i * SLOT_WORDS;
    t[k + 15] == 1 && is_source(t, k, g)
}

// How many slots a gateway holds. A loop, here and in the two counts below: `filter(..).count()` over a range was
// tried, and its proof did not close.
pub fn count_held(t: &[u64; WORDS], g: Source) -> usize
    ensures { result ≡ held g (table_in t.now).slots }
{
    let mut n = 0;
    for i in 0..SLOTS {
        if is_of(t, i, g) {
            n += 1;
        }
    }
    n
}

fn is_free(t: &[u64; WORDS], i: usize) -> bool
    requires { i < 8 }
    ensures { result ≡ is_free (get_or (table_in t.now).slots i free_slot) }
{
    t[i * SLOT_WORDS + 15] != 1
}

// How many slots are free.
pub fn count_free(t: &[u64; WORDS]) -> usize
    ensures { result ≡ free (table_in t.now).slots }
{
    let mut n = 0;
    for i in 0..SLOTS {
        if is_free(t, i) {
            n += 1;
        }
    }
    n
}

// The lowest free slot.
fn lowest_free(t: &[u64; WORDS]) -> Option<usize>
    ensures { result ≡ found (first_at is_free (table_in t.now).slots) }
{
    (0..SLOTS).find(|i| is_free(t, *i))
}

// Who sits in seat i: nobody, whose address is absent, or a gateway.
fn gateway_at(t: &[u64; WORDS], i: usize) -> Source
    requires { i < 4 }
    ensures { result ≡ get_or (table_in t.now).gateways i no_source }
{
    source_at(t, SEATS + i * 3)
}

// Whether seat i is that of a gateway of this address.
#[tactic(auto, unfolding(reassembly::specs::Slots::same_source, reassembly::specs::Slots::same_node))]
fn is_seat_of(t: &[u64; WORDS], i: usize, a: Source) -> bool
    requires { i < 4 }
    ensures { result ≡ seat a (get_or (table_in t.now).gateways i no_source) }
{
    let g = gateway_at(t, i);
    g.is_present() && a == g
}

// Whether an address is one of the gateways.
pub fn is_gateway(t: &[u64; WORDS], a: Source) -> bool
    ensures { result ≡ is_gate a (gates_of (table_in t.now)) }
{
    (0..GATEWAYS).any(|i| is_seat_of(t, i, a))
}

// Whether seat i is that of another gateway than g that holds no slot.
#[tactic(auto, unfolding(reassembly::specs::Slots::same_source, reassembly::specs::Slots::same_node))]
fn is_idle_other(t: &[u64; WORDS], i: usize, g: Source) -> bool
    requires { i < 4 }
    ensures { result
        ≡ idle_seat (table_in t.now).slots g (get_or (table_in t.now).gateways i no_source) }
{
    let h = gateway_at(t, i);
    h.is_present() && (h != g && count_held(t, h) == 0)
}

fn count_idle_others(t: &[u64; WORDS], g: Source) -> usize
    ensures { result ≡ idle_others g (gates_of (table_in t.now)) (table_in t.now).slots }
{
    let mut n = 0;
    for i in 0..GATEWAYS {
        if is_idle_other(t, i, g) {
            n += 1;
        }
    }
    n
}

// The slot that a gateway may open.
pub fn to_open(t: &[u64; WORDS], g: Source) -> Option<usize>
    ensures { result ≡ found (opening g (gates_of (table_in t.now)) (table_in t.now).slots) }
{
    let h = count_held(t, g);
    if h == 0 {
        return lowest_free(t);
    }
    if h < 3 {
        if count_idle_others(t, g) < count_free(t) {
            return lowest_free(t);
        }
    }
    None
}
