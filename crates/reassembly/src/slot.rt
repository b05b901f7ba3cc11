// Addresses, keys and slots as the table holds them: numbers of 8 bytes, so that a table by value is quick to copy.
// Kinds and `live` are such numbers, and nobody is an address of kind 0, since each 64-bit number of the 149 is one
// table (`table-one`; include/lift.h, `lift_table`): an enum or an Option has fewer values.
ghost use Rattle.std.specs.Prelude.{◌≡◌, ◌&&◌, ◌-◌, eqb, leb};
ghost use Rattle.reassembly.specs.Slots.{node_of, addressed, source_of, present, free_slot, opened, is_key, is_of};

use expand::checksum::UdpSum;
use ieee802154::addr::pan_number;
use ieee802154::{Address, Pan};

// An address as two numbers: its kind (0 absent, 1 short, 2 extended) and its value, 0 where it is absent.
#[repr(C)]
#[derive(Clone, Copy, PartialEq, Eq)]
pub struct Node {
    pub kind: u64,
    pub number: u64,
}

// Who sends: an address, and the number of its PAN, 0 where there is none.
#[repr(C)]
#[derive(Clone, Copy, PartialEq, Eq)]
pub struct Source {
    pub node: Node,
    pub pan: u64,
}

// What tells one datagram's parts from another's.
#[repr(C)]
#[derive(Clone, Copy, PartialEq, Eq)]
pub struct Key {
    pub src: Source,
    pub dst: Node,
    pub size: u16,
    pub tag: u16,
}

// A slot's record: open (live is 1) under a key since a time, a mark of coverage and of a part's start for each of its
// 256 units of 8 bytes, and what is remembered of the UDP checksum.
#[repr(C)]
#[derive(Clone, Copy)]
pub struct Slot {
    pub key: Key,
    pub since: u64,
    pub covered: [u64; 4],
    pub starts: [u64; 4],
    pub live: u64,
    pub sum: UdpSum,
}

impl Node {
    pub const NONE: Node = Node { kind: 0, number: 0 };

    #[tactic(auto, unfolding(crate::specs::Slots::addressed))]
    pub fn is_present(self) -> bool
        ensures { result ≡ addressed self }
    {
        self.kind != 0
    }
}

impl From<Address> for Node {
    ghost from_gives = { λ a n. n ≡ node_of a };

    fn from(a: Address) -> Node {
        match a {
            Address::Absent => Node::NONE,
            Address::Short(x) => Node {
                kind: 1,
                number: x as u64,
            },
            Address::Extended(x) => Node { kind: 2, number: x },
        }
    }
}

impl Source {
    pub const NONE: Source = Source {
        node: Node::NONE,
        pan: 0,
    };

    // Of two things, as `source_of` of specs/Slots.antt: a `From` would take them as a tuple, which is no plainer.
    pub fn of(a: Address, pan: Option<Pan>) -> Source
        ensures { result ≡ source_of a pan }
    {
        Source {
            node: Node::from(a),
            pan: pan_number(pan),
        }
    }

    #[tactic(auto, unfolding(crate::specs::Slots::present))]
    pub fn is_present(self) -> bool
        ensures { result ≡ present self }
    {
        self.node.is_present()
    }
}

impl Key {
    // The key of no datagram, where there is none.
    pub const NONE: Key = Key {
        src: Source::NONE,
        dst: Node::NONE,
        size: 0,
        tag: 0,
    };
}

impl Slot {
    // Every free slot is this one.
    pub fn free() -> Slot
        ensures { result ≡ free_slot }
    {
        Slot {
            key: Key::NONE,
            since: 0,
            covered: [0u64; 4],
            starts: [0u64; 4],
            live: 0,
            sum: UdpSum::NONE,
        }
    }

    // A slot as it is opened under a key.
    #[tactic(auto, unfolding(crate::specs::Slots::opened))]
    pub fn opened(key: Key, time: u64) -> Slot
        ensures { result ≡ opened key time }
    {
        Slot {
            key,
            since: time,
            covered: [0u64; 4],
            starts: [0u64; 4],
            live: 1,
            sum: UdpSum::NONE,
        }
    }

    pub fn has_key(self, k: Key) -> bool
        ensures { result ≡ is_key k self }
    {
        self.live == 1 && self.key == k
    }

    pub fn is_of(self, g: Source) -> bool
        ensures { result ≡ is_of g self }
    {
        self.live == 1 && self.key.src == g
    }
}

// A slot is freed this many milliseconds after its opening.
pub const LIFETIME: u64 = 60000;

// Whether a slot is 60,000 ms or more past its opening.
pub fn is_expired(live: u64, since: u64, time: u64) -> bool
    ensures { result ≡ (eqb live 1 && leb 60000 (time - since)) }
{
    live == 1 && LIFETIME <= time.saturating_sub(since)
}
