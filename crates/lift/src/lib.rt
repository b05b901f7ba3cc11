// The receiver for C and Rust to link (include/lift.h): slices, numbers, and a table that the caller keeps.
//
// `lift_begin_flat` makes a table of its gateways, `lift_receive` hands it a frame, `lift_free` and `lift_held` count
// its slots. What each number means is in specs/Face.antt; the answer, the table and every lent byte after a call are
// those of the slot table's `step`. The table is 149 numbers of 64 bits (crate `words`), changed in place; the calls
// themselves are `words::begin` and `receiver::receive`, and here their answers become numbers.
//
// - `send`: what we send, `lift_cut` and `lift_frames`.
#![tactic(auto)]

pub mod send;

ghost use Rattle.std.specs.Prelude.{◌≡◌, ◌<◌, ◌≤◌};
ghost use Rattle.reassembly.specs.Slots.{free, held};
ghost use Rattle.reassembly.specs.Fresh.{gate_of};
ghost use Rattle.reassembly.specs.Parts.{of_outcome};
ghost use Rattle.words.specs.Words.{table_in};
ghost use Rattle.lift.specs.Face.{packed, InHalf, address_of, pan_from, gateway_of, gateway_at, list_answer};
ghost use Rattle.lift.specs.Face.{table_begun, received, Answers};

use ieee802154::{Address, Pan};
use octets::refusal::Refusal;
use reassembly::{Gateway, Outcome, Source};
use receiver::receive;
use words::WORDS;

// What is added to an answer's number: to a datagram's length, and to a refusal's number (LIFT_OUT and LIFT_REFUSED of
// include/lift.h, 65,536 times over).
pub(crate) const OUT: u32 = 65536;

pub(crate) const REFUSED: u32 = 131072;

// A kind and a number, as C has them (include/lift.h).
#[tactic(auto, unfolding(crate::specs::Face::address_of))]
fn address_of(kind: u64, number: u64) -> Address
    ensures { result ≡ address_of kind number }
{
    match kind {
        1 if number < 65536 => Address::Short(number as u16),
        2 => Address::Extended(number),
        _ => Address::Absent,
    }
}

// A PAN that crosses as one number: 0 is none, and every PAN one more than its identifier.
// (No `From`: it takes no number above 65,536.)
#[tactic(auto, unfolding(crate::specs::Face::pan_from))]
fn pan_from(n: u64) -> Option<Pan>
    requires { n ≤ 65536 }
    ensures { result ≡ pan_from n }
{
    if n == 0 {
        None
    } else {
        Some(Pan((n - 1) as u16))
    }
}

// No gateway: an absent address.
const NO_GATEWAY: Gateway = Gateway {
    addr: Address::Absent,
    pan: None,
};

// A gateway that crosses as two numbers: the first is its PAN, from bit 16 on, and the kind of its address.
// (Two numbers, as C has them: include/lift.h.)
#[tactic(auto, unfolding(crate::specs::Face::gateway_of))]
fn gateway_of(kind: u64, number: u64) -> Gateway
    ensures { result ≡ gateway_of kind number }
{
    let high = kind / 65536;
    if high <= 65536 {
        Gateway {
            addr: address_of(kind % 65536, number),
            pan: pan_from(high),
        }
    } else {
        NO_GATEWAY
    }
}

// The i-th gateway of a list of two numbers each; none, an absent address, where there is no such.
// (The bound is that of an index.)
#[tactic(auto, using(crate::proofs::Lists::at_told))]
fn gateway_at(gateways: &[u64], i: usize) -> Gateway
    requires { i < 4 }
    ensures { result ≡ gateway_at gateways.now i }
{
    let k = i * 2;
    let n = k + 1;
    if n < gateways.len() {
        gateway_of(gateways[k], gateways[n])
    } else {
        NO_GATEWAY
    }
}

// (No `From`: that a length is below 65,536 is asked.)
fn pack(answer: Result<Outcome, Refusal>) -> u32
    requires { InHalf (of_outcome answer) }
    ensures { result ≡ packed (of_outcome answer) }
{
    match answer {
        Ok(Outcome::Kept) => 0,
        Ok(Outcome::Out(n)) => OUT + (n as u32),
        Err(e) => REFUSED + (e.number() as u32),
    }
}

// Makes a table of these gateways, two numbers each: 1 and a short address or 2 and an extended one, with a PAN
// 65,536 times one more than its identifier added to the first. Answers 0, or 14.
#[unsafe(no_mangle)]
pub extern "C" fn lift_begin_flat(t: &mut [u64; WORDS], gateways: &[u64]) -> u32
    ensures { (result ≡ list_answer gateways.now)
        × (table_in t.new ≡ table_begun (table_in t.old) gateways.now) }
{
    let a = gateway_at(gateways, 0);
    let b = gateway_at(gateways, 1);
    let c = gateway_at(gateways, 2);
    let d = gateway_at(gateways, 3);
    let count = gateways.len() / 2 + gateways.len() % 2;
    match words::begin(t, [a, b, c, d], count) {
        Ok(()) => 0,
        Err(e) => e.number() as u32,
    }
}

// Hands the table a frame that comes at a time. Answers 0 where a part was kept, 65,536 and a datagram's length, or
// 131,072 and a refusal's number.
#[unsafe(no_mangle)]
pub extern "C" fn lift_receive(
    t: &mut [u64; WORDS],
    time: u64,
    frame: &[u8],
    contexts: &[u8],
    mem: &mut [u8],
    out: &mut [u8],
) -> u32
    ensures { Answers result (table_in t.new) mem.new out.old out.new
        (received (table_in t.old) time frame.now contexts.now mem.old
        out.old) }
{
    pack(receive(t, time, frame, contexts, mem, out))
}

// How many slots are free.
#[unsafe(no_mangle)]
pub extern "C" fn lift_free(t: &[u64; WORDS]) -> usize
    ensures { result ≡ free (table_in t.now).slots }
{
    words::count_free(t)
}

// How many slots the gateway of this kind and number holds.
// (As C has them: include/lift.h.)
#[unsafe(no_mangle)]
pub extern "C" fn lift_held(t: &[u64; WORDS], kind: u64, number: u64) -> usize
    ensures { result ≡ held (gate_of (gateway_of kind number)) (table_in t.now).slots }
{
    let g = gateway_of(kind, number);
    words::count_held(t, Source::of(g.addr, g.pan))
}
