// The library for C and Rust to link (include/lift.h): the calls of crate `lift`, exported under their names. Each has
// the contract of the call behind it, and does nothing else.
// Flat lists, numbers for kinds and one number for an answer: as C has them (include/lift.h).
#![tactic(auto)]

ghost use Rattle.std.specs.Prelude.{◌≡◌};
ghost use Rattle.reassembly.specs.Slots.{free, held};
ghost use Rattle.reassembly.specs.Fresh.{gate_of};
ghost use Rattle.words.specs.Words.{table_in};
ghost use Rattle.cutting.specs.Cut.{cut_frame, cut_count, answered, written};
ghost use Rattle.lift.specs.Face.{gateway_of, list_answer, table_begun, received, Answers};
ghost use Rattle.lift.specs.Send.{link_of, packed_answer};

use words::WORDS;

// Makes a table of these gateways.
#[unsafe(no_mangle)]
pub extern "C" fn lift_begin_flat(t: &mut [u64; WORDS], gateways: &[u64]) -> u32
    ensures { (result ≡ list_answer gateways.now)
        × (table_in t.new ≡ table_begun (table_in t.old) gateways.now) }
{
    lift::lift_begin_flat(t, gateways)
}

// Hands the table a frame that comes at a time.
#[unsafe(no_mangle)]
pub extern "C" fn lift_receive(
    t: &mut [u64; WORDS],
    time: u64,
    frame: &[u8],
    contexts: &[u8],
    mem: &mut [u8],
    out: &mut [u8],
) -> u32
    ensures { Answers result (table_in t.new) mem.new out.old out.new
        (received (table_in t.old) time frame.now contexts.now mem.old
        out.old) }
{
    lift::lift_receive(t, time, frame, contexts, mem, out)
}

// How many slots are free.
#[unsafe(no_mangle)]
pub extern "C" fn lift_free(t: &[u64; WORDS]) -> usize
    ensures { result ≡ free (table_in t.now).slots }
{
    lift::lift_free(t)
}

// How many slots the gateway of this kind and number holds.
#[unsafe(no_mangle)]
pub extern "C" fn lift_held(t: &[u64; WORDS], kind: u64, number: u64) -> usize
    ensures { result ≡ held (gate_of (gateway_of kind number)) (table_in t.now).slots }
{
    lift::lift_held(t, kind, number)
}

// Writes frame k, from 0, of the cutting of the datagram into the front of the room.
#[unsafe(no_mangle)]
pub extern "C" fn lift_cut(datagram: &[u8], link: &[u64], k: u16, out: &mut [u8]) -> u32
    ensures { (result ≡ packed_answer (answered (cut_frame (link_of link.now) datagram.now k)
        out.old))
        × (out.new ≡ written (cut_frame (link_of link.now) datagram.now k)
        out.old) }
{
    lift::send::lift_cut(datagram, link, k, out)
}

// How many frames the cutting of the datagram has.
#[unsafe(no_mangle)]
pub extern "C" fn lift_frames(datagram: &[u8], link: &[u64]) -> u32
    ensures { result ≡ packed_answer (cut_count (link_of link.now) datagram.now) }
{
    lift::send::lift_frames(datagram, link)
}
