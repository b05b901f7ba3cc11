// The parts of an answer.
// By functions and not by `Display`: the types are of other crates, and the form is this program's (tests/README.md).
use octets::refusal::Refusal;
use reassembly::{Key, Node, Outcome, Slot, Source};
use text::field::upto;
use text::out::Out;
use words::WORDS;

// What a call came to; a datagram stands at the output's start.
pub fn outcome(out: &mut Out, answer: Result<Outcome, Refusal>, datagram: &[u8]) {
    match answer {
        Ok(Outcome::Kept) => out.text(b"kept"),
        Ok(Outcome::Out(len)) => {
            out.text(b"out ");
            out.decimal(len as u64);
            out.put(b' ');
            out.bytes(upto(datagram, len));
        }
        Err(e) => out.refused(e),
    }
}

// An address, with the byte that stands before it.
// A number for the kind, 0 for no PAN, and 1 for a live slot: theorem `table-one`, each 64-bit number is one table.
fn address(out: &mut Out, before: u8, a: Node) {
    out.put(before);
    match a.kind {
        1 => {
            out.put(b's');
            out.hex(a.number, 4);
        }
        2 => {
            out.put(b'e');
            out.hex(a.number, 16);
        }
        _ => out.put(b'a'),
    }
}

// Who sends: an address, and behind an @ its PAN, where it has one.
fn source(out: &mut Out, s: Source) {
    address(out, b':', s.node);
    if s.pan != 0 {
        out.put(b'@');
        out.hex(s.pan - 1, 4);
    }
}

// A number of 16 bits.
fn word(out: &mut Out, x: u16) {
    out.put(b',');
    out.hex(x as u64, 4);
}

fn key(out: &mut Out, k: Key) {
    source(out, k.src);
    address(out, b',', k.dst);
    word(out, k.size);
    word(out, k.tag);
}

// An open slot.
fn slot(out: &mut Out, number: usize, s: Slot) {
    out.put(b' ');
    out.decimal(number as u64);
    key(out, s.key);
    out.put(b',');
    out.decimal(s.since);
}

// The open slots, in order.
pub fn slots(out: &mut Out, t: &[u64; WORDS]) {
    out.text(b" |");
    for i in 0..8 {
        let s = words::slot_at(t, i);
        if s.live == 1 {
            slot(out, i, s);
        }
    }
}
