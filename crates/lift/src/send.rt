// What we send, for C: a frame of a datagram's cutting, and how many there are. What the frames say beside the
// datagram is a list of eight numbers (specs/Send.antt).
ghost use Rattle.octets.specs.Answers.{of_answer};
ghost use Rattle.std.specs.Prelude.{◌≡◌};
ghost use Rattle.cutting.specs.Cut.{cut_frame, cut_count, answered, written};
ghost use Rattle.lift.specs.Send.{link_of, packed_answer, InLow};

use super::{OUT, REFUSED, address_of};
use cutting::{Link, frame, frames};
use ieee802154::Pan;
use octets::cursor::at_or;
use octets::refusal::Refusal;

#[tactic(auto, unfolding(crate::specs::Send::link_of))]
fn link_of(list: &[u64]) -> Link
    ensures { result ≡ link_of list.now }
{
    let src = address_of(at_or(list, 1, 0), at_or(list, 2, 0));
    let dst = address_of(at_or(list, 3, 0), at_or(list, 4, 0));
    Link {
        pan: Pan((at_or(list, 0, 0) % 65536) as u16),
        src,
        dst,
        sequence: (at_or(list, 5, 0) % 256) as u8,
        tag: (at_or(list, 6, 0) % 65536) as u16,
        limit: at_or(list, 7, 0) as usize,
    }
}

// As `pack` of lib.rt, for an answer that has no third case: one function of both would be no plainer.
fn pack_answer(answer: Result<usize, Refusal>) -> u32
    requires { InLow (of_answer answer) }
    ensures { result ≡ packed_answer (of_answer answer) }
{
    match answer {
        Ok(n) => OUT + (n as u32),
        Err(e) => REFUSED + (e.number() as u32),
    }
}

// Writes frame k, from 0, of the cutting of the datagram into the front of the room. Answers 65,536 and the frame's
// length, or 131,072 and a refusal's number.
#[unsafe(no_mangle)]
pub extern "C" fn lift_cut(datagram: &[u8], link: &[u64], k: u16, out: &mut [u8]) -> u32
    ensures { (result ≡ packed_answer (answered (cut_frame (link_of link.now) datagram.now k)
        out.old))
        × (out.new ≡ written (cut_frame (link_of link.now) datagram.now k)
        out.old) }
{
    pack_answer(frame(datagram, link_of(link), k, out))
}

// How many frames the cutting of the datagram has. Answers 65,536 and their number, or 131,072 and a refusal's
// number.
#[unsafe(no_mangle)]
pub extern "C" fn lift_frames(datagram: &[u8], link: &[u64]) -> u32
    ensures { result ≡ packed_answer (cut_count (link_of link.now) datagram.now) }
{
    pack_answer(frames(datagram, link_of(link)))
}
