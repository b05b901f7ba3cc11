// Output that waits in a room until it is written.
ghost use Rattle.std.specs.Prelude.{◌≡◌, ◌≤◌, ◌+◌, ℕ, List, [], ◌∷◌, length, take, OnOk};
ghost use Rattle.std.specs.Io.KnownBytes.{Appends};
ghost use Rattle.octets.specs.Refusal.{number_of};
ghost use Rattle.text.specs.Text.{hex_bytes};
ghost use Rattle.text.specs.Waiting.{with_text, WithDecimal, hex_or_dash, Passes, Grows};
ghost use Rattle.io.specs.Digits.{last_digits};

use super::{field, print};
use octets::refusal::Refusal;
use std::io;
use std::io::Write;
use std::marker::Model;

// As much as a write takes well: one of few bytes costs as much as one of many.
const ROOM: usize = 65536;

// The answers that wait, at the front of the room. What does not fit is left out whole, as in `print`.
// No heap: a room of a fixed size and how much of it is taken.
#[derive(Drop)]
pub struct Out {
    room: [u8; ROOM],
    len: usize,
}

// The bytes that wait.
impl Model for Out {
    ghost Value = { List ℕ };

    ghost view = { λ o. take o.len o.room };

    ghost invariant = { λ o. o.len ≤ 65536 };
}

// The methods stand beside the functions of `print`, which are public and put a text at any place of a lent room.
impl Out {
    pub fn new() -> Out
        ensures { result ≡ [] }
    {
        Out {
            room: [0; ROOM],
            len: 0,
        }
    }

    #[tactic(auto, using(crate::proofs::Waiting::waits, crate::proofs::Waiting::waits_within))]
    pub fn put(&mut self, b: u8)
        ensures { self.new ≡ with_text self.old (b ∷ []) }
    {
        self.len = print::put(&mut self.room, self.len, b);
    }

    #[tactic(auto, using(crate::proofs::Waiting::waits, crate::proofs::Waiting::waits_within))]
    pub fn text(&mut self, s: &[u8])
        ensures { self.new ≡ with_text self.old s.now }
    {
        self.len = print::text(&mut self.room, self.len, s);
    }

    // The last n hexadecimal digits of a number.
    #[tactic(auto, using(crate::proofs::Waiting::waits, crate::proofs::Waiting::waits_within))]
    pub fn hex(&mut self, x: u64, n: usize)
        ensures { self.new ≡ with_text self.old (last_digits 16 n x) }
    {
        self.len = print::hex(&mut self.room, self.len, x, n);
    }

    // Two hexadecimal digits for each byte.
    #[tactic(auto, using(crate::proofs::Waiting::waits, crate::proofs::Waiting::waits_within))]
    pub fn bytes(&mut self, s: &[u8])
        ensures { self.new ≡ with_text self.old (hex_bytes s.now) }
    {
        self.len = print::bytes(&mut self.room, self.len, s);
    }

    #[tactic(auto, using(crate::proofs::Waiting::waits, crate::proofs::Waiting::waits_within))]
    pub fn decimal(&mut self, x: u64)
        ensures { WithDecimal x self.old self.new }
    {
        self.len = print::decimal(&mut self.room, self.len, x);
    }

    // Forgets what waits.
    pub(crate) fn clear(&mut self)
        ensures { self.new ≡ [] }
    {
        self.len = 0;
    }

    // Writes out what waits.
    pub fn flush<W: Write>(&mut self, writer: &mut W) -> io::Result<()>
        ensures written { OnOk result (Appends (W.contents writer.old) (W.contents writer.new) self.old) }
        ensures emptied { OnOk result (self.new ≡ []) }
    {
        writer.write_all(field::upto(&self.room, self.len))?;
        self.clear();
        Ok(())
    }

    // Writes out what waits unless so many bytes fit behind it.
    #[tactic(auto, using(crate::proofs::Waiting::grows_same))]
    pub fn make_room<W: Write>(&mut self, writer: &mut W, more: usize) -> io::Result<()>
        ensures passed { OnOk result (Passes (W.contents writer.old) self.old (W.contents writer.new) self.new) }
        ensures grows { OnOk result (Grows (W.contents writer.old) (W.contents writer.new)) }
        ensures room { OnOk result (more ≤ 65536 → length self.new + more ≤ 65536) }
    {
        if ROOM - self.len < more {
            return self.flush(writer);
        }
        Ok(())
    }

    // The bytes in hexadecimal, '-' for none.
    pub fn bytes_or_dash(&mut self, s: &[u8])
        ensures { self.new ≡ with_text self.old (hex_or_dash s.now) }
    {
        if s.is_empty() {
            self.put(b'-');
        } else {
            self.bytes(s);
        }
    }

    // `no` and the number of a refusal.
    pub fn refused(&mut self, e: Refusal)
        ensures { WithDecimal (number_of e) (with_text self.old (110 ∷ 111 ∷ 32 ∷ [])) self.new }
    {
        self.text(b"no ");
        self.decimal(e.number() as u64);
    }
}
