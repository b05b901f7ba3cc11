// Fragment headers (RFC 4944, 5.3).
ghost use Rattle.octets.specs.Answers.{of_answer, of_read};
ghost use Rattle.std.specs.Prelude.{◌≡◌, ◌*◌};
ghost use Rattle.octets.specs.Write.{Emits};
ghost use Rattle.sixlowpan.specs.Key.{key_of};
ghost use Rattle.sixlowpan.specs.Frag.{frag, frag_rest, size_of, tag_of, offset_of, is_first, length_of};
ghost use Rattle.sixlowpan.specs.Frag.{bytes_of};

use ieee802154::Address;
use octets::cursor::{Cursor, Read};
use octets::refusal::Refusal;
use octets::write::{put_be16, put_byte};

// One past the largest size that a header holds: eleven bits.
const SIZES: u16 = 2048;

pub const FIRST_FRAGMENT_HEADER_SIZE: usize = 4;

pub const NEXT_FRAGMENT_HEADER_SIZE: usize = 5;

// A number of units of 8 octets, as the offset of a part is given. `bytes` makes it a number of bytes.
#[derive(Clone, Copy, PartialEq, Eq)]
pub struct Units(pub u8);

impl Units {
    pub const SIZE: usize = 8;

    pub fn bytes(self) -> usize
        ensures { result ≡ self.0 * 8 }
    {
        (self.0 as usize) * 8
    }
}

#[derive(Clone, Copy, PartialEq, Eq)]
pub enum Repr {
    // The first part of a datagram.
    FirstFragment { size: u16, tag: u16 },
    // Any other part.
    Fragment { size: u16, tag: u16, offset: Units },
}

// What tells the parts of one datagram from those of another.
#[derive(Clone, Copy, PartialEq, Eq)]
pub struct Key {
    pub ll_src_addr: Address,
    pub ll_dst_addr: Address,
    pub datagram_size: u16,
    pub datagram_tag: u16,
}

impl Repr {
    // The header that stands at the front of the bytes.
    pub fn parse(buf: &[u8]) -> Read<Repr>
        ensures { of_read result ≡ frag buf.now 0 }
    {
        Repr::read(buf, Cursor::START)
    }

    // The header that stands at a place of the bytes, and the place after it.
    #[tactic(auto, unfolding(crate::specs::Frag::frag))]
    pub fn read(buf: &[u8], c: Cursor) -> Read<Repr>
        ensures { of_read result ≡ frag buf.now c.at }
    {
        let (word, d) = c.be16(buf)?;
        let (tag, e) = d.be16(buf)?;
        Repr::rest(buf, word, tag, e)
    }

    // What follows the first word and the tag.
    #[tactic(auto, unfolding(crate::specs::Frag::frag_rest))]
    fn rest(buf: &[u8], word: u16, tag: u16, c: Cursor) -> Read<Repr>
        ensures { of_read result ≡ frag_rest word tag buf.now c.at }
    {
        let size = word % SIZES;
        let dispatch = word / SIZES;
        if dispatch == 0b11000 {
            return Ok((Repr::FirstFragment { size, tag }, c));
        }
        if dispatch == 0b11100 {
            let (o, d) = c.byte(buf)?;
            Ok((
                Repr::Fragment {
                    size,
                    tag,
                    offset: Units(o),
                },
                d,
            ))
        } else {
            Err(Refusal::NotThisHeader)
        }
    }

    pub fn size(self) -> u16
        ensures { result ≡ size_of self }
    {
        match self {
            Repr::FirstFragment { size, .. } | Repr::Fragment { size, .. } => size,
        }
    }

    pub fn tag(self) -> u16
        ensures { result ≡ tag_of self }
    {
        match self {
            Repr::FirstFragment { tag, .. } | Repr::Fragment { tag, .. } => tag,
        }
    }

    // Zero for a first part.
    pub fn offset(self) -> Units
        ensures { result ≡ offset_of self }
    {
        match self {
            Repr::FirstFragment { .. } => Units(0),
            Repr::Fragment { offset, .. } => offset,
        }
    }

    pub fn is_first_fragment(self) -> bool
        ensures { result ≡ is_first self }
    {
        matches!(self, Repr::FirstFragment { .. })
    }

    pub fn buffer_len(self) -> usize
        ensures { result ≡ length_of self }
    {
        match self {
            Repr::FirstFragment { .. } => FIRST_FRAGMENT_HEADER_SIZE,
            Repr::Fragment { .. } => NEXT_FRAGMENT_HEADER_SIZE,
        }
    }

    // Writes the header into the front of the room, its size masked to 11 bits.
    #[tactic(auto, using(crate::proofs::FragPuts::frag_puts))]
    pub fn emit(self, buf: &mut [u8]) -> Result<usize, Refusal>
        ensures { Emits result (length_of self) (bytes_of self) buf.old buf.new }
    {
        let n = self.buffer_len();
        if buf.len() < n {
            return Err(Refusal::NoRoom);
        }
        match self {
            Repr::FirstFragment { size, tag } => {
                put_be16(buf, 0, 0xc000 + size % SIZES);
                put_be16(buf, 2, tag);
                Ok(n)
            }
            Repr::Fragment { size, tag, offset } => {
                put_be16(buf, 0, 0xe000 + size % SIZES);
                put_be16(buf, 2, tag);
                put_byte(buf, 4, offset.0);
                Ok(n)
            }
        }
    }

    // The key of the datagram that the part belongs to. A header without addressing has none.
    #[tactic(auto, unfolding(crate::specs::Key::key_of))]
    pub fn key(self, mac: ieee802154::Repr) -> Result<Key, Refusal>
        ensures { of_answer result ≡ key_of self mac }
    {
        let ll_src_addr = mac.src_addr.ok_or(Refusal::NoAddress)?;
        let ll_dst_addr = mac.dst_addr.ok_or(Refusal::NoAddress)?;
        Ok(Key {
            ll_src_addr,
            ll_dst_addr,
            datagram_size: self.size(),
            datagram_tag: self.tag(),
        })
    }
}
