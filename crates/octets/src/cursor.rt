// A reading place in a slice of bytes, handed on by value. Each step answers the field with the place after it, or the
// refusal: 1 where the bytes end first.
ghost use Rattle.std.specs.Prelude.{◌≡◌, ◌+◌, ltb, length, get_or};
ghost use Rattle.octets.specs.Read.{value_or, byte, be16, be32, be64, le16, le32, le64, skip};
ghost use Rattle.octets.specs.Answers.{of_read, of_skip};

use super::refusal::Refusal;

#[derive(Clone, Copy, PartialEq, Eq)]
pub struct Cursor {
    pub at: usize,
}

// What a read answers: the field, and the place after it.
pub type Read<T> = Result<(T, Cursor), Refusal>;

// What was read, or what stands for it where the bytes end first.
pub fn value_or<T: Copy>(read: Read<T>, past: T) -> T
    ensures { result ≡ value_or past (of_read read) }
{
    match read {
        Ok((x, _)) => x,
        Err(_) => past,
    }
}

// The value at a place, or what stands for it past the end. By the index, and not by `get`: the module that is compiled
// for controllers of 32 bits has an Option of a reference laid out for 64 (examples/cortex-m).
pub fn at_or<T: Copy>(s: &[T], at: usize, past: T) -> T
    ensures { result ≡ get_or s.now at past }
{
    if at < s.len() { s[at] } else { past }
}

// Whether fewer than eight bytes are left from a place on. A number of eight bytes is read byte by byte, and the
// compiler drops the tests of its bytes behind this one.
fn lacks_eight(s: &[u8], at: usize) -> bool
    ensures { result ≡ ltb (length s.now) (at + 8) }
{
    if s.len() < 8 {
        return true;
    }
    s.len() - 8 < at
}

impl Cursor {
    // The place before the first byte.
    pub const START: Cursor = Cursor { at: 0 };

    #[tactic(auto, unfolding(crate::specs::Read::byte))]
    pub fn byte(self, s: &[u8]) -> Read<u8>
        ensures { of_read result ≡ byte s.now self.at }
    {
        let at = self.at;
        if at < s.len() {
            Ok((s[at], Cursor { at: at + 1 }))
        } else {
            Err(Refusal::Ended)
        }
    }

    // Two bytes, the high one first. (Each width is read as two of the half width, as its definition is. One function
    // over the width would want a trait with the half's type, its factor and a law of both: longer than the six.)
    #[tactic(auto, unfolding(crate::specs::Read::be16))]
    pub fn be16(self, s: &[u8]) -> Read<u16>
        ensures { of_read result ≡ be16 s.now self.at }
    {
        let (hi, c) = self.byte(s)?;
        let (lo, d) = c.byte(s)?;
        Ok(((hi as u16) * 256 + (lo as u16), d))
    }

    // Two, four or eight bytes, the low one first.
    #[tactic(auto, unfolding(crate::specs::Read::le16))]
    pub fn le16(self, s: &[u8]) -> Read<u16>
        ensures { of_read result ≡ le16 s.now self.at }
    {
        let (lo, c) = self.byte(s)?;
        let (hi, d) = c.byte(s)?;
        Ok(((lo as u16) + (hi as u16) * 256, d))
    }

    #[tactic(auto, unfolding(crate::specs::Read::le32))]
    pub fn le32(self, s: &[u8]) -> Read<u32>
        ensures { of_read result ≡ le32 s.now self.at }
    {
        let (lo, c) = self.le16(s)?;
        let (hi, d) = c.le16(s)?;
        Ok(((lo as u32) + (hi as u32) * 0x1_0000, d))
    }

    #[tactic(auto, unfolding(crate::specs::Read::le64))]
    pub fn le64(self, s: &[u8]) -> Read<u64>
        ensures { of_read result ≡ le64 s.now self.at }
    {
        let (lo, c) = self.le32(s)?;
        let (hi, d) = c.le32(s)?;
        Ok(((lo as u64) + (hi as u64) * 0x1_0000_0000, d))
    }

    #[tactic(auto, unfolding(crate::specs::Read::be32))]
    pub fn be32(self, s: &[u8]) -> Read<u32>
        ensures { of_read result ≡ be32 s.now self.at }
    {
        let (hi, c) = self.be16(s)?;
        let (lo, d) = c.be16(s)?;
        Ok(((hi as u32) * 0x1_0000 + (lo as u32), d))
    }

    #[tactic(auto, unfolding(crate::specs::Read::be64))]
    pub fn be64(self, s: &[u8]) -> Read<u64>
        ensures { of_read result ≡ be64 s.now self.at }
    {
        if lacks_eight(s, self.at) {
            return Err(Refusal::Ended);
        }
        let (hi, c) = self.be32(s)?;
        let (lo, d) = c.be32(s)?;
        Ok(((hi as u64) * 0x1_0000_0000 + (lo as u64), d))
    }

    // Passes over n bytes.
    #[tactic(auto, unfolding(crate::specs::Read::skip))]
    pub fn skip(self, s: &[u8], n: usize) -> Result<Cursor, Refusal>
        ensures { of_skip result ≡ skip n s.now self.at }
    {
        let at = self.at;
        if s.len() < at {
            return Err(Refusal::Ended);
        }
        if n <= s.len() - at {
            Ok(Cursor { at: at + n })
        } else {
            Err(Refusal::Ended)
        }
    }
}
