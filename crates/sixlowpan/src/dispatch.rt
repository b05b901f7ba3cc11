// Which header a frame's payload starts with.
ghost use Rattle.octets.specs.Answers.{of_answer};
ghost use Rattle.std.specs.Prelude.{◌≡◌};
ghost use Rattle.sixlowpan.specs.Dispatch.{dispatch_of, dispatch};

use octets::cursor::Cursor;
use octets::refusal::Refusal;

#[derive(Clone, Copy, PartialEq, Eq)]
pub enum SixlowpanPacket {
    FragmentHeader,
    IphcHeader,
}

impl SixlowpanPacket {
    // The kind of header whose first byte stands at the front of the bytes.
    // (`NhcPacket` has these two too: a trait with their laws would be longer than both.)
    pub fn dispatch(buf: &[u8]) -> Result<SixlowpanPacket, Refusal>
        ensures { of_answer result ≡ dispatch buf.now 0 }
    {
        SixlowpanPacket::dispatch_at(buf, Cursor::START)
    }

    // The kind of header whose first byte stands at a place of the bytes.
    #[tactic(auto, unfolding(crate::specs::Dispatch::dispatch))]
    pub fn dispatch_at(buf: &[u8], c: Cursor) -> Result<SixlowpanPacket, Refusal>
        ensures { of_answer result ≡ dispatch buf.now c.at }
    {
        let (b, _) = c.byte(buf)?;
        SixlowpanPacket::try_from(b)
    }
}

// The kind of header that begins with a byte.
impl TryFrom<u8> for SixlowpanPacket {
    type Error = Refusal;

    ghost try_from_gives = { λ b r. of_answer r ≡ dispatch_of b };

    #[tactic(auto, unfolding(crate::specs::Dispatch::dispatch_of))]
    fn try_from(b: u8) -> Result<SixlowpanPacket, Refusal> {
        if b / 8 == 0b11000 || b / 8 == 0b11100 {
            return Ok(SixlowpanPacket::FragmentHeader);
        }
        if b / 32 == 0b011 {
            return Ok(SixlowpanPacket::IphcHeader);
        }
        Err(Refusal::NotThisHeader)
    }
}
