// The auxiliary security header, which is passed over: frames are neither secured nor unsecured here.
ghost use Rattle.octets.specs.Answers.{of_skip};
ghost use Rattle.std.specs.Prelude.{◌≡◌};
ghost use Rattle.ieee802154.specs.Security.{counter_length, key_length, auxiliary_length, auxiliary};

use octets::cursor::Cursor;
use octets::refusal::Refusal;

// The security control byte: whether the frame counter is suppressed, and where the mode of the key identifier begins,
// of which there are four.
const COUNTER_SUPPRESSED: u8 = 0x20;

const KEY_MODE: u8 = 0x08;

const KEY_MODES: u8 = 4;

// The bytes of the frame counter, which the security control byte may say is suppressed.
#[tactic(auto, unfolding(crate::specs::Security::counter_length))]
fn counter_len(b: u8) -> u8
    ensures { result ≡ counter_length b }
{
    if b / COUNTER_SUPPRESSED % 2 == 1 {
        0
    } else {
        4
    }
}

// The bytes of the key identifier, by its mode.
#[tactic(auto, unfolding(crate::specs::Security::key_length))]
fn key_len(b: u8) -> u8
    ensures { result ≡ key_length b }
{
    match b / KEY_MODE % KEY_MODES {
        0 => 0,
        1 => 1,
        2 => 5,
        _ => 9,
    }
}

// How many bytes follow the security control byte.
fn auxiliary_len(b: u8) -> usize
    ensures { result ≡ auxiliary_length b }
{
    (counter_len(b) as usize) + (key_len(b) as usize)
}

// Passes over the header, where there is one.
#[tactic(auto, unfolding(crate::specs::Security::auxiliary))]
pub(crate) fn skip_auxiliary(buf: &[u8], c: Cursor, enabled: bool) -> Result<Cursor, Refusal>
    ensures { of_skip result ≡ auxiliary enabled buf.now c.at }
{
    if enabled {
        let (b, d) = c.byte(buf)?;
        d.skip(buf, auxiliary_len(b))
    } else {
        Ok(c)
    }
}
