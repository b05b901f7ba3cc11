// Address contexts: prefixes that compressed addresses refer to by an identifier.
ghost use Rattle.octets.specs.Answers.{of_answer};
ghost use Rattle.std.specs.Prelude.{◌≡◌};
ghost use Rattle.iphc.specs.Context.{context_at};

use octets::cursor::Cursor;
use octets::refusal::Refusal;

// A prefix of 64 bits, the first byte first.
#[derive(Clone, Copy)]
pub struct AddressContext(pub [u8; 8]);

impl AddressContext {
    pub const LEN: usize = 8;
}

// The prefix of an identifier, from contexts that are lent as flat bytes, as the C interface lends them
// (include/lift.h); 5 where there is none. Crate `contexts` takes a slice of `AddressContext`.
#[tactic(auto, unfolding(crate::specs::Context::context_at))]
pub fn prefix_at(contexts: &[u8], id: u8) -> Result<u64, Refusal>
    ensures { of_answer result ≡ context_at contexts.now id }
{
    let at = (id as usize) * AddressContext::LEN;
    let (prefix, _) = (Cursor { at })
        .be64(contexts)
        .map_err(|_| Refusal::NoContext)?;
    Ok(prefix)
}
