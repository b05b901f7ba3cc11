// Address contexts lent as a slice of `AddressContext`, indexed by identifier.
//
// `receive` is the public call with such a slice, and `read_header` reads a compressed IPv6 header with one. Their
// contracts are those of `receiver::receive` and `iphc::Repr::read` on the flat bytes that the slice means (`listed` of
// specs/Slice.antt: 8 each, in order). Underneath, `flatten` lays the contexts flat, one after the other.
#![tactic(auto)]

ghost use Rattle.octets.specs.Answers.{of_read};
ghost use Rattle.std.specs.Prelude.{◌≡◌};
ghost use Rattle.iphc.specs.Iphc.{iphc};
ghost use Rattle.reassembly.specs.Table.{step, Gives};
ghost use Rattle.words.specs.Words.{table_in};
ghost use Rattle.receiver.specs.Receive.{call_of};
ghost use Rattle.contexts.specs.Slice.{listed, empty, appended, with_at, laid_to, bytes_of};

use expand::copy::put_slice;
use ieee802154::Address;
use iphc::context::AddressContext;
use iphc::header::Repr;
use octets::cursor::{Cursor, Read};
use octets::refusal::Refusal;
use reassembly::Outcome;
use words::WORDS;

// Up to sixteen contexts as flat bytes, 8 each: the first `len` of `bytes`. An array with its length, since the crates
// have no heap.
#[derive(Clone, Copy)]
pub struct Flat {
    pub bytes: [u8; 128],
    pub len: usize,
}

impl Flat {
    const EMPTY: Flat = Flat {
        bytes: [0; 128],
        len: 0,
    };

    // A context's bytes go behind those laid so far, while there is room.
    #[tactic(auto, using(crate::proofs::Laws::append_put), unfolding(crate::specs::Slice::appended))]
    fn with(self, c: AddressContext) -> Flat
        ensures { result ≡ appended c.0 self }
    {
        let at = self.len;
        if at > 120 {
            return self;
        }
        let mut bytes = self.bytes;
        // By a loop: what `copy_from_slice` becomes does not compile for 32-bit Arm, where the crates are to run too.
        put_slice(&mut bytes, at, &c.0, 0, 8);
        Flat { bytes, len: at + 8 }
    }

    // The bytes that are laid.
    // (A method, as Vec has it: the bytes are lent on, so there is nothing for a `From` to make.)
    #[tactic(auto, using(crate::proofs::Laws::bytes_of_min))]
    fn as_slice(&self) -> &[u8]
        ensures { result.now ≡ bytes_of self.now }
    {
        &self.bytes[0..self.len.min(128)]
    }
}

// With context `id` of the slice, if the slice is long enough to hold it.
#[tactic(auto, unfolding(crate::specs::Slice::with_at))]
pub fn with_context(contexts: &[AddressContext], id: usize, f: Flat) -> Flat
    ensures { result ≡ with_at contexts.now id f }
{
    // By the index: an Option of a reference is not compiled right for 32-bit Arm, where the crates are to run too.
    if id < contexts.len() {
        f.with(contexts[id])
    } else {
        f
    }
}

// The slice as flat bytes.
#[tactic(auto, unfolding(crate::specs::Slice::laid_to, crate::specs::Slice::empty))]
pub fn flatten(contexts: &[AddressContext]) -> Flat
    ensures { result ≡ laid_to contexts.now 16 }
{
    let mut f = Flat::EMPTY;
    for id in 0..16 {
        f = with_context(contexts, id, f);
    }
    f
}

// A frame that comes at a time, to the table that the caller keeps in 149 numbers, with the contexts as a slice.
// (The six parameters of `receiver::receive`, but for the slice.)
#[tactic(auto, using(crate::proofs::Laws::slice_laws))]
pub fn receive(
    t: &mut [u64; WORDS],
    time: u64,
    frame: &[u8],
    contexts: &[AddressContext],
    mem: &mut [u8],
    out: &mut [u8],
) -> Result<Outcome, Refusal>
    ensures { Gives (record { answer = result; table = table_in t.new }) mem.new out.old
        out.new (step (record { table = table_in t.old; mem = mem.old })
        (call_of mem.old out.old (listed contexts.now) time
        frame.now)) }
{
    receiver::receive(t, time, frame, flatten(contexts).as_slice(), mem, out)
}

// The compressed IPv6 header that stands at a place of the bytes, with the contexts as a slice: `iphc::Repr::read`,
// whose parameters these are but for the slice.
#[tactic(auto, using(crate::proofs::Laws::slice_laws))]
pub fn read_header(
    buf: &[u8],
    c: Cursor,
    ll_src: Option<Address>,
    ll_dst: Option<Address>,
    contexts: &[AddressContext],
) -> Read<Repr>
    ensures { of_read result ≡ iphc (listed contexts.now) ll_src ll_dst buf.now c.at }
{
    Repr::read(buf, c, ll_src, ll_dst, flatten(contexts).as_slice())
}
