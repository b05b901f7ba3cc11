// Compressed IPv6 headers (RFC 6282, 3).
ghost use Rattle.octets.specs.Answers.{of_read};
ghost use Rattle.std.specs.Prelude.{◌≡◌};
ghost use Rattle.iphc.specs.Iphc.{repr_of, behind, iphc};
ghost use Rattle.octets.specs.Write.{Emits};
ghost use Rattle.iphc.specs.Emit.{length_of, bytes_of};

use super::emit::{addresses_len, front_len, put_addresses, put_front};
use super::form::{dst_form, src_form};
use super::label::FlowLabel;
use super::read::{Addresses, Base, Front, LinkAddresses, read_addresses, read_base, read_front};
use ieee802154::Address;
use octets::cursor::{Cursor, Read};
use octets::ipv6::Ipv6Addr;
use octets::refusal::Refusal;
use sixlowpan::protocol::NextHeader;

// The fields of a header. The link-layer addresses decide how much of each IPv6 address is elided, so they are among
// them: `read` restores elided bits from them and `emit` elides against them.
#[derive(Clone, Copy)]
pub struct Repr {
    pub src_addr: Ipv6Addr,
    pub ll_src_addr: Option<Address>,
    pub dst_addr: Ipv6Addr,
    pub ll_dst_addr: Option<Address>,
    pub next_header: NextHeader,
    pub hop_limit: u8,
    pub ecn: Option<u8>,
    pub dscp: Option<u8>,
    pub flow_label: Option<FlowLabel>,
}

impl Repr {
    // Of three things, as `repr_of` of specs/Iphc.antt: a `From` would take them as a tuple, which is no plainer.
    #[tactic(auto, unfolding(crate::specs::Iphc::repr_of))]
    fn of(ll: LinkAddresses, f: Front, a: Addresses) -> Repr
        ensures { result ≡ repr_of ll.src ll.dst f a }
    {
        Repr {
            src_addr: a.src,
            ll_src_addr: ll.src,
            dst_addr: a.dst,
            ll_dst_addr: ll.dst,
            next_header: f.next_header,
            hop_limit: f.hop_limit,
            ecn: f.traffic.ecn,
            dscp: f.traffic.dscp,
            flow_label: f.traffic.flow_label,
        }
    }

    // The header that stands at a place of the bytes, and the place after it. The link-layer addresses are those of the
    // frame, two parameters as `iphc` of specs/Iphc.antt takes them and as `Repr` holds them, which `emit` elides
    // against; the contexts are flat bytes, 8 for each identifier.
    #[tactic(auto, unfolding(crate::specs::Iphc::iphc))]
    pub fn read(
        buf: &[u8],
        c: Cursor,
        ll_src_addr: Option<Address>,
        ll_dst_addr: Option<Address>,
        contexts: &[u8],
    ) -> Read<Repr>
        ensures { of_read result
            ≡ iphc contexts.now ll_src_addr ll_dst_addr buf.now c.at }
    {
        let (v, d) = read_base(buf, c)?;
        let ll = LinkAddresses {
            src: ll_src_addr,
            dst: ll_dst_addr,
        };
        Repr::behind(buf, d, Base::from(v), ll, contexts)
    }

    // The header that stands at the front of the bytes.
    pub fn parse(
        buf: &[u8],
        ll_src_addr: Option<Address>,
        ll_dst_addr: Option<Address>,
        contexts: &[u8],
    ) -> Read<Repr>
        ensures { of_read result ≡ iphc contexts.now ll_src_addr ll_dst_addr buf.now 0 }
    {
        Repr::read(buf, Cursor::START, ll_src_addr, ll_dst_addr, contexts)
    }

    // What follows the first two bytes.
    #[tactic(auto, unfolding(crate::specs::Iphc::behind))]
    fn behind(buf: &[u8], c: Cursor, b: Base, ll: LinkAddresses, contexts: &[u8]) -> Read<Repr>
        ensures { of_read result
            ≡ behind contexts.now ll.src ll.dst b buf.now c.at }
    {
        let (f, d) = read_front(buf, c, b)?;
        let (a, e) = read_addresses(buf, d, contexts, b, f.contexts, ll)?;
        Ok((Repr::of(ll, f, a), e))
    }

    // The length of the header that `emit` writes: at most 36 bytes.
    #[tactic(auto, unfolding(crate::specs::Emit::length_of))]
    pub fn buffer_len(self) -> usize
        ensures { result ≡ length_of self }
    {
        let src = src_form(self.src_addr, self.ll_src_addr);
        let dst = dst_form(self.dst_addr, self.ll_dst_addr);
        front_len(self.next_header, self.hop_limit) + addresses_len(src, dst)
    }

    // Writes the header into the front of the room. Traffic class and flow label are always elided.
    #[tactic(auto, using(crate::proofs::Puts::emit_puts))]
    pub fn emit(self, buf: &mut [u8]) -> Result<usize, Refusal>
        ensures { Emits result (length_of self) (bytes_of self) buf.old buf.new }
    {
        let src = src_form(self.src_addr, self.ll_src_addr);
        let dst = dst_form(self.dst_addr, self.ll_dst_addr);
        let front = front_len(self.next_header, self.hop_limit);
        let n = front + addresses_len(src, dst);
        if buf.len() < n {
            return Err(Refusal::NoRoom);
        }
        put_front(buf, self.next_header, self.hop_limit, src, dst);
        put_addresses(buf, front, src, dst);
        Ok(n)
    }
}
