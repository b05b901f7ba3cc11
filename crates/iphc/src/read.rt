// The reader of compressed IPv6 headers, field by field in the order of RFC 6282, 3.
// Readers take the lent bytes and a reading place, which is handed on by value (a rule of the project).
// Contexts and link-layer addresses go on beside them, as the definitions of specs/Iphc.antt take them.
ghost use Rattle.octets.specs.Answers.{of_answer, of_read};
ghost use Rattle.std.specs.Prelude.{◌≡◌};
ghost use Rattle.iphc.specs.Iphc.{base_of, base, contexts, labelled, class_and_label, ecn_and_label, class_only};
ghost use Rattle.iphc.specs.Iphc.{traffic};
ghost use Rattle.iphc.specs.Iphc.{hop_limit, front_rest, front, link_iid, identifier, prefix_of, full};
ghost use Rattle.iphc.specs.Iphc.{source, group48, group32, group8, multicast, destination, addresses};

use super::context::prefix_at;
use super::label::FlowLabel;
use ieee802154::addr::Address;
use octets::cursor::{Cursor, Read};
use octets::ipv6::Ipv6Addr;
use octets::refusal::Refusal;
use sixlowpan::next::read_next;
use sixlowpan::protocol::NextHeader;

// The fields of the first two bytes. They stay numbers: the tables of specs/Modes.antt and the widths speak of the
// bits, and an enum for each would be read and written through the same numbers.
#[derive(Clone, Copy)]
pub struct Base {
    pub tf: u8,
    pub nh: u8,
    pub hlim: u8,
    pub cid: u8,
    pub sac: u8,
    pub sam: u8,
    pub m: u8,
    pub dac: u8,
    pub dam: u8,
}

// The context identifiers of the two addresses.
#[derive(Clone, Copy)]
pub struct Contexts {
    pub src: u8,
    pub dst: u8,
}

// The link-layer addresses of the frame.
#[derive(Clone, Copy)]
pub struct LinkAddresses {
    pub src: Option<Address>,
    pub dst: Option<Address>,
}

// Traffic class and flow label.
#[derive(Clone, Copy)]
pub struct Traffic {
    pub ecn: Option<u8>,
    pub dscp: Option<u8>,
    pub flow_label: Option<FlowLabel>,
}

// What stands before the addresses.
#[derive(Clone, Copy)]
pub struct Front {
    pub contexts: Contexts,
    pub traffic: Traffic,
    pub next_header: NextHeader,
    pub hop_limit: u8,
}

#[derive(Clone, Copy)]
pub struct Addresses {
    pub src: Ipv6Addr,
    pub dst: Ipv6Addr,
}

impl From<u16> for Base {
    ghost from_gives = { λ v b. b ≡ base_of v };

    fn from(v: u16) -> Base {
        Base {
            tf: (v / 2048 % 4) as u8,
            nh: (v / 1024 % 2) as u8,
            hlim: (v / 256 % 4) as u8,
            cid: (v / 128 % 2) as u8,
            sac: (v / 64 % 2) as u8,
            sam: (v / 16 % 4) as u8,
            m: (v / 8 % 2) as u8,
            dac: (v / 4 % 2) as u8,
            dam: (v % 4) as u8,
        }
    }
}

#[tactic(auto, unfolding(crate::specs::Iphc::base))]
pub fn read_base(buf: &[u8], c: Cursor) -> Read<u16>
    ensures { of_read result ≡ base buf.now c.at }
{
    let (v, d) = c.be16(buf)?;
    if v / 8192 == 0b011 {
        Ok((v, d))
    } else {
        Err(Refusal::NotThisHeader)
    }
}

#[tactic(auto, unfolding(crate::specs::Iphc::contexts))]
fn read_contexts(buf: &[u8], c: Cursor, cid: u8) -> Read<Contexts>
    ensures { of_read result ≡ contexts cid buf.now c.at }
{
    if cid == 0 {
        return Ok((Contexts { src: 0, dst: 0 }, c));
    }
    let (b, d) = c.byte(buf)?;
    Ok((
        Contexts {
            src: b / 16,
            dst: b % 16,
        },
        d,
    ))
}

// The flow label, whose top four bits ended the byte before, and what was read before it.
#[tactic(auto, unfolding(crate::specs::Iphc::labelled))]
fn read_label(buf: &[u8], c: Cursor, high: u8, ecn: Option<u8>, dscp: Option<u8>) -> Read<Traffic>
    ensures { of_read result ≡ labelled high ecn dscp buf.now c.at }
{
    let (low, d) = c.be16(buf)?;
    Ok((
        Traffic {
            ecn,
            dscp,
            flow_label: Some(FlowLabel((high % 16) as u32 * 0x1_0000 + (low as u32))),
        },
        d,
    ))
}

// Traffic class and flow label: TF = 00.
#[tactic(auto, unfolding(crate::specs::Iphc::class_and_label))]
fn read_class_and_label(buf: &[u8], c: Cursor) -> Read<Traffic>
    ensures { of_read result ≡ class_and_label buf.now c.at }
{
    let (b, d) = c.byte(buf)?;
    let (high, e) = d.byte(buf)?;
    read_label(buf, e, high, Some(b / 64 * 64), Some(b % 64))
}

// ECN and flow label: TF = 01.
#[tactic(auto, unfolding(crate::specs::Iphc::ecn_and_label))]
fn read_ecn_and_label(buf: &[u8], c: Cursor) -> Read<Traffic>
    ensures { of_read result ≡ ecn_and_label buf.now c.at }
{
    let (b, d) = c.byte(buf)?;
    read_label(buf, d, b, Some(b / 64 * 64), None)
}

// Traffic class: TF = 10.
#[tactic(auto, unfolding(crate::specs::Iphc::class_only))]
fn read_class(buf: &[u8], c: Cursor) -> Read<Traffic>
    ensures { of_read result ≡ class_only buf.now c.at }
{
    let (b, d) = c.byte(buf)?;
    Ok((
        Traffic {
            ecn: Some(b / 64 * 64),
            dscp: Some(b % 64),
            flow_label: None,
        },
        d,
    ))
}

#[tactic(auto, unfolding(crate::specs::Iphc::traffic))]
fn read_traffic(buf: &[u8], c: Cursor, tf: u8) -> Read<Traffic>
    ensures { of_read result ≡ traffic tf buf.now c.at }
{
    match tf {
        0b00 => read_class_and_label(buf, c),
        0b01 => read_ecn_and_label(buf, c),
        0b10 => read_class(buf, c),
        _ => Ok((
            Traffic {
                ecn: None,
                dscp: None,
                flow_label: None,
            },
            c,
        )),
    }
}

#[tactic(auto, unfolding(crate::specs::Iphc::hop_limit))]
fn read_hop_limit(buf: &[u8], c: Cursor, hlim: u8) -> Read<u8>
    ensures { of_read result ≡ hop_limit hlim buf.now c.at }
{
    match hlim {
        0b00 => c.byte(buf),
        0b01 => Ok((1, c)),
        0b10 => Ok((64, c)),
        _ => Ok((255, c)),
    }
}

#[tactic(auto, unfolding(crate::specs::Iphc::front_rest))]
fn front_rest(buf: &[u8], c: Cursor, b: Base, contexts: Contexts, traffic: Traffic) -> Read<Front>
    ensures { of_read result ≡ front_rest b contexts traffic buf.now c.at }
{
    let (next_header, d) = read_next(buf, c, b.nh)?;
    let (hop_limit, e) = read_hop_limit(buf, d, b.hlim)?;
    Ok((
        Front {
            contexts,
            traffic,
            next_header,
            hop_limit,
        },
        e,
    ))
}

// What stands before the addresses.
#[tactic(auto, unfolding(crate::specs::Iphc::front))]
pub fn read_front(buf: &[u8], c: Cursor, b: Base) -> Read<Front>
    ensures { of_read result ≡ front b buf.now c.at }
{
    let (contexts, d) = read_contexts(buf, c, b.cid)?;
    let (traffic, e) = read_traffic(buf, d, b.tf)?;
    front_rest(buf, e, b, contexts, traffic)
}

// Of the identifier 0000:00ff:fe00:XXXX, the part before XXXX.
const SHORT_IID: u64 = 0xff_fe00_0000;

// The identifier that an elided address takes from the link-layer address (RFC 6282, 3.2.2).
fn link_iid(ll: Option<Address>) -> Result<u64, Refusal>
    ensures { of_answer result ≡ link_iid ll }
{
    match ll.ok_or(Refusal::NoAddress)? {
        Address::Absent => Err(Refusal::NoAddress),
        Address::Short(x) => Ok(SHORT_IID + (x as u64)),
        Address::Extended(x) => Address::Extended(x).as_eui_64().ok_or(Refusal::NoAddress),
    }
}

// The identifier of an address whose prefix is elided.
#[tactic(auto, unfolding(crate::specs::Iphc::identifier))]
fn read_identifier(buf: &[u8], c: Cursor, mode: u8, ll: Option<Address>) -> Read<u64>
    ensures { of_read result ≡ identifier mode ll buf.now c.at }
{
    match mode {
        0b01 => c.be64(buf),
        0b10 => {
            let (x, d) = c.be16(buf)?;
            Ok((SHORT_IID + (x as u64), d))
        }
        _ => Ok((link_iid(ll)?, c)),
    }
}

// All 128 bits of an address.
#[tactic(auto, unfolding(crate::specs::Iphc::full))]
fn read_full(buf: &[u8], c: Cursor) -> Read<Ipv6Addr>
    ensures { of_read result ≡ full buf.now c.at }
{
    let (prefix, d) = c.be64(buf)?;
    let (iid, e) = d.be64(buf)?;
    Ok((Ipv6Addr { prefix, iid }, e))
}

// The prefix fe80::/64, or that of a context.
#[tactic(auto, unfolding(crate::specs::Iphc::prefix_of))]
fn prefix_of(contexts: &[u8], ac: u8, id: u8) -> Result<u64, Refusal>
    ensures { of_answer result ≡ prefix_of contexts.now ac id }
{
    if ac == 0 {
        Ok(Ipv6Addr::LINK_LOCAL)
    } else {
        prefix_at(contexts, id)
    }
}

// (Identifier and link-layer address are those of one side, here and below: so they come apart, not as the pairs.)
#[tactic(auto, unfolding(crate::specs::Iphc::source, crate::specs::Iphc::elided))]
fn read_source(
    buf: &[u8],
    c: Cursor,
    contexts: &[u8],
    b: Base,
    id: u8,
    ll: Option<Address>,
) -> Read<Ipv6Addr>
    ensures { of_read result
        ≡ source contexts.now b.sac b.sam id ll buf.now c.at }
{
    if b.sam == 0b00 {
        if b.sac == 0 {
            return read_full(buf, c);
        }
        return Ok((Ipv6Addr::UNSPECIFIED, c));
    }
    let (iid, d) = read_identifier(buf, c, b.sam, ll)?;
    let prefix = prefix_of(contexts, b.sac, id)?;
    Ok((Ipv6Addr { prefix, iid }, d))
}

// A group ffXX::00XX:XXXX:XXXX.
#[tactic(auto, unfolding(crate::specs::Iphc::group48))]
fn read_group48(buf: &[u8], c: Cursor) -> Read<Ipv6Addr>
    ensures { of_read result ≡ group48 buf.now c.at }
{
    let (x, d) = c.be16(buf)?;
    let (y, e) = d.be32(buf)?;
    Ok((
        Ipv6Addr {
            prefix: (0xff00 + (x / 256) as u64) * 0x1_0000_0000_0000,
            iid: (x % 256) as u64 * 0x1_0000_0000 + (y as u64),
        },
        e,
    ))
}

// A group ffXX::00XX:XXXX.
#[tactic(auto, unfolding(crate::specs::Iphc::group32))]
fn read_group32(buf: &[u8], c: Cursor) -> Read<Ipv6Addr>
    ensures { of_read result ≡ group32 buf.now c.at }
{
    let (x, d) = c.be32(buf)?;
    Ok((
        Ipv6Addr {
            prefix: (0xff00 + (x / 0x100_0000) as u64) * 0x1_0000_0000_0000,
            iid: (x % 0x100_0000) as u64,
        },
        d,
    ))
}

// A group ff02::00XX.
#[tactic(auto, unfolding(crate::specs::Iphc::group8))]
fn read_group8(buf: &[u8], c: Cursor) -> Read<Ipv6Addr>
    ensures { of_read result ≡ group8 buf.now c.at }
{
    let (x, d) = c.byte(buf)?;
    Ok((
        Ipv6Addr {
            prefix: 0xff02_0000_0000_0000,
            iid: x as u64,
        },
        d,
    ))
}

#[tactic(auto, unfolding(crate::specs::Iphc::multicast))]
fn read_multicast(buf: &[u8], c: Cursor, dam: u8) -> Read<Ipv6Addr>
    ensures { of_read result ≡ multicast dam buf.now c.at }
{
    match dam {
        0b00 => read_full(buf, c),
        0b01 => read_group48(buf, c),
        0b10 => read_group32(buf, c),
        _ => read_group8(buf, c),
    }
}

#[tactic(auto, unfolding(crate::specs::Iphc::destination, crate::specs::Iphc::elided))]
fn read_destination(
    buf: &[u8],
    c: Cursor,
    contexts: &[u8],
    b: Base,
    id: u8,
    ll: Option<Address>,
) -> Read<Ipv6Addr>
    ensures { of_read result
        ≡ destination contexts.now b.m b.dac b.dam id ll buf.now c.at }
{
    let dam = b.dam;
    if b.m == 0 {
        if dam == 0b00 {
            if b.dac == 0 {
                return read_full(buf, c);
            }
            return Err(Refusal::Unsupported);
        }
        let (iid, d) = read_identifier(buf, c, dam, ll)?;
        let prefix = prefix_of(contexts, b.dac, id)?;
        return Ok((Ipv6Addr { prefix, iid }, d));
    }
    if b.dac == 0 {
        return read_multicast(buf, c, dam);
    }
    Err(Refusal::Unsupported)
}

#[tactic(auto, unfolding(crate::specs::Iphc::addresses))]
pub fn read_addresses(
    buf: &[u8],
    c: Cursor,
    contexts: &[u8],
    b: Base,
    ids: Contexts,
    ll: LinkAddresses,
) -> Read<Addresses>
    ensures { of_read result
        ≡ addresses contexts.now b ids ll.src ll.dst buf.now c.at }
{
    let (src, d) = read_source(buf, c, contexts, b, ids.src, ll.src)?;
    let (dst, e) = read_destination(buf, d, contexts, b, ids.dst, ll.dst)?;
    Ok((Addresses { src, dst }, e))
}
