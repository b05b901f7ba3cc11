// Next header compression: UDP and extension headers (RFC 6282, 4).
// `buf, at` is the lent room and a place in it, as the writers of octets take them.
ghost use Rattle.octets.specs.Answers.{of_answer, of_read};
ghost use Rattle.std.specs.Prelude.{◌≡◌, ◌≤◌, ◌<◌};
ghost use Rattle.octets.specs.Write.{Emits, put};
ghost use Rattle.sixlowpan.specs.Nhc.{nhc_of, nhc};
ghost use Rattle.sixlowpan.specs.NhcExt.{id_of, eid_of, protocol_of, ext, ext_rest, ext_first, ext_length};
ghost use Rattle.sixlowpan.specs.NhcExt.{ext_bytes};
ghost use Rattle.sixlowpan.specs.NhcUdp.{port8, port4, both_port4, form_of, port};
ghost use Rattle.sixlowpan.specs.NhcUdp.{ports, both_ports, checksum, udp, udp_rest, elided_bit, port_width, ports_width};
ghost use Rattle.sixlowpan.specs.NhcUdp.{checksum_width, port_bytes, ports_bytes, checksum_bytes, udp_first};
ghost use Rattle.sixlowpan.specs.NhcUdp.{udp_length, udp_nhc_bytes};

use super::next::{next_bit, next_len, put_next, read_next};
use super::protocol::{IpProtocol, NextHeader};
use octets::cursor::{Cursor, Read};
use octets::refusal::Refusal;
use octets::write::{put_be16, put_byte};

// The kind of compressed next header.
#[derive(Clone, Copy, PartialEq, Eq)]
pub enum NhcPacket {
    ExtHeader,
    UdpHeader,
}

impl NhcPacket {
    // The kind of header whose first byte stands at the front of the bytes.
    pub fn dispatch(buf: &[u8]) -> Result<NhcPacket, Refusal>
        ensures { of_answer result ≡ nhc buf.now 0 }
    {
        NhcPacket::dispatch_at(buf, Cursor::START)
    }

    // The kind of header whose first byte stands at a place of the bytes.
    #[tactic(auto, unfolding(crate::specs::Nhc::nhc))]
    pub fn dispatch_at(buf: &[u8], c: Cursor) -> Result<NhcPacket, Refusal>
        ensures { of_answer result ≡ nhc buf.now c.at }
    {
        let (b, _) = c.byte(buf)?;
        NhcPacket::try_from(b)
    }
}

// The kind of header that begins with a byte.
impl TryFrom<u8> for NhcPacket {
    type Error = Refusal;

    ghost try_from_gives = { λ b r. of_answer r ≡ nhc_of b };

    #[tactic(auto, unfolding(crate::specs::Nhc::nhc_of))]
    fn try_from(b: u8) -> Result<NhcPacket, Refusal> {
        if b / 16 == 0b1110 {
            return Ok(NhcPacket::ExtHeader);
        }
        if b / 8 == 0b11110 {
            return Ok(NhcPacket::UdpHeader);
        }
        Err(Refusal::NotThisHeader)
    }
}

// The IPv6 extension header that a compressed one stands for.
#[derive(Clone, Copy, PartialEq, Eq)]
pub enum ExtHeaderId {
    HopByHopHeader,
    RoutingHeader,
    FragmentHeader,
    DestinationOptionsHeader,
    MobilityHeader,
    Header,
    Reserved,
}

// What three bits of EID stand for.
impl From<u8> for ExtHeaderId {
    ghost from_gives = { λ eid id. id ≡ id_of eid };

    #[tactic(auto, unfolding(crate::specs::NhcExt::id_of))]
    fn from(eid: u8) -> ExtHeaderId {
        match eid {
            0 => ExtHeaderId::HopByHopHeader,
            1 => ExtHeaderId::RoutingHeader,
            2 => ExtHeaderId::FragmentHeader,
            3 => ExtHeaderId::DestinationOptionsHeader,
            4 => ExtHeaderId::MobilityHeader,
            5 | 6 => ExtHeaderId::Reserved,
            _ => ExtHeaderId::Header,
        }
    }
}

// The EID that is written: of the two reserved ones, 5.
impl From<ExtHeaderId> for u8 {
    ghost from_gives = { λ id eid. (eid ≡ eid_of id) × (eid < 8) };

    fn from(id: ExtHeaderId) -> u8 {
        match id {
            ExtHeaderId::HopByHopHeader => 0,
            ExtHeaderId::RoutingHeader => 1,
            ExtHeaderId::FragmentHeader => 2,
            ExtHeaderId::DestinationOptionsHeader => 3,
            ExtHeaderId::MobilityHeader => 4,
            ExtHeaderId::Reserved => 5,
            ExtHeaderId::Header => 7,
        }
    }
}

// The header's protocol number. Mobility gives 0, as the Rust does: a listed difference.
impl From<ExtHeaderId> for IpProtocol {
    ghost from_gives = { λ id p. p.0 ≡ protocol_of id };

    fn from(id: ExtHeaderId) -> IpProtocol {
        match id {
            ExtHeaderId::HopByHopHeader => IpProtocol::HOP_BY_HOP,
            ExtHeaderId::RoutingHeader => IpProtocol::IPV6_ROUTE,
            ExtHeaderId::FragmentHeader => IpProtocol::IPV6_FRAG,
            ExtHeaderId::DestinationOptionsHeader => IpProtocol::IPV6_OPTS,
            ExtHeaderId::MobilityHeader | ExtHeaderId::Header | ExtHeaderId::Reserved => IpProtocol(
                0,
            ),
        }
    }
}

#[derive(Clone, Copy, PartialEq, Eq)]
pub struct ExtHeaderRepr {
    pub ext_header_id: ExtHeaderId,
    pub next_header: NextHeader,
    // The length of the payload, in bytes.
    pub length: u8,
}

impl ExtHeaderRepr {
    // The header that stands at the front of the bytes, without its payload.
    // (One line at each header: a trait that had `parse`, with the law of `read`, would be longer than the three.)
    pub fn parse(buf: &[u8]) -> Read<ExtHeaderRepr>
        ensures { of_read result ≡ ext buf.now 0 }
    {
        ExtHeaderRepr::read(buf, Cursor::START)
    }

    // The header that stands at a place of the bytes, and the place after it.
    // (As for UDP but for the first byte: one function of both would take what follows as a closure, no shorter.)
    #[tactic(auto, unfolding(crate::specs::NhcExt::ext))]
    pub fn read(buf: &[u8], c: Cursor) -> Read<ExtHeaderRepr>
        ensures { of_read result ≡ ext buf.now c.at }
    {
        let (b, d) = c.byte(buf)?;
        if b / 16 == 0b1110 {
            ExtHeaderRepr::rest(buf, b, d)
        } else {
            Err(Refusal::NotThisHeader)
        }
    }

    // What follows the first byte.
    #[tactic(auto, unfolding(crate::specs::NhcExt::ext_rest))]
    fn rest(buf: &[u8], b: u8, c: Cursor) -> Read<ExtHeaderRepr>
        ensures { of_read result ≡ ext_rest b buf.now c.at }
    {
        let ext_header_id = ExtHeaderId::from(b / 2 % 8);
        let (next_header, d) = read_next(buf, c, b % 2)?;
        let (length, e) = d.byte(buf)?;
        Ok((
            ExtHeaderRepr {
                ext_header_id,
                next_header,
                length,
            },
            e,
        ))
    }

    // The length of the header, without its payload.
    pub fn buffer_len(self) -> usize
        ensures { result ≡ ext_length self }
    {
        1 + next_len(self.next_header) + 1
    }

    // 1110, EID and NH.
    fn first(self) -> u8
        ensures { result ≡ ext_first self }
    {
        0b1110_0000 + u8::from(self.ext_header_id) * 2 + next_bit(self.next_header)
    }

    // Writes the header into the front of the room.
    #[tactic(auto, using(crate::proofs::NhcPuts::header_puts))]
    pub fn emit(self, buf: &mut [u8]) -> Result<usize, Refusal>
        ensures { Emits result (ext_length self) (ext_bytes self) buf.old buf.new }
    {
        let n = self.buffer_len();
        if buf.len() < n {
            return Err(Refusal::NoRoom);
        }
        let next = self.next_header;
        put_byte(buf, 0, self.first());
        put_next(buf, 1, next);
        put_byte(buf, 1 + next_len(next), self.length);
        Ok(n)
    }
}

#[derive(Clone, Copy, PartialEq, Eq)]
pub struct UdpNhcRepr {
    pub src_port: u16,
    pub dst_port: u16,
    // Absent where it is elided: the receiver computes it over the whole datagram.
    pub checksum: Option<u16>,
}

#[derive(Clone, Copy, PartialEq, Eq)]
struct Ports {
    src: u16,
    dst: u16,
}

// In f000..f0ff: 8 bits carry it.
fn is_port8(x: u16) -> bool
    ensures { result ≡ port8 x }
{
    x / 256 == 0xf0
}

// In f0b0..f0bf: 4 bits carry it.
fn is_port4(x: u16) -> bool
    ensures { result ≡ port4 x }
{
    x / 16 == 0xf0b
}

// A port of 8 bits after f0, or of 16.
#[tactic(auto, unfolding(crate::specs::NhcUdp::port))]
fn read_port(buf: &[u8], short: bool, c: Cursor) -> Read<u16>
    ensures { of_read result ≡ port short buf.now c.at }
{
    if short {
        let (x, d) = c.byte(buf)?;
        Ok((0xf000 + (x as u16), d))
    } else {
        c.be16(buf)
    }
}

// A checksum: inline where the bit C is clear.
// (The bit is a number, as `checksum` of specs/NhcUdp.antt takes it.)
#[tactic(auto, unfolding(crate::specs::NhcUdp::checksum))]
fn read_checksum(buf: &[u8], elided: u8, c: Cursor) -> Read<Option<u16>>
    ensures { of_read result ≡ checksum elided buf.now c.at }
{
    if elided == 0 {
        let (x, d) = c.be16(buf)?;
        Ok((Some(x), d))
    } else {
        Ok((None, c))
    }
}

fn port_len(short: bool) -> usize
    ensures { (result ≡ port_width short) × (result ≤ 2) }
{
    if short { 1 } else { 2 }
}

// How many bytes carry the ports.
fn ports_len(p: u8) -> usize
    ensures { (result ≡ ports_width p) × (result ≤ 4) }
{
    if p == 0b11 {
        return 1;
    }
    port_len(p == 0b10) + port_len(p == 0b01)
}

#[tactic(auto, unfolding(crate::specs::NhcUdp::port_bytes))]
fn put_port(buf: &mut [u8], at: usize, short: bool, x: u16)
    ensures { buf.new ≡ put at (port_bytes short x) buf.old }
{
    if short {
        put_byte(buf, at, (x % 256) as u8);
    } else {
        put_be16(buf, at, x);
    }
}

impl Ports {
    fn are_port4(self) -> bool
        ensures { result ≡ both_port4 self.src self.dst }
    {
        is_port4(self.src) && is_port4(self.dst)
    }

    // The bits P that they are written with.
    // A number and no enum: `form_of` and `ports` of specs/NhcUdp.antt take the two bits so.
    #[tactic(auto, unfolding(crate::specs::NhcUdp::form_of))]
    fn form(self) -> u8
        ensures { (result ≡ form_of self.src self.dst) × (result < 4) }
    {
        if self.are_port4() {
            return 0b11;
        }
        if is_port8(self.src) {
            return 0b10;
        }
        if is_port8(self.dst) {
            return 0b01;
        }
        0b00
    }

    // Both, by the bits P.
    #[tactic(auto, unfolding(crate::specs::NhcUdp::ports))]
    fn read(buf: &[u8], p: u8, c: Cursor) -> Read<Ports>
        ensures { of_read result ≡ ports p buf.now c.at }
    {
        if p == 0b11 {
            return Ports::read_both(buf, c);
        }
        let (src, d) = read_port(buf, p == 0b10, c)?;
        let (dst, e) = read_port(buf, p == 0b01, d)?;
        Ok((Ports { src, dst }, e))
    }

    // Both in one byte, 4 bits each after f0b.
    #[tactic(auto, unfolding(crate::specs::NhcUdp::both_ports))]
    fn read_both(buf: &[u8], c: Cursor) -> Read<Ports>
        ensures { of_read result ≡ both_ports buf.now c.at }
    {
        let (x, d) = c.byte(buf)?;
        Ok((
            Ports {
                src: 0xf0b0 + (x / 16) as u16,
                dst: 0xf0b0 + (x % 16) as u16,
            },
            d,
        ))
    }

    // Puts them after the first byte, by the bits P.
    #[tactic(auto, using(crate::proofs::NhcPuts::field_puts), unfolding(crate::specs::NhcUdp::ports_bytes))]
    fn put(self, buf: &mut [u8], p: u8)
        ensures { buf.new ≡ put 1 (ports_bytes p self.src self.dst) buf.old }
    {
        if p == 0b11 {
            put_byte(buf, 1, (self.src % 16 * 16 + self.dst % 16) as u8);
            return;
        }
        put_port(buf, 1, p == 0b10, self.src);
        put_port(buf, 1 + port_len(p == 0b10), p == 0b01, self.dst);
    }
}

// The bit C.
fn checksum_bit(sum: Option<u16>) -> u8
    ensures { (result ≡ elided_bit sum) × (result ≤ 1) }
{
    match sum {
        None => 1,
        Some(_) => 0,
    }
}

// How many bytes carry the checksum.
fn checksum_len(sum: Option<u16>) -> usize
    ensures { (result ≡ checksum_width (elided_bit sum)) × (result ≤ 2) }
{
    match sum {
        None => 0,
        Some(_) => 2,
    }
}

#[tactic(auto, unfolding(octets::specs::Write::put))]
fn put_checksum(buf: &mut [u8], at: usize, sum: Option<u16>)
    ensures { buf.new ≡ put at (checksum_bytes sum) buf.old }
{
    if let Some(x) = sum {
        put_be16(buf, at, x);
    }
}

impl UdpNhcRepr {
    // The header that stands at the front of the bytes, without its payload.
    pub fn parse(buf: &[u8]) -> Read<UdpNhcRepr>
        ensures { of_read result ≡ udp buf.now 0 }
    {
        UdpNhcRepr::read(buf, Cursor::START)
    }

    // The header that stands at a place of the bytes, and the place after it.
    // (As for extension headers: the reason why not one function stands there.)
    #[tactic(auto, unfolding(crate::specs::NhcUdp::udp))]
    pub fn read(buf: &[u8], c: Cursor) -> Read<UdpNhcRepr>
        ensures { of_read result ≡ udp buf.now c.at }
    {
        let (b, d) = c.byte(buf)?;
        if b / 8 == 0b11110 {
            UdpNhcRepr::rest(buf, b, d)
        } else {
            Err(Refusal::NotThisHeader)
        }
    }

    // What follows the first byte.
    #[tactic(auto, unfolding(crate::specs::NhcUdp::udp_rest))]
    fn rest(buf: &[u8], b: u8, c: Cursor) -> Read<UdpNhcRepr>
        ensures { of_read result ≡ udp_rest b buf.now c.at }
    {
        let (ports, d) = Ports::read(buf, b % 4, c)?;
        let (checksum, e) = read_checksum(buf, b / 4 % 2, d)?;
        Ok((
            UdpNhcRepr {
                src_port: ports.src,
                dst_port: ports.dst,
                checksum,
            },
            e,
        ))
    }

    fn ports(self) -> Ports
        ensures { (result.src ≡ self.src_port) × (result.dst ≡ self.dst_port) }
    {
        Ports {
            src: self.src_port,
            dst: self.dst_port,
        }
    }

    // The length of the header, without its payload.
    pub fn buffer_len(self) -> usize
        ensures { result ≡ udp_length self }
    {
        1 + ports_len(self.ports().form()) + checksum_len(self.checksum)
    }

    // 11110, C and P.
    fn first(self) -> u8
        ensures { result ≡ udp_first self }
    {
        0b1111_0000 + checksum_bit(self.checksum) * 4 + self.ports().form()
    }

    // Writes the header into the front of the room.
    #[tactic(auto, using(crate::proofs::NhcPuts::header_puts))]
    pub fn emit(self, buf: &mut [u8]) -> Result<usize, Refusal>
        ensures { Emits result (udp_length self) (udp_nhc_bytes self) buf.old buf.new }
    {
        let n = self.buffer_len();
        if buf.len() < n {
            return Err(Refusal::NoRoom);
        }
        let ports = self.ports();
        let p = ports.form();
        put_byte(buf, 0, self.first());
        ports.put(buf, p);
        put_checksum(buf, 1 + ports_len(p), self.checksum);
        Ok(n)
    }
}
