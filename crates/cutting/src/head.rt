// The compressed headers.
// `buf, at` is the lent room and a place in it, as the writers of octets take them.
ghost use Rattle.std.specs.Prelude.{◌≡◌, ◌+◌, ◌≤◌, length};
ghost use Rattle.octets.specs.Write.{put};
ghost use Rattle.cutting.specs.Head.{next_of, ip_of, udp_field, udp_bytes, udp_size, covers_of, head_bytes, head_length};
ghost use Rattle.cutting.specs.Head.{src_of, dst_of, head_of};

use super::fields::{byte_at, is_udp, long_at, word_at};
use super::link::Link;
use octets::ipv6::Ipv6Addr;
use sixlowpan::nhc::UdpNhcRepr;
use sixlowpan::{IpProtocol, NextHeader};

// What is read and measured once for a call: the addresses, the UDP header where it is compressed, and the length of
// the compressed headers.
#[derive(Clone, Copy)]
pub struct Head {
    pub src: Ipv6Addr,
    pub dst: Ipv6Addr,
    pub udp: Option<UdpNhcRepr>,
    pub len: usize,
}

#[tactic(auto, unfolding(crate::specs::Head::next_of))]
fn next_of(d: &[u8]) -> NextHeader
    ensures { result ≡ next_of d.now }
{
    if is_udp(d) {
        NextHeader::Compressed
    } else {
        NextHeader::Uncompressed(IpProtocol(byte_at(d, 6)))
    }
}

#[tactic(auto, unfolding(crate::specs::Head::ip_of))]
fn ip_of(d: &[u8], l: Link, src: Ipv6Addr, dst: Ipv6Addr) -> iphc::Repr
    requires { (src ≡ src_of d.now) × (dst ≡ dst_of d.now) }
    ensures { result ≡ ip_of l d.now }
{
    iphc::Repr {
        src_addr: src,
        ll_src_addr: Some(l.src),
        dst_addr: dst,
        ll_dst_addr: Some(l.dst),
        next_header: next_of(d),
        hop_limit: byte_at(d, 7),
        ecn: None,
        dscp: None,
        flow_label: None,
    }
}

// The UDP header, where it is compressed.
#[tactic(auto, unfolding(crate::specs::Head::udp_of))]
fn udp_of(d: &[u8]) -> Option<UdpNhcRepr>
    ensures { result ≡ udp_field d.now }
{
    if !is_udp(d) {
        return None;
    }
    Some(UdpNhcRepr {
        src_port: word_at(d, 40),
        dst_port: word_at(d, 42),
        checksum: Some(word_at(d, 46)),
    })
}

// How many bytes of the datagram the compressed headers stand for.
pub fn covers(udp: Option<UdpNhcRepr>) -> usize
    ensures { result ≡ covers_of udp }
{
    match udp {
        None => 40,
        Some(_) => 48,
    }
}

#[tactic(auto, using(crate::proofs::HeadLaws::udp_told))]
fn udp_len(udp: Option<UdpNhcRepr>) -> usize
    ensures { (result ≡ udp_size udp) × (result ≤ 7) }
{
    udp.map_or(0, |h| h.buffer_len())
}

// Reads and measures the headers.
pub fn head_of(d: &[u8], l: Link) -> Head
    ensures { result ≡ head_of l d.now }
{
    let src = Ipv6Addr {
        prefix: long_at(d, 8),
        iid: long_at(d, 16),
    };
    let dst = Ipv6Addr {
        prefix: long_at(d, 24),
        iid: long_at(d, 32),
    };
    let udp = udp_of(d);
    let ip = ip_of(d, l, src, dst);
    let len = ip.buffer_len() + udp_len(udp);
    Head { src, dst, udp, len }
}

fn put_udp(buf: &mut [u8], at: usize, udp: Option<UdpNhcRepr>)
    requires { at + udp_size udp ≤ length buf.old }
    ensures { buf.new ≡ put at (udp_bytes udp) buf.old }
{
    match udp {
        None => {}
        Some(h) => {
            let end = at + h.buffer_len();
            let _ = h.emit(&mut buf[at..end]);
        }
    }
}

// Puts the compressed headers at a place.
// That h is the datagram's is a clause: as an invariant of `Head` it would have to hold the lent datagram.
pub fn put_head(buf: &mut [u8], at: usize, d: &[u8], h: Head, l: Link)
    requires { (h ≡ head_of l d.now) × (at + head_length l d.now ≤ length buf.old) }
    ensures { buf.new ≡ put at (head_bytes l d.now) buf.old }
{
    let ip = ip_of(d, l, h.src, h.dst);
    let end = at + (h.len - udp_len(h.udp));
    let _ = ip.emit(&mut buf[at..end]);
    put_udp(buf, end, h.udp);
}
