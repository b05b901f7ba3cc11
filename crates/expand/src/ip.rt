// The headers in full, put into lent bytes.
ghost use Rattle.std.specs.Prelude.{◌≡◌, ◌<◌, ◌≤◌, ◌+◌, ◌-◌, length, take, drop};
ghost use Rattle.octets.specs.Write.{put};
ghost use Rattle.expand.specs.Full.{byte_or, word_or, label_or, first_word, both_bytes, kept_front, kept_full};
ghost use Rattle.expand.specs.Full.{udp_full};
ghost use Rattle.expand.specs.Chain.{pad, full_size, ext_full};

use super::copy::put_slice;
use iphc::{FlowLabel, Repr};
use octets::cursor::Cursor;
use octets::ipv6::Ipv6Addr;
use octets::write::{put_be16, put_be32, put_be64, put_byte};
use sixlowpan::NextHeader;
use sixlowpan::nhc::UdpNhcRepr;

// What is kept of an IPv6 header: what is written of it, but for its payload length; its next header field, and the
// place behind it.
#[derive(Clone, Copy)]
pub struct Kept {
    pub src: Ipv6Addr,
    pub dst: Ipv6Addr,
    pub first: u32,
    pub number: u8,
    pub hops: u8,
    pub next: NextHeader,
    pub behind: Cursor,
}

// An absent field is 0: three functions, as specs/Full has them, for two widths and a label.
fn byte_or(f: Option<u8>) -> u32
    ensures { (result ≡ byte_or f) × (result < 256) }
{
    f.unwrap_or(0) as u32
}

fn word_or(f: Option<u16>) -> u16
    ensures { result ≡ word_or f }
{
    f.unwrap_or(0)
}

fn label_or(f: Option<FlowLabel>) -> u32
    ensures { result ≡ label_or f }
{
    f.map_or(0, |l| l.0)
}

// Version, traffic class and flow label.
pub(crate) fn first_word(ip: Repr) -> u32
    ensures { result ≡ first_word ip }
{
    let ecn = ip.ecn;
    let dscp = ip.dscp;
    let label = ip.flow_label;
    let class = byte_or(dscp) * 4 + byte_or(ecn) / 64;
    0x6000_0000 + class * 0x10_0000 + label_or(label) % 0x10_0000
}

// What stands before the addresses. A room and a place in it, as the writers of octets have them.
#[tactic(auto, unfolding(crate::specs::Full::kept_front), using(octets::proofs::Puts::puts))]
fn put_front(buf: &mut [u8], at: usize, ip: Kept, payload: u16)
    requires { at ≤ 65535 }
    ensures { buf.new ≡ put at (kept_front ip payload) buf.old }
{
    put_be32(buf, at, ip.first);
    put_be16(buf, at + 4, payload);
    put_byte(buf, at + 6, ip.number);
    put_byte(buf, at + 7, ip.hops);
}

// The bound on a place, here and below, is that of an index: places behind it are added.
#[tactic(auto, unfolding(crate::specs::Full::both_bytes), using(octets::proofs::Puts::puts))]
fn put_both(buf: &mut [u8], at: usize, src: Ipv6Addr, dst: Ipv6Addr)
    requires { at ≤ 65535 }
    ensures { buf.new ≡ put at (both_bytes src dst) buf.old }
{
    put_be64(buf, at, src.prefix);
    put_be64(buf, at + 8, src.iid);
    put_be64(buf, at + 16, dst.prefix);
    put_be64(buf, at + 24, dst.iid);
}

// An IPv6 header at a place.
pub(crate) fn put_ipv6(buf: &mut [u8], at: usize, ip: Kept, payload: u16)
    requires { at ≤ 65000 }
    ensures { buf.new ≡ put at (kept_full ip payload) buf.old }
{
    let src = ip.src;
    let dst = ip.dst;
    put_front(buf, at, ip, payload);
    put_both(buf, at + 8, src, dst);
}

// A UDP header at a place, with 0 for an elided checksum.
#[tactic(auto, unfolding(crate::specs::Full::udp_full), using(octets::proofs::Puts::puts))]
pub(crate) fn put_udp(buf: &mut [u8], at: usize, h: UdpNhcRepr, len: u16)
    requires { at ≤ 65535 }
    ensures { buf.new ≡ put at (udp_full h len) buf.old }
{
    let sum = h.checksum;
    put_be16(buf, at, h.src_port);
    put_be16(buf, at + 2, h.dst_port);
    put_be16(buf, at + 4, len);
    put_be16(buf, at + 6, word_or(sum));
}

// How many bytes an extension header takes that has so many behind its first two: a multiple of eight.
pub(crate) fn full_size(n: usize) -> usize
    requires { n ≤ 255 }
    ensures { (result ≡ full_size n) × (n + 2 ≤ result) × (result ≤ n + 9) }
{
    (n + 9) / 8 * 8
}

// Padding of so many bytes: Pad1 for one, PadN for more (RFC 8200, 4.2).
fn put_pad(buf: &mut [u8], at: usize, n: usize)
    requires { (at ≤ 65000) × (n ≤ 7) }
    ensures { buf.new ≡ put at (pad n) buf.old }
{
    if n < 2 {
        let one = [0u8; 1];
        put_slice(buf, at, &one, 0, n);
        return;
    }
    let option = [1u8, (n - 2) as u8, 0, 0, 0, 0, 0];
    put_slice(buf, at, &option, 0, n);
}

// An extension header at a place: the bytes behind its first two are `len` of the frame, from the place `from` on.
pub(crate) fn put_extension(
    buf: &mut [u8],
    at: usize,
    next: u8,
    frame: &[u8],
    from: usize,
    len: usize,
)
    requires { (at ≤ 60000) × (len ≤ 255) × (len ≤ length frame.now - from) }
    ensures { buf.new ≡ put at (ext_full next (take len (drop from frame.now)))
        buf.old }
{
    let size = full_size(len);
    put_byte(buf, at, next);
    put_byte(buf, at + 1, (size / 8 - 1) as u8);
    put_slice(buf, at + 2, frame, from, len);
    put_pad(buf, at + 2 + len, size - (2 + len));
}
