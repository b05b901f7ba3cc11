// The UDP checksum of an IPv6 datagram (RFC 768, RFC 8200 8.1, RFC 1071).
ghost use Rattle.std.specs.Prelude.{◌≡◌, ◌≤◌, ◌<◌, ◌+◌, ◌*◌, length};
ghost use Rattle.expand.specs.Sum.{sum_words, be16_at, checksum_at, stands, summed_in, holds_in};

use octets::write::put_be16;

// What is to be known of a UDP checksum once its datagram is whole: nothing (kind 0), that it was elided (1) or that it
// was carried (2), and where the IPv6 header just outside the UDP header and the UDP header itself stand; 0 where there
// is nothing to know. The kind is a number, as the slot table keeps it: each 64-bit number is one table (`table-one`).
#[repr(C)]
#[derive(Clone, Copy)]
pub struct UdpSum {
    pub kind: u64,
    pub ip: u16,
    pub udp: u16,
}

impl UdpSum {
    pub const NONE: UdpSum = UdpSum {
        kind: 0,
        ip: 0,
        udp: 0,
    };
}

// The plain sum of the words of at most 65,534 bytes: below 2^31 and a little, so that with an address pair, ports, a
// length and 17 it is below 2^32.
fn sum_words(s: &[u8]) -> u32
    requires { length s.now ≤ 65534 }
    ensures { (result ≡ sum_words s.now) × (result ≤ (length s.now + 1) * 32768) }
{
    let n = s.len() / 2;
    let mut x: u32 = 0;
    // By the index: slices are taken so in the crates under `lift_c` (docs/DECISIONS.md).
    for k in 0..n {
        let i = k * 2;
        x += (s[i] as u32) * 256 + (s[i + 1] as u32);
    }
    let i = n * 2;
    if i < s.len() {
        x + (s[i] as u32) * 256
    } else {
        x
    }
}

// The checksum of the UDP header at the place `udp` of a datagram, with the addresses of the IPv6 header at the place
// `ip`; its own place counts as zero.
fn checksum(d: &[u8], ip: usize, udp: usize) -> u16
    requires { (ip + 40 ≤ udp) × (udp + 8 ≤ length d.now) × (length d.now ≤ udp + 65535) × (udp ≤ 65535) }
    ensures { result ≡ checksum_at ip udp d.now }
{
    let from = ip + 8;
    let to = ip + 40;
    let sum = udp + 6;
    let data = udp + 8;
    let heads = sum_words(&d[from..to]) + sum_words(&d[udp..sum]);
    let x = heads + sum_words(&d[data..]) + ((d.len() - udp) as u32) + 17;
    let y = x / 65536 + x % 65536;
    let z = y / 65536 + y % 65536;
    if z == 65535 {
        return 65535;
    }
    (65535 - z) as u16
}

// Whether the two headers stand in a datagram of n bytes, one behind the other, and a UDP length can say what follows.
fn stands(m: UdpSum, n: usize) -> bool
    ensures { result ≡ stands m n }
{
    let ip = m.ip as usize;
    let udp = m.udp as usize;
    ip + 40 <= udp && udp + 8 <= n && n <= udp + 65535
}

// Computes an elided checksum of the datagram that the first n bytes are, and puts it into its place. Where it was not
// elided, or they can be no such datagram, nothing is written.
// The length stands beside the room, here and in `is_right`: `summed_in` and `holds_in` of specs/Sum.antt take both.
pub fn put_checksum(buf: &mut [u8], n: usize, m: UdpSum)
    ensures { buf.new ≡ summed_in m n buf.old }
{
    if m.kind != 1 {
        return;
    }
    if buf.len() < n {
        return;
    }
    if stands(m, n) {
        let udp = m.udp as usize;
        let sum = checksum(&buf[0..n], m.ip as usize, udp);
        put_be16(buf, udp + 6, sum);
    }
}

// Two bytes of a slice, the high one first.
// Not through `Cursor`: `stands` has tested the end, so there is none to be refused.
fn word_at(d: &[u8], at: usize) -> u16
    requires { at + 2 ≤ length d.now }
    ensures { result ≡ be16_at at d.now }
{
    (d[at] as u16) * 256 + (d[at + 1] as u16)
}

// Whether a carried checksum of the datagram that the first n bytes are is right. Where none was carried, or they can
// be no such datagram, there is none to be wrong.
pub fn is_right(buf: &[u8], n: usize, m: UdpSum) -> bool
    ensures { result ≡ holds_in m n buf.now }
{
    if m.kind != 2 {
        return true;
    }
    if buf.len() < n {
        return true;
    }
    if stands(m, n) {
        let udp = m.udp as usize;
        return word_at(buf, udp + 6) == checksum(&buf[0..n], m.ip as usize, udp);
    }
    true
}
