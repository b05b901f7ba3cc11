// Mesh headers (RFC 4944, 5.2).
// `buf, at` is the lent room and a place in it, as the writers of octets take them.
ghost use Rattle.octets.specs.Answers.{of_read};
ghost use Rattle.std.specs.Prelude.{◌≡◌, ◌≤◌};
ghost use Rattle.octets.specs.Write.{put};
ghost use Rattle.relay.specs.Mesh.{address, hops_left, mesh_rest, mesh, is_deep, hops_bits};
ghost use Rattle.relay.specs.Mesh.{has_both, hops_width, hops_bytes, short_bit, mesh_first, mesh_length, mesh_bytes};

use ieee802154::Address;
use octets::cursor::{Cursor, Read};
use octets::refusal::Refusal;
use octets::write::put_byte;

#[derive(Clone, Copy, PartialEq, Eq)]
pub struct Mesh {
    // How many hops the datagram may still go.
    pub hops: u8,
    pub origin: Address,
    pub destination: Address,
}

// An address of two bytes where its bit, V or F, is set, and of eight where it is clear; the first byte high.
// (The bit is a number, as `address` of specs/Mesh.antt takes it.)
#[tactic(auto, unfolding(crate::specs::Mesh::address))]
fn read_address(frame: &[u8], c: Cursor, short: u8) -> Read<Address>
    ensures { of_read result ≡ address short frame.now c.at }
{
    if short == 1 {
        let (x, d) = c.be16(frame)?;
        Ok((Address::Short(x), d))
    } else {
        let (x, d) = c.be64(frame)?;
        Ok((Address::Extended(x), d))
    }
}

// The four bits of hops left, or the byte behind them where they are 1111.
#[tactic(auto, unfolding(crate::specs::Mesh::hops_left))]
fn read_hops(frame: &[u8], c: Cursor, bits: u8) -> Read<u8>
    ensures { of_read result ≡ hops_left bits frame.now c.at }
{
    if bits == 0b1111 {
        c.byte(frame)
    } else {
        Ok((bits, c))
    }
}

// Whether hops left take a byte of their own.
fn is_deep(hops: u8) -> bool
    ensures { result ≡ is_deep hops }
{
    15 <= hops
}

// What stands in the four bits of the first byte.
fn hops_bits(hops: u8) -> u8
    ensures { (result ≡ hops_bits hops) × (result ≤ 15) }
{
    if is_deep(hops) { 0b1111 } else { hops }
}

fn hops_len(hops: u8) -> usize
    ensures { (result ≡ hops_width hops) × (result ≤ 1) }
{
    if is_deep(hops) { 1 } else { 0 }
}

#[tactic(auto, unfolding(crate::specs::Mesh::hops_bytes, octets::specs::Write::put))]
fn put_hops(buf: &mut [u8], at: usize, hops: u8)
    ensures { buf.new ≡ put at (hops_bytes hops) buf.old }
{
    if is_deep(hops) {
        put_byte(buf, at, hops);
    }
}

// The bit V or F.
fn short_bit(a: Address) -> u8
    ensures { (result ≡ short_bit a) × (result ≤ 1) }
{
    match a {
        Address::Short(_) => 1,
        Address::Absent | Address::Extended(_) => 0,
    }
}

impl Mesh {
    // The header that stands at a place of the frame, and the place after it.
    #[tactic(auto, unfolding(crate::specs::Mesh::mesh))]
    pub fn read(frame: &[u8], c: Cursor) -> Read<Mesh>
        ensures { of_read result ≡ mesh frame.now c.at }
    {
        let (b, d) = c.byte(frame)?;
        if b / 64 == 0b10 {
            Mesh::rest(frame, d, b)
        } else {
            Err(Refusal::NotThisHeader)
        }
    }

    // What follows the first byte b.
    #[tactic(auto, unfolding(crate::specs::Mesh::mesh_rest))]
    fn rest(frame: &[u8], c: Cursor, b: u8) -> Read<Mesh>
        ensures { of_read result ≡ mesh_rest b frame.now c.at }
    {
        let (hops, d) = read_hops(frame, c, b % 16)?;
        let (origin, e) = read_address(frame, d, b / 32 % 2)?;
        let (destination, f) = read_address(frame, e, b / 16 % 2)?;
        Ok((
            Mesh {
                hops,
                origin,
                destination,
            },
            f,
        ))
    }

    // 10, V, F and four bits of hops left.
    fn first(self) -> u8
        ensures { result ≡ mesh_first self }
    {
        let v = short_bit(self.origin);
        let f = short_bit(self.destination);
        0b10 * 64 + v * 32 + f * 16 + hops_bits(self.hops)
    }

    pub fn buffer_len(self) -> usize
        ensures { (result ≡ mesh_length self) × (result ≤ 18) }
    {
        1 + hops_len(self.hops) + self.origin.len() + self.destination.len()
    }

    // Whether neither address is absent.
    pub(crate) fn has_both(self) -> bool
        ensures { result ≡ has_both self }
    {
        self.origin.is_present() && self.destination.is_present()
    }

    // Puts the header at the front of the bytes.
    #[tactic(auto, using(crate::proofs::Puts::relay_puts))]
    pub(crate) fn put(self, buf: &mut [u8])
        ensures { buf.new ≡ put 0 (mesh_bytes self) buf.old }
    {
        put_byte(buf, 0, self.first());
        put_hops(buf, 1, self.hops);
        let at = 1 + hops_len(self.hops);
        self.origin.put_bytes(buf, at);
        self.destination.put_bytes(buf, at + self.origin.len());
    }
}
