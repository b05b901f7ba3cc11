// How an address of a compressed header is written: the bits of its mode, and the bytes that are carried inline.
ghost use Rattle.std.specs.Prelude.{◌≡◌, ◌≤◌};
ghost use Rattle.octets.specs.Write.{put};
ghost use Rattle.iphc.specs.Emit.{inline_length, inline_bytes, is_short, is_extended, iid_form, src_form, is_group8};
ghost use Rattle.iphc.specs.Emit.{is_scoped};
ghost use Rattle.iphc.specs.Emit.{multicast_form, dst_form};

use ieee802154::addr::Address;
use octets::ipv6::Ipv6Addr;
use octets::write::{put_be16, put_be32, put_be64, put_byte};

// What is carried inline, by its number of bits; 48 and 128 as two numbers.
#[derive(Clone, Copy)]
pub enum Inline {
    Nothing,
    Bits8(u8),
    Bits16(u16),
    Bits32(u32),
    Bits48(u16, u32),
    Bits64(u64),
    Bits128(u64, u64),
}

// The mode: SAC SAM of a source address, M DAC DAM of a destination address.
// A number, as `base_word` of specs/Emit.antt takes it: the bits of both modes go into one word.
#[derive(Clone, Copy)]
pub struct Form {
    pub mode: u8,
    pub inline: Inline,
}

impl Inline {
    // How many bytes are carried.
    pub fn len(self) -> usize
        ensures value { result ≡ inline_length self }
        ensures upper_bound { result ≤ 16 }
    {
        match self {
            Inline::Nothing => 0,
            Inline::Bits8(_) => 1,
            Inline::Bits16(_) => 2,
            Inline::Bits32(_) => 4,
            Inline::Bits48(_, _) => 6,
            Inline::Bits64(_) => 8,
            Inline::Bits128(_, _) => 16,
        }
    }

    // Puts the bytes at a place of the room.
    // (The room and a place in it, as the writers of octets take them.)
    #[tactic(auto, using(crate::proofs::Puts::inline_puts), unfolding(octets::specs::Write::put))]
    pub fn put(self, buf: &mut [u8], at: usize)
        ensures { buf.new ≡ put at (inline_bytes self) buf.old }
    {
        if buf.len() <= at {
            return;
        }
        match self {
            Inline::Nothing => {}
            Inline::Bits8(x) => put_byte(buf, at, x),
            Inline::Bits16(x) => put_be16(buf, at, x),
            Inline::Bits32(x) => put_be32(buf, at, x),
            Inline::Bits48(x, y) => {
                put_be16(buf, at, x);
                put_be32(buf, at + 2, y);
            }
            Inline::Bits64(x) => put_be64(buf, at, x),
            Inline::Bits128(x, y) => {
                put_be64(buf, at, x);
                put_be64(buf, at + 8, y);
            }
        }
    }
}

fn is_short(ll: Option<Address>, x: u16) -> bool
    ensures { result ≡ is_short ll x }
{
    ll == Some(Address::Short(x))
}

fn is_extended(ll: Option<Address>, iid: u64) -> bool
    ensures { result ≡ is_extended ll iid }
{
    ll.is_some_and(|a| a.as_eui_64() == Some(iid))
}

// How the identifier of a link-local address is written against the link-layer address.
#[tactic(auto, unfolding(crate::specs::Emit::iid_form))]
fn iid_form(iid: u64, ll: Option<Address>) -> Form
    ensures { result ≡ iid_form iid ll }
{
    if iid / 0x1_0000 == 0xfffe00 {
        let x = (iid % 0x1_0000) as u16;
        if is_short(ll, x) {
            Form {
                mode: 0b11,
                inline: Inline::Nothing,
            }
        } else {
            Form {
                mode: 0b10,
                inline: Inline::Bits16(x),
            }
        }
    } else if is_extended(ll, iid) {
        Form {
            mode: 0b11,
            inline: Inline::Nothing,
        }
    } else {
        Form {
            mode: 0b01,
            inline: Inline::Bits64(iid),
        }
    }
}

#[tactic(auto, unfolding(crate::specs::Emit::src_form))]
pub fn src_form(a: Ipv6Addr, ll: Option<Address>) -> Form
    ensures { result ≡ src_form a ll }
{
    if a.is_unspecified() {
        Form {
            mode: 0b100,
            inline: Inline::Nothing,
        }
    } else if a.is_link_local() {
        iid_form(a.iid, ll)
    } else {
        Form {
            mode: 0b000,
            inline: Inline::Bits128(a.prefix, a.iid),
        }
    }
}

// ff02::00XX
fn is_group8(a: Ipv6Addr) -> bool
    ensures { result ≡ is_group8 a }
{
    a.prefix == 0xff02_0000_0000_0000 && a.iid < 0x100
}

// ffXX:: with an identifier below `below`.
fn is_scoped(a: Ipv6Addr, below: u64) -> bool
    ensures { result ≡ is_scoped a below }
{
    a.prefix % 0x1_0000_0000_0000 == 0 && a.iid < below
}

#[tactic(auto, unfolding(crate::specs::Emit::multicast_form))]
fn multicast_form(a: Ipv6Addr) -> Form
    ensures { result ≡ multicast_form a }
{
    let prefix = a.prefix;
    let iid = a.iid;
    let scope = prefix / 0x1_0000_0000_0000 % 256;
    if is_group8(a) {
        Form {
            mode: 0b1011,
            inline: Inline::Bits8((iid % 0x100) as u8),
        }
    } else if is_scoped(a, 0x100_0000) {
        Form {
            mode: 0b1010,
            inline: Inline::Bits32((scope * 0x100_0000 + iid % 0x100_0000) as u32),
        }
    } else if is_scoped(a, 0x100_0000_0000) {
        Form {
            mode: 0b1001,
            inline: Inline::Bits48(
                (scope * 0x100 + iid / 0x1_0000_0000 % 0x100) as u16,
                (iid % 0x1_0000_0000) as u32,
            ),
        }
    } else {
        Form {
            mode: 0b1000,
            inline: Inline::Bits128(prefix, iid),
        }
    }
}

#[tactic(auto, unfolding(crate::specs::Emit::dst_form))]
pub fn dst_form(a: Ipv6Addr, ll: Option<Address>) -> Form
    ensures { result ≡ dst_form a ll }
{
    if a.is_multicast() {
        multicast_form(a)
    } else if a.is_link_local() {
        iid_form(a.iid, ll)
    } else {
        Form {
            mode: 0b0000,
            inline: Inline::Bits128(a.prefix, a.iid),
        }
    }
}
