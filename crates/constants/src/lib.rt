// The named constants of the header crates, held to the numbers that the documents give them.
//
// A contract speaks of functions: a constant that none of them uses could be wrong, and every crate would still be
// proved. Here each one is the answer of a function whose contract has the number, so that a wrong one is refused.
#![tactic(auto)]

ghost use Rattle.std.specs.Prelude.{◌≡◌, [], ◌∷◌};
ghost use Rattle.ieee802154.specs.declared.addr.Address.TheVariants.{Short};

use capture::block::BLOCK;
use ieee802154::{Address, AddressingMode, FrameType, FrameVersion, Pan};
use iphc::context::AddressContext;
use octets::cursor::Cursor;
use octets::ipv6::Ipv6Addr;
use sixlowpan::IpProtocol;
use sixlowpan::frag::{FIRST_FRAGMENT_HEADER_SIZE, NEXT_FRAGMENT_HEADER_SIZE, Units};

// IEEE 802.15.4, frame types: beacon, data, acknowledgement, MAC command, multipurpose, fragment or Frak, extended.
pub fn frame_types() -> [u8; 7]
    ensures { result ≡ 0 ∷ 1 ∷ 2 ∷ 3 ∷ 5 ∷ 6 ∷ 7 ∷ [] }
{
    [
        FrameType::BEACON.0,
        FrameType::DATA.0,
        FrameType::ACKNOWLEDGEMENT.0,
        FrameType::MAC_COMMAND.0,
        FrameType::MULTIPURPOSE.0,
        FrameType::FRAGMENT_OR_FRAK.0,
        FrameType::EXTENDED.0,
    ]
}

// IEEE 802.15.4, addressing modes: absent, short, extended.
pub fn addressing_modes() -> [u8; 3]
    ensures { result ≡ 0 ∷ 2 ∷ 3 ∷ [] }
{
    [
        AddressingMode::ABSENT.0,
        AddressingMode::SHORT.0,
        AddressingMode::EXTENDED.0,
    ]
}

// IEEE 802.15.4, frame versions: 2003, 2006, and the standard from 2015 on.
pub fn frame_versions() -> [u8; 3]
    ensures { result ≡ 0 ∷ 1 ∷ 2 ∷ [] }
{
    [
        FrameVersion::IEEE802154_2003.0,
        FrameVersion::IEEE802154_2006.0,
        FrameVersion::IEEE802154.0,
    ]
}

// IEEE 802.15.4: the broadcast address and the broadcast PAN are ffff.
pub fn broadcast() -> Address
    ensures { result ≡ Short 0xffff }
{
    Address::BROADCAST
}

pub fn broadcast_pan() -> u16
    ensures { result ≡ 0xffff }
{
    Pan::BROADCAST.0
}

// IANA's protocol numbers: hop-by-hop options, UDP, routing, fragment, ICMPv6, destination options.
pub fn protocols() -> [u8; 6]
    ensures { result ≡ 0 ∷ 17 ∷ 43 ∷ 44 ∷ 58 ∷ 60 ∷ [] }
{
    [
        IpProtocol::HOP_BY_HOP.0,
        IpProtocol::UDP.0,
        IpProtocol::IPV6_ROUTE.0,
        IpProtocol::IPV6_FRAG.0,
        IpProtocol::ICMPV6.0,
        IpProtocol::IPV6_OPTS.0,
    ]
}

// RFC 4944, 5.3: the headers of a first and a later part, and the unit of an offset; RFC 6282: a context's prefix; a
// place at the start; the scope document: a capture's block.
pub fn sizes() -> [usize; 6]
    ensures { result ≡ 4 ∷ 5 ∷ 8 ∷ 8 ∷ 0 ∷ 512 ∷ [] }
{
    [
        FIRST_FRAGMENT_HEADER_SIZE,
        NEXT_FRAGMENT_HEADER_SIZE,
        Units::SIZE,
        AddressContext::LEN,
        Cursor::START.at,
        BLOCK,
    ]
}

// RFC 4291: the unspecified address, and the prefix fe80::/64.
pub fn unspecified() -> Ipv6Addr
    ensures { result ≡ record { prefix = 0; iid = 0 } }
{
    Ipv6Addr::UNSPECIFIED
}

pub fn link_local() -> u64
    ensures { result ≡ 0xfe80000000000000 }
{
    Ipv6Addr::LINK_LOCAL
}
