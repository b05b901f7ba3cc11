// PAN identifiers and addresses.
// `buf, at` is the lent room and a place in it, as the writers of octets take them.
ghost use Rattle.octets.specs.Answers.{of_answer};
ghost use Rattle.std.specs.Prelude.{◌≡◌, not, ◌≤◌};
ghost use Rattle.octets.specs.Write.{put, Emits, le16_bytes};
ghost use Rattle.ieee802154.specs.Address.{is_broadcast, is_present, from_bytes, eui64};
ghost use Rattle.ieee802154.specs.Address.{link_local_of, address_length, address_bytes};
ghost use Rattle.ieee802154.specs.Addressing.{pan_or, pan_number, field_length, mode_of, field_bytes};

use super::control::AddressingMode;
use octets::cursor::Cursor;
use octets::ipv6::Ipv6Addr;
use octets::refusal::Refusal;
use octets::write::{put_be16, put_be64, put_le16, put_le64};

// The universal/local bit of an extended address.
const UNIVERSAL_LOCAL: u64 = 0x0200_0000_0000_0000;

// A PAN identifier.
#[derive(Clone, Copy, PartialEq, Eq)]
pub struct Pan(pub u16);

impl Pan {
    pub const BROADCAST: Pan = Pan(0xffff);

    // The identifier as a number, where a PAN is held as one.
    // A method and no `From`: a PAN is never used as a bare number (docs/DECISIONS.md).
    pub fn number(self) -> u64
        ensures { (result ≡ self.0) × (result ≤ 65535) }
    {
        self.0 as u64
    }

    // Writes its two bytes as a header has them, the low one first.
    pub fn emit_bytes(self, buf: &mut [u8]) -> Result<usize, Refusal>
        ensures { Emits result 2 (le16_bytes self.0) buf.old buf.new }
    {
        if buf.len() < 2 {
            return Err(Refusal::NoRoom);
        }
        put_le16(buf, 0, self.0);
        Ok(2)
    }
}

// An address; a short or an extended one as the number that its bytes are, the first byte high.
#[derive(Clone, Copy, PartialEq, Eq)]
pub enum Address {
    Absent,
    Short(u16),
    Extended(u64),
}

impl Address {
    pub const BROADCAST: Address = Address::Short(0xffff);

    pub fn is_broadcast(self) -> bool
        ensures { result ≡ is_broadcast self }
    {
        self == Address::BROADCAST
    }

    // Whether there is one.
    pub fn is_present(self) -> bool
        ensures { result ≡ is_present self }
    {
        self != Address::Absent
    }

    pub fn is_unicast(self) -> bool
        ensures { result ≡ not (is_broadcast self) }
    {
        !self.is_broadcast()
    }

    // Two bytes for a short address, eight for an extended one; any other count is refused.
    // A method and no `TryFrom`: docs/DECISIONS.md names it.
    #[tactic(auto, unfolding(crate::specs::Address::from_bytes))]
    pub fn from_bytes(a: &[u8]) -> Result<Address, Refusal>
        ensures { of_answer result ≡ from_bytes a.now }
    {
        if a.len() == 2 {
            let (x, _) = Cursor::START.be16(a)?;
            Ok(Address::Short(x))
        } else if a.len() == 8 {
            let (x, _) = Cursor::START.be64(a)?;
            Ok(Address::Extended(x))
        } else {
            Err(Refusal::BadLength)
        }
    }

    // How many bytes `emit_bytes` writes.
    pub fn len(self) -> usize
        ensures value { result ≡ address_length self }
        ensures upper_bound { result ≤ 8 }
    {
        match self {
            Address::Absent => 0,
            Address::Short(_) => 2,
            Address::Extended(_) => 8,
        }
    }

    // Puts the bytes at a place of the room.
    #[tactic(auto, unfolding(octets::specs::Write::put))]
    pub fn put_bytes(self, buf: &mut [u8], at: usize)
        ensures { buf.new ≡ put at (address_bytes self) buf.old }
    {
        match self {
            Address::Absent => {}
            Address::Short(v) => put_be16(buf, at, v),
            Address::Extended(v) => put_be64(buf, at, v),
        }
    }

    // Writes the bytes that `from_bytes` takes, the first byte high; none of an absent address.
    pub fn emit_bytes(self, buf: &mut [u8]) -> Result<usize, Refusal>
        ensures { Emits result (address_length self) (address_bytes self) buf.old buf.new }
    {
        let n = self.len();
        if buf.len() < n {
            return Err(Refusal::NoRoom);
        }
        self.put_bytes(buf, 0);
        Ok(n)
    }

    // The modified EUI-64 of an extended address: the universal/local bit is the other way round.
    // A method that answers an Option, and no `TryFrom`: an address of another kind is refused by nobody.
    pub fn as_eui_64(self) -> Option<u64>
        ensures { result ≡ eui64 self }
    {
        match self {
            Address::Absent | Address::Short(_) => None,
            Address::Extended(x) => {
                if x / UNIVERSAL_LOCAL % 2 == 0 {
                    Some(x + UNIVERSAL_LOCAL)
                } else {
                    Some(x - UNIVERSAL_LOCAL)
                }
            }
        }
    }

    // The link-local address of an extended address.
    // (An Option, for the same reason.)
    pub fn as_link_local_address(self) -> Option<Ipv6Addr>
        ensures { result ≡ link_local_of self }
    {
        let iid = self.as_eui_64()?;
        Some(Ipv6Addr {
            prefix: Ipv6Addr::LINK_LOCAL,
            iid,
        })
    }
}

// A missing PAN is written as zero.
pub(crate) fn pan_or_zero(pan: Option<Pan>) -> Pan
    ensures { result.0 ≡ pan_or pan }
{
    pan.unwrap_or(Pan(0))
}

// A PAN or none as one number: none is 0, and no PAN is.
pub fn pan_number(pan: Option<Pan>) -> u64
    ensures { result ≡ pan_number pan }
{
    pan.map_or(0, |x| x.number() + 1)
}

// How many bytes a header gives an address.
pub(crate) fn field_len(addr: Option<Address>) -> usize
    ensures value { result ≡ field_length addr }
    ensures upper_bound { result ≤ 8 }
{
    addr.map_or(0, |x| x.len())
}

// The mode that announces an address.
pub(crate) fn mode_of(addr: Option<Address>) -> AddressingMode
    ensures { result.0 ≡ mode_of addr }
{
    match addr {
        None | Some(Address::Absent) => AddressingMode::ABSENT,
        Some(Address::Short(_)) => AddressingMode::SHORT,
        Some(Address::Extended(_)) => AddressingMode::EXTENDED,
    }
}

// An address in a header, where its low byte is first; nothing of one that is absent.
// (`put_bytes` has the high byte first: the two share the cases alone.)
pub(crate) fn put_field(buf: &mut [u8], at: usize, addr: Option<Address>)
    ensures { buf.new ≡ put at (field_bytes addr) buf.old }
{
    match addr {
        None => {}
        Some(a) => match a {
            Address::Absent => {}
            Address::Short(v) => put_le16(buf, at, v),
            Address::Extended(v) => put_le64(buf, at, v),
        },
    }
}
