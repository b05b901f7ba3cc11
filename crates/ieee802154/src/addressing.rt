// The addressing fields: each side's PAN identifier and address.
// Readers take the lent bytes and a reading place, which is handed on by value (a rule of the project).
ghost use Rattle.octets.specs.Answers.{of_read};
ghost use Rattle.std.specs.Prelude.{◌≡◌};
ghost use Rattle.ieee802154.specs.Addressing.{pan_field, address_field, side};
ghost use Rattle.ieee802154.specs.Addressing.{sides, addressing};

use super::addr::{Address, Pan};
use super::control::{AddressingMode, Carried, Control};
use octets::cursor::{Cursor, Read};
use octets::refusal::Refusal;

// One side's PAN identifier and address.
#[derive(Clone, Copy)]
pub struct Side {
    pub pan: Option<Pan>,
    pub addr: Option<Address>,
}

#[derive(Clone, Copy)]
pub struct Addressing {
    pub dst: Side,
    pub src: Side,
}

#[tactic(auto, unfolding(crate::specs::Addressing::pan_field, crate::specs::Control::carried))]
fn read_pan(buf: &[u8], c: Cursor, carried: bool) -> Read<Option<Pan>>
    ensures { of_read result ≡ pan_field carried buf.now c.at }
{
    if carried {
        let (x, d) = c.le16(buf)?;
        Ok((Some(Pan(x)), d))
    } else {
        Ok((None, c))
    }
}

// By comparison and no `match`: a mode is a one-number type with named constants (a rule of the project).
#[tactic(auto, unfolding(crate::specs::Addressing::address_field))]
fn read_address(buf: &[u8], c: Cursor, mode: AddressingMode) -> Read<Option<Address>>
    ensures { of_read result ≡ address_field mode buf.now c.at }
{
    if mode == AddressingMode::ABSENT {
        return Ok((Some(Address::Absent), c));
    }
    if mode == AddressingMode::SHORT {
        let (x, d) = c.le16(buf)?;
        return Ok((Some(Address::Short(x)), d));
    }
    if mode == AddressingMode::EXTENDED {
        let (x, d) = c.le64(buf)?;
        return Ok((Some(Address::Extended(x)), d));
    }
    Err(Refusal::Unsupported)
}

#[tactic(auto, unfolding(crate::specs::Addressing::side, crate::specs::Control::carried))]
fn read_side(buf: &[u8], c: Cursor, carried: bool, mode: AddressingMode) -> Read<Side>
    ensures { of_read result ≡ side carried mode buf.now c.at }
{
    let (pan, d) = read_pan(buf, c, carried)?;
    let (addr, e) = read_address(buf, d, mode)?;
    Ok((Side { pan, addr }, e))
}

#[tactic(auto, unfolding(crate::specs::Addressing::sides, crate::specs::Control::carried))]
fn read_sides(
    buf: &[u8],
    c: Cursor,
    carried: Carried,
    dst: AddressingMode,
    src: AddressingMode,
) -> Read<Addressing>
    ensures { of_read result ≡ sides carried dst src buf.now c.at }
{
    let (a, d) = read_side(buf, c, carried.dst, dst)?;
    let (b, e) = read_side(buf, d, carried.src, src)?;
    Ok((Addressing { dst: a, src: b }, e))
}

// The fields that the frame control field says are there; none where the frame type has no addressing.
#[tactic(auto, unfolding(crate::specs::Addressing::addressing))]
pub(crate) fn read_addressing(buf: &[u8], c: Cursor, k: Control) -> Read<Addressing>
    ensures { of_read result ≡ addressing k buf.now c.at }
{
    if k.has_addressing() {
        let dst = k.dst_addr_mode;
        let src = k.src_addr_mode;
        read_sides(buf, c, Carried::from(k), dst, src)
    } else {
        let none = Side {
            pan: None,
            addr: None,
        };
        Ok((
            Addressing {
                dst: none,
                src: none,
            },
            c,
        ))
    }
}
