// What a line says beside the datagram, with the fields of `text::field`.
use cutting::Link;
use ieee802154::{Address, Pan};
use text::field::Fields;

fn low16(x: u64) -> u16 {
    (x % 0x1_0000) as u16
}

// A number of 16 bits: 4 digits.
// Also in calls and replay: one line, and a function shared by all would be as long.
fn word(fields: &mut Fields<'_>) -> Option<u16> {
    Some(low16(fields.number(4)?))
}

// `s` and 4 digits, `e` and 16, or `a`.
// Also in calls: `text` knows no link-layer address (crates.txt), and the function is a dozen lines.
fn address(fields: &mut Fields<'_>) -> Option<Address> {
    match fields.letter()? {
        b's' => Some(Address::Short(word(fields)?)),
        b'e' => Some(Address::Extended(fields.number(16)?)),
        b'a' => {
            fields.close()?;
            Some(Address::Absent)
        }
        _ => None,
    }
}

// PAN SRC DST SEQ TAG LIMIT.
pub fn link(fields: &mut Fields<'_>) -> Option<Link> {
    let pan = word(fields)?;
    let src = address(fields)?;
    let dst = address(fields)?;
    let sequence = fields.number(2)?;
    let tag = word(fields)?;
    let limit = fields.decimal()?;
    Some(Link {
        pan: Pan(pan),
        src,
        dst,
        sequence: (sequence % 256) as u8,
        tag,
        limit: limit as usize,
    })
}

// A frame's number. None has 65,535 or more before it, so that all these are one.
pub fn place(k: u64) -> u16 {
    k.min(0xffff) as u16
}
