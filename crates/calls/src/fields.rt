// The link-layer addresses and gateways of a line, beside the fields of `text::field`.
use ieee802154::{Address, Pan};
use reassembly::Gateway;
use text::field::{Fields, upto};
use text::line::find;

// A number of 16 bits: 4 digits.
// Also in cutter and replay: one line, and a function shared by all would be as long.
fn word(fields: &mut Fields<'_>) -> Option<u16> {
    Some((fields.number(4)? % 0x1_0000) as u16)
}

// `s` and 4 digits, `e` and 16, or `a`.
// Also in cutter: `text` knows no link-layer address (crates.txt), and the function is a dozen lines.
fn link(fields: &mut Fields<'_>) -> Option<Address> {
    match fields.letter()? {
        b's' => Some(Address::Short(word(fields)?)),
        b'e' => Some(Address::Extended(fields.number(16)?)),
        b'a' => {
            fields.close()?;
            Some(Address::Absent)
        }
        _ => None,
    }
}

// A gateway: an address, and behind an @ the four digits of its PAN; one without @ has none.
pub fn gateway(fields: &mut Fields<'_>) -> Option<Gateway> {
    let field = fields.word()?;
    let at = find(field, 0, b'@');
    let addr = link(&mut Fields::new(upto(field, at)))?;
    if field.len() <= at {
        return Some(Gateway { addr, pan: None });
    }
    let pan = word(&mut Fields::new(&field[at + 1..]))?;
    Some(Gateway {
        addr,
        pan: Some(Pan(pan)),
    })
}
