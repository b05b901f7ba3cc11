// The fields of a line that are of this program's own kinds, beside those of `text::field`.
// By functions and not by `FromStr` or `TryFrom`: the types are of other crates.
use ieee802154::{Address, Pan};
use iphc::FlowLabel;
use octets::ipv6::Ipv6Addr;
use sixlowpan::{IpProtocol, NextHeader};
use text::field::Fields;

pub fn byte(fields: &mut Fields<'_>) -> Option<u8> {
    Some((fields.number(2)? % 256) as u8)
}

// Also in calls and cutter: one line, and a function shared by all would be as long.
pub fn word(fields: &mut Fields<'_>) -> Option<u16> {
    Some((fields.number(4)? % 0x1_0000) as u16)
}

// By its one letter, and no word that is looked for to its end: a MAC header has four of them.
pub fn flag(fields: &mut Fields<'_>) -> Option<bool> {
    let x = match fields.letter()? {
        b'0' => false,
        b'1' => true,
        _ => return None,
    };
    fields.close()?;
    Some(x)
}

// Whether the field is `-`, and then what is behind it.
fn is_dash(fields: &mut Fields<'_>) -> Option<bool> {
    if fields.peek() != b'-' {
        return Some(false);
    }
    fields.letter()?;
    fields.close()?;
    Some(true)
}

// `-`, or what is read.
fn optional<T, F: FnOnce(&mut Fields<'_>) -> Option<T>>(
    fields: &mut Fields<'_>,
    read: F,
) -> Option<Option<T>>
    requires { F.IsAlwaysCallable read }
{
    if is_dash(fields)? {
        return Some(None);
    }
    Some(Some(read(fields)?))
}

pub fn optional_byte(fields: &mut Fields<'_>) -> Option<Option<u8>> {
    optional(fields, byte)
}

pub fn optional_word(fields: &mut Fields<'_>) -> Option<Option<u16>> {
    optional(fields, word)
}

// 5 digits.
fn label(fields: &mut Fields<'_>) -> Option<FlowLabel> {
    Some(FlowLabel((fields.number(5)? % 0x10_0000) as u32))
}

pub fn optional_label(fields: &mut Fields<'_>) -> Option<Option<FlowLabel>> {
    optional(fields, label)
}

pub fn pan(fields: &mut Fields<'_>) -> Option<Option<Pan>> {
    let x = optional_word(fields)?;
    Some(x.map(|v| Pan(v)))
}

// Not that of calls and cutter: a field may be `n` here, for no address at all.
pub fn link(fields: &mut Fields<'_>) -> Option<Option<Address>> {
    match fields.letter()? {
        b's' => Some(Some(Address::Short(word(fields)?))),
        b'e' => Some(Some(Address::Extended(fields.number(16)?))),
        b'a' => {
            fields.close()?;
            Some(Some(Address::Absent))
        }
        b'n' => {
            fields.close()?;
            Some(None)
        }
        _ => None,
    }
}

pub fn ipv6(fields: &mut Fields<'_>) -> Option<Ipv6Addr> {
    let prefix = fields.digits(16)?;
    let iid = fields.number(16)?;
    Some(Ipv6Addr { prefix, iid })
}

// `c`, or two digits, which may begin with a c too.
pub fn next_header(fields: &mut Fields<'_>) -> Option<NextHeader> {
    let mut short = *fields;
    if let Some(b"c") = short.word() {
        *fields = short;
        return Some(NextHeader::Compressed);
    }
    Some(NextHeader::Uncompressed(IpProtocol(byte(fields)?)))
}

// `first` or `next`: whether a part is the first.
// A bool, as `is_first_fragment` of crate sixlowpan answers it.
pub fn kind(fields: &mut Fields<'_>) -> Option<bool> {
    match fields.word()? {
        b"first" => Some(true),
        b"next" => Some(false),
        _ => None,
    }
}

// The identifier of an extension header: one digit, not 6, since 5 stands for both reserved ones.
pub fn identifier(fields: &mut Fields<'_>) -> Option<u8> {
    match fields.number(1)? {
        6 => None,
        d if d < 8 => Some(d as u8),
        _ => None,
    }
}
