// The parts of answers that several commands share. A field brings the space before it.
// By functions and not by `Display`: the types are of other crates, and the form is this program's (oracle/README.md).
use ieee802154::{Address, Pan};
use iphc::FlowLabel;
use octets::ipv6::Ipv6Addr;
use sixlowpan::NextHeader;
use text::out::Out;

// `ok` and a length.
pub fn ok(out: &mut Out, len: usize) {
    out.text(b"ok ");
    out.decimal(len as u64);
}

// A number of so many hexadecimal digits.
fn hex(out: &mut Out, x: u64, digits: usize) {
    out.put(b' ');
    out.hex(x, digits);
}

pub fn byte(out: &mut Out, x: u8) {
    hex(out, x as u64, 2);
}

pub fn word(out: &mut Out, x: u16) {
    hex(out, x as u64, 4);
}

pub fn long(out: &mut Out, x: u64) {
    hex(out, x, 16);
}

fn none(out: &mut Out) {
    out.text(b" -");
}

pub fn flag(out: &mut Out, t: bool) {
    out.text(if t { b" 1" } else { b" 0" });
}

// What may lack: `-`, or as `put` puts it.
pub fn optional<T, F: FnOnce(&mut Out, T)>(out: &mut Out, x: Option<T>, put: F)
    requires { F.IsAlwaysCallable put }
{
    match x {
        None => none(out),
        Some(v) => put(out, v),
    }
}

pub fn label(out: &mut Out, label: FlowLabel) {
    hex(out, label.0 as u64, 5);
}

pub fn pan(out: &mut Out, pan: Pan) {
    word(out, pan.0);
}

pub fn address(out: &mut Out, a: Address) {
    match a {
        Address::Absent => out.text(b" a"),
        Address::Short(x) => {
            out.text(b" s");
            out.hex(x as u64, 4);
        }
        Address::Extended(x) => {
            out.text(b" e");
            out.hex(x, 16);
        }
    }
}

pub fn link(out: &mut Out, a: Option<Address>) {
    match a {
        None => out.text(b" n"),
        Some(x) => address(out, x),
    }
}

pub fn next_header(out: &mut Out, x: NextHeader) {
    match x {
        NextHeader::Compressed => out.text(b" c"),
        NextHeader::Uncompressed(p) => byte(out, p.0),
    }
}

pub fn ipv6(out: &mut Out, a: Ipv6Addr) {
    long(out, a.prefix);
    out.hex(a.iid, 16);
}
