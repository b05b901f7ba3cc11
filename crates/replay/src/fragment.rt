// dispatch, frag.parse, frag.emit and key.
ghost use Rattle.std.specs.Prelude.{◌≡◌, IfNone};

use super::{answer, fields, room};
use ieee802154;
use ieee802154::{Address, FrameType, FrameVersion};
use sixlowpan::SixlowpanPacket;
use sixlowpan::frag::{Key, Repr, Units};
use text::field::Fields;
use text::out::Out;

pub fn dispatch(bytes: &[u8], out: &mut Out) {
    match SixlowpanPacket::dispatch(bytes) {
        Ok(SixlowpanPacket::FragmentHeader) => out.text(b"ok frag"),
        Ok(SixlowpanPacket::IphcHeader) => out.text(b"ok iphc"),
        Err(e) => out.refused(e),
    }
}

fn put_header(out: &mut Out, r: Repr, len: usize) {
    answer::ok(out, len);
    out.text(if r.is_first_fragment() {
        b" first"
    } else {
        b" next"
    });
    answer::word(out, r.size());
    answer::word(out, r.tag());
    answer::byte(out, r.offset().0);
}

// As each `parse` of this program: the types have no common trait, and a closure for each would be as long.
pub fn parse(bytes: &[u8], out: &mut Out) {
    match Repr::parse(bytes) {
        Ok((r, c)) => put_header(out, r, c.at),
        Err(e) => out.refused(e),
    }
}

// KIND SIZE TAG OFFSET. A first part has no offset, and its field is passed over.
fn repr(fields: &mut Fields<'_>) -> Option<Repr> {
    let is_first = fields::kind(fields)?;
    let size = fields::word(fields)?;
    let tag = fields::word(fields)?;
    let offset = Units(fields::byte(fields)?);
    if is_first {
        return Some(Repr::FirstFragment { size, tag });
    }
    Some(Repr::Fragment { size, tag, offset })
}

// As each `emit` of this program: the types have no common trait, and a closure for each would be as long.
pub fn emit(mut fields: Fields<'_>, scratch: &mut [u8], out: &mut Out) -> Option<()>
    ensures { IfNone result (out.new ≡ out.old) }
{
    let r = repr(&mut fields)?;
    let len = r.buffer_len();
    let room = room::made(&mut fields, len, scratch)?;
    let written = r.emit(room);
    room::put_written(out, len, written, room);
    Some(())
}

// A MAC header with these addresses. A key takes nothing else from it.
fn mac_of(src_addr: Option<Address>, dst_addr: Option<Address>) -> ieee802154::Repr {
    ieee802154::Repr {
        frame_type: FrameType::DATA,
        security_enabled: false,
        frame_pending: false,
        ack_request: false,
        sequence_number: None,
        pan_id_compression: false,
        frame_version: FrameVersion::IEEE802154_2003,
        dst_pan_id: None,
        dst_addr,
        src_pan_id: None,
        src_addr,
    }
}

fn put_key(out: &mut Out, k: Key) {
    out.text(b"ok");
    answer::address(out, k.ll_src_addr);
    answer::address(out, k.ll_dst_addr);
    answer::word(out, k.datagram_size);
    answer::word(out, k.datagram_tag);
}

pub fn key(mut fields: Fields<'_>, out: &mut Out) -> Option<()>
    ensures { IfNone result (out.new ≡ out.old) }
{
    let src = fields::link(&mut fields)?;
    let dst = fields::link(&mut fields)?;
    let r = repr(&mut fields)?;
    fields.end()?;
    match r.key(mac_of(src, dst)) {
        Ok(k) => put_key(out, k),
        Err(e) => out.refused(e),
    }
    Some(())
}
