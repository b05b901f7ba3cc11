// nhc.dispatch, ext.parse, ext.emit, udp.parse and udp.emit.
ghost use Rattle.std.specs.Prelude.{◌≡◌, IfNone};

use super::{answer, fields, room};
use sixlowpan::IpProtocol;
use sixlowpan::nhc::{ExtHeaderId, ExtHeaderRepr, NhcPacket, UdpNhcRepr};
use text::field::Fields;
use text::out::Out;

pub fn dispatch(bytes: &[u8], out: &mut Out) {
    match NhcPacket::dispatch(bytes) {
        Ok(NhcPacket::ExtHeader) => out.text(b"ok ext"),
        Ok(NhcPacket::UdpHeader) => out.text(b"ok udp"),
        Err(e) => out.refused(e),
    }
}

fn put_ext(out: &mut Out, r: ExtHeaderRepr, len: usize) {
    answer::ok(out, len);
    out.put(b' ');
    out.decimal(u8::from(r.ext_header_id) as u64);
    answer::next_header(out, r.next_header);
    answer::byte(out, r.length);
    answer::byte(out, IpProtocol::from(r.ext_header_id).0);
}

// As each `parse` of this program: the types have no common trait, and a closure for each would be as long.
pub fn ext_parse(bytes: &[u8], out: &mut Out) {
    match ExtHeaderRepr::parse(bytes) {
        Ok((r, c)) => put_ext(out, r, c.at),
        Err(e) => out.refused(e),
    }
}

fn ext(fields: &mut Fields<'_>) -> Option<ExtHeaderRepr> {
    let id = fields::identifier(fields)?;
    let next_header = fields::next_header(fields)?;
    let length = fields::byte(fields)?;
    Some(ExtHeaderRepr {
        ext_header_id: ExtHeaderId::from(id),
        next_header,
        length,
    })
}

// As each `emit` of this program: the types have no common trait, and a closure for each would be as long.
pub fn ext_emit(mut fields: Fields<'_>, scratch: &mut [u8], out: &mut Out) -> Option<()>
    ensures { IfNone result (out.new ≡ out.old) }
{
    let r = ext(&mut fields)?;
    let len = r.buffer_len();
    let room = room::made(&mut fields, len, scratch)?;
    let written = r.emit(room);
    room::put_written(out, len, written, room);
    Some(())
}

fn put_udp(out: &mut Out, r: UdpNhcRepr, len: usize) {
    answer::ok(out, len);
    answer::word(out, r.src_port);
    answer::word(out, r.dst_port);
    answer::optional(out, r.checksum, answer::word);
}

// As each `parse` of this program: the types have no common trait, and a closure for each would be as long.
pub fn udp_parse(bytes: &[u8], out: &mut Out) {
    match UdpNhcRepr::parse(bytes) {
        Ok((r, c)) => put_udp(out, r, c.at),
        Err(e) => out.refused(e),
    }
}

fn udp(fields: &mut Fields<'_>) -> Option<UdpNhcRepr> {
    let src_port = fields::word(fields)?;
    let dst_port = fields::word(fields)?;
    let checksum = fields::optional_word(fields)?;
    Some(UdpNhcRepr {
        src_port,
        dst_port,
        checksum,
    })
}

// As each `emit` of this program: the types have no common trait, and a closure for each would be as long.
pub fn udp_emit(mut fields: Fields<'_>, scratch: &mut [u8], out: &mut Out) -> Option<()>
    ensures { IfNone result (out.new ≡ out.old) }
{
    let r = udp(&mut fields)?;
    let len = r.buffer_len();
    let room = room::made(&mut fields, len, scratch)?;
    let written = r.emit(room);
    room::put_written(out, len, written, room);
    Some(())
}
