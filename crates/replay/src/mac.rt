// mac.parse, mac.emit, addr.from and addr.info.
ghost use Rattle.std.specs.Prelude.{◌≡◌, IfNone};

use super::{answer, fields, room};
use ieee802154::{Address, FrameType, FrameVersion, Repr};
use text::field::{Fields, upto};
use text::out::Out;

// The length, and what stands before the addresses.
fn put_front(out: &mut Out, r: Repr, len: usize) {
    answer::ok(out, len);
    answer::byte(out, r.frame_type.0);
    answer::flag(out, r.security_enabled);
    answer::flag(out, r.frame_pending);
    answer::flag(out, r.ack_request);
    answer::optional(out, r.sequence_number, answer::byte);
    answer::flag(out, r.pan_id_compression);
    answer::byte(out, r.frame_version.0);
}

fn put_header(out: &mut Out, r: Repr, len: usize) {
    put_front(out, r, len);
    answer::optional(out, r.dst_pan_id, answer::pan);
    answer::link(out, r.dst_addr);
    answer::optional(out, r.src_pan_id, answer::pan);
    answer::link(out, r.src_addr);
}

// As each `parse` of this program: the types have no common trait, and a closure for each would be as long.
pub fn parse(bytes: &[u8], out: &mut Out) {
    match Repr::parse(bytes) {
        Ok((r, c)) => put_header(out, r, c.at),
        Err(e) => out.refused(e),
    }
}

fn repr(fields: &mut Fields<'_>) -> Option<Repr> {
    let frame_type = FrameType(fields::byte(fields)?);
    let security_enabled = fields::flag(fields)?;
    let frame_pending = fields::flag(fields)?;
    let ack_request = fields::flag(fields)?;
    let sequence_number = fields::optional_byte(fields)?;
    let pan_id_compression = fields::flag(fields)?;
    let frame_version = FrameVersion(fields::byte(fields)?);
    let dst_pan_id = fields::pan(fields)?;
    let dst_addr = fields::link(fields)?;
    let src_pan_id = fields::pan(fields)?;
    let src_addr = fields::link(fields)?;
    Some(Repr {
        frame_type,
        security_enabled,
        frame_pending,
        ack_request,
        sequence_number,
        pan_id_compression,
        frame_version,
        dst_pan_id,
        dst_addr,
        src_pan_id,
        src_addr,
    })
}

// As each `emit` of this program: the types have no common trait, and a closure for each would be as long.
pub fn emit(mut fields: Fields<'_>, scratch: &mut [u8], out: &mut Out) -> Option<()>
    ensures { IfNone result (out.new ≡ out.old) }
{
    let r = repr(&mut fields)?;
    let len = r.buffer_len();
    let room = room::made(&mut fields, len, scratch)?;
    let written = r.emit(room);
    room::put_written(out, len, written, room);
    Some(())
}

pub fn address(bytes: &[u8], out: &mut Out) {
    match Address::from_bytes(bytes) {
        Ok(x) => {
            out.text(b"ok");
            answer::address(out, x);
        }
        Err(e) => out.refused(e),
    }
}

// The bytes of an address, written into a room of its length.
// No heap: a room of the longest address.
fn put_bytes(out: &mut Out, x: Address) {
    let mut room = [0u8; 8];
    match x.emit_bytes(&mut room[..x.len().min(8)]) {
        Ok(n) => {
            out.put(b' ');
            out.bytes_or_dash(upto(&room, n));
        }
        Err(e) => out.refused(e),
    }
}

fn put_info(out: &mut Out, x: Address) {
    out.text(b"ok");
    answer::flag(out, x.is_broadcast());
    answer::flag(out, x.is_unicast());
    put_bytes(out, x);
    answer::optional(out, x.as_eui_64(), answer::long);
    answer::optional(out, x.as_link_local_address(), answer::ipv6);
}

pub fn info(mut fields: Fields<'_>, out: &mut Out) -> Option<()>
    ensures { IfNone result (out.new ≡ out.old) }
{
    let x = fields::link(&mut fields)?;
    fields.end()?;
    put_info(out, x?);
    Some(())
}
