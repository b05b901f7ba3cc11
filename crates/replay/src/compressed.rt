// iphc.parse and iphc.emit.
ghost use Rattle.std.specs.Prelude.{◌≡◌, IfNone};

use super::{answer, fields, room};
use iphc::Repr;
use text::field::{Fields, part, upto};
use text::out::Out;

fn put_header(out: &mut Out, r: Repr, len: usize) {
    answer::ok(out, len);
    answer::ipv6(out, r.src_addr);
    answer::ipv6(out, r.dst_addr);
    answer::next_header(out, r.next_header);
    answer::byte(out, r.hop_limit);
    answer::optional(out, r.ecn, answer::byte);
    answer::optional(out, r.dscp, answer::byte);
    answer::optional(out, r.flow_label, answer::label);
    answer::link(out, r.ll_src_addr);
    answer::link(out, r.ll_dst_addr);
}

// The contexts go behind the header's bytes, so that one room serves both.
// As each `parse` of this program: the types have no common trait, and a closure for each would be as long.
pub fn parse(mut fields: Fields<'_>, scratch: &mut [u8], out: &mut Out) -> Option<()>
    ensures { IfNone result (out.new ≡ out.old) }
{
    let n = fields.bytes(scratch)?;
    let src = fields::link(&mut fields)?;
    let dst = fields::link(&mut fields)?;
    let m = fields.last_bytes(scratch.get_mut(n..)?)?;
    fields.end()?;
    match Repr::parse(upto(scratch, n), src, dst, part(scratch, n, m)) {
        Ok((r, c)) => put_header(out, r, c.at),
        Err(e) => out.refused(e),
    }
    Some(())
}

fn repr(fields: &mut Fields<'_>) -> Option<Repr> {
    let src_addr = fields::ipv6(fields)?;
    let dst_addr = fields::ipv6(fields)?;
    let next_header = fields::next_header(fields)?;
    let hop_limit = fields::byte(fields)?;
    let ecn = fields::optional_byte(fields)?;
    let dscp = fields::optional_byte(fields)?;
    let flow_label = fields::optional_label(fields)?;
    let ll_src_addr = fields::link(fields)?;
    let ll_dst_addr = fields::link(fields)?;
    Some(Repr {
        src_addr,
        ll_src_addr,
        dst_addr,
        ll_dst_addr,
        next_header,
        hop_limit,
        ecn,
        dscp,
        flow_label,
    })
}

// As each `emit` of this program: the types have no common trait, and a closure for each would be as long.
pub fn emit(mut fields: Fields<'_>, scratch: &mut [u8], out: &mut Out) -> Option<()>
    ensures { IfNone result (out.new ≡ out.old) }
{
    let r = repr(&mut fields)?;
    let len = r.buffer_len();
    let room = room::made(&mut fields, len, scratch)?;
    let written = r.emit(room);
    room::put_written(out, len, written, room);
    Some(())
}
