// relay.parse and relay.emit.
ghost use Rattle.std.specs.Prelude.{◌≡◌, IfNone};

use super::{answer, fields, room};
use octets::cursor::Cursor;
use relay::{Mesh, Relay};
use text::field::Fields;
use text::out::Out;

// Hops left and both addresses, or that there is no mesh header.
fn put_mesh(out: &mut Out, mesh: Option<Mesh>) {
    match mesh {
        None => out.text(b" - n n"),
        Some(m) => {
            answer::byte(out, m.hops);
            answer::address(out, m.origin);
            answer::address(out, m.destination);
        }
    }
}

// As each `parse` of this program: the types have no common trait, and a closure for each would be as long.
pub fn parse(bytes: &[u8], out: &mut Out) {
    match Relay::read(bytes, Cursor::START) {
        Ok((r, c)) => {
            answer::ok(out, c.at);
            put_mesh(out, r.mesh);
            answer::optional(out, r.broadcast, answer::byte);
        }
        Err(e) => out.refused(e),
    }
}

// With hops left there are both addresses, absent ones too, and without there is neither.
fn mesh(fields: &mut Fields<'_>) -> Option<Option<Mesh>> {
    let hops = fields::optional_byte(fields)?;
    let origin = fields::link(fields)?;
    let destination = fields::link(fields)?;
    match (hops, origin, destination) {
        (None, None, None) => Some(None),
        (Some(hops), Some(origin), Some(destination)) => Some(Some(Mesh {
            hops,
            origin,
            destination,
        })),
        _ => None,
    }
}

// As each `emit` of this program: the types have no common trait, and a closure for each would be as long.
pub fn emit(mut fields: Fields<'_>, scratch: &mut [u8], out: &mut Out) -> Option<()>
    ensures { IfNone result (out.new ≡ out.old) }
{
    let mesh = mesh(&mut fields)?;
    let broadcast = fields::optional_byte(&mut fields)?;
    let r = Relay { mesh, broadcast };
    let len = r.buffer_len();
    let room = room::made(&mut fields, len, scratch)?;
    let written = r.emit(room);
    room::put_written(out, len, written, room);
    Some(())
}
