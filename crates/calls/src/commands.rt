// What the lines do.
ghost use Rattle.std.specs.Prelude.{◌≡◌, IfNone};

use super::{answer, fields};
use ieee802154::Address;
use reassembly::Gateway;
use receiver::receive;
use text::field::{Fields, part};
use text::input::{Answers, ROOM};
use text::out::Out;
use words::WORDS;

const NO_GATEWAY: Gateway = Gateway {
    addr: Address::Absent,
    pan: None,
};

// The table in its numbers (crate `words`), once a list of gateways was taken; and room for what a call says, for the
// memory that it lends and for the datagram that comes out.
// No heap: rooms of a fixed size.
#[derive(Drop)]
pub struct Session {
    table: Option<[u64; WORDS]>,
    scratch: [u8; ROOM],
    lent: [u8; ROOM],
    datagram: [u8; ROOM],
}

// The gateways of a line, and how many there are. Past the fourth only that counts, so any seat does for them.
// An array and a count, as `words::begin` takes them: no heap, and over four are counted, not held.
fn gateways(mut fields: Fields<'_>) -> Option<([Gateway; 4], usize)> {
    let none = NO_GATEWAY;
    let mut all = [none; 4];
    for count in 0..=fields.line.len() {
        if fields.end().is_some() {
            return Some((all, count));
        }
        all[count % 4] = fields::gateway(&mut fields)?;
    }
    None
}

impl Session {
    // There is no table yet.
    pub fn new() -> Session {
        Session {
            table: None,
            scratch: [0; ROOM],
            lent: [0; ROOM],
            datagram: [0; ROOM],
        }
    }

    // `gateways GATEWAY GATEWAY ..`: the table is made.
    fn begin(&mut self, fields: Fields<'_>, out: &mut Out) -> Option<()>
        ensures { IfNone result (out.new ≡ out.old) }
    {
        let (all, count) = gateways(fields)?;
        if self.table.is_some() {
            return None;
        }
        let mut table = [0u64; WORDS];
        match words::begin(&mut table, all, count) {
            Ok(()) => {
                self.table = Some(table);
                out.text(b"ok");
            }
            Err(e) => out.refused(e),
        }
        Some(())
    }

    // `call TIME FRAME CONTEXTS MEMLEN OUTLEN`: so much of the memory and of the output is lent as the line says. The
    // frame stands at the front of the scratch room, and the contexts behind it.
    fn call(&mut self, mut fields: Fields<'_>, out: &mut Out) -> Option<()>
        ensures { IfNone result (out.new ≡ out.old) }
    {
        let time = fields.decimal()?;
        let n = fields.bytes(&mut self.scratch)?;
        let m = fields.bytes(self.scratch.get_mut(n..)?)?;
        let mem = fields.decimal()? as usize;
        let room = fields.decimal()? as usize;
        fields.end()?;
        let table = self.table.as_mut()?;
        let lent = self.lent.get_mut(..mem)?;
        let datagram = self.datagram.get_mut(..room)?;
        let frame = part(&self.scratch, 0, n);
        let contexts = part(&self.scratch, n, m);
        let answer = receive(table, time, frame, contexts, lent, datagram);
        answer::outcome(out, answer, datagram);
        answer::slots(out, table);
        Some(())
    }
}

impl Answers for Session {
    // 2,047 bytes in hexadecimal, eight keys and a few words.
    const LONGEST: usize = 8192;

    fn answer(&mut self, name: &[u8], fields: Fields<'_>, out: &mut Out) -> Option<()> {
        match name {
            b"gateways" => self.begin(fields, out),
            b"call" => self.call(fields, out),
            _ => None,
        }
    }
}
