// What the lines do.
ghost use Rattle.std.specs.Prelude.{◌≡◌, IfNone};

use super::fields;
use super::room::{MOST, fill, is_filled};
use cutting::{Link, frame, frames};
use octets::refusal::Refusal;
use text::field::{Fields, upto};
use text::input::{Answers, ROOM};
use text::out::Out;

// Room for what the lines say: for a datagram, and for a frame of it.
// No heap: rooms of a fixed size.
#[derive(Drop)]
pub struct Session {
    datagram: [u8; ROOM],
    room: [u8; ROOM],
}

// The length that a call answered, or why it refused.
fn put_length(out: &mut Out, answer: Result<usize, Refusal>) {
    match answer {
        Ok(len) => {
            out.text(b"ok ");
            out.decimal(len as u64);
        }
        Err(e) => out.refused(e),
    }
}

// The answer of a call, and the room. One that refused and yet wrote has a longer line.
// Not as replay's: no length is announced before the frame is written.
fn put_written(out: &mut Out, written: Result<usize, Refusal>, room: &[u8]) {
    put_length(out, written);
    if written.is_err() {
        if is_filled(room) {
            return;
        }
        out.text(b" wrote");
    }
    out.put(b' ');
    out.bytes_or_dash(room);
}

impl Session {
    pub fn new() -> Session {
        Session {
            datagram: [0; ROOM],
            room: [0; ROOM],
        }
    }

    // `cut PAN SRC DST SEQ TAG LIMIT K ROOM DATAGRAM`.
    fn cut(&mut self, mut fields: Fields<'_>, out: &mut Out) -> Option<()>
        ensures { IfNone result (out.new ≡ out.old) }
    {
        let link = fields::link(&mut fields)?;
        let k = fields.decimal()?;
        let n = fields.decimal()? as usize;
        let len = fields.last_bytes(&mut self.datagram)?;
        fields.end()?;
        if MOST < n {
            return None;
        }
        let datagram = upto(&self.datagram, len);
        let rooms = &mut self.room[..];
        let room = &mut rooms[..n];
        fill(room);
        let written = frame(datagram, link, fields::place(k), room);
        put_written(out, written, room);
        Some(())
    }

    // `frames PAN SRC DST SEQ TAG LIMIT DATAGRAM`.
    fn count(&mut self, mut fields: Fields<'_>, out: &mut Out) -> Option<()>
        ensures { IfNone result (out.new ≡ out.old) }
    {
        let link = fields::link(&mut fields)?;
        let len = fields.last_bytes(&mut self.datagram)?;
        fields.end()?;
        put_length(out, frames(upto(&self.datagram, len), link));
        Some(())
    }
}

impl Answers for Session {
    // The largest room in hexadecimal and a few words.
    const LONGEST: usize = 33000;

    fn answer(&mut self, name: &[u8], fields: Fields<'_>, out: &mut Out) -> Option<()> {
        match name {
            b"cut" => self.cut(fields, out),
            b"frames" => self.count(fields, out),
            _ => None,
        }
    }
}
