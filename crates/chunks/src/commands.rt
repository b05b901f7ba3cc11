// What the lines do.
ghost use Rattle.std.specs.Prelude.{◌≡◌, IfNone};

use super::answer;
use feed::{Fed, Reader, chunk, end};
use text::field::{Fields, upto};
use text::input::{Answers, ROOM};
use text::out::Out;

// The reader between two lines, and room for the bytes of a chunk.
// No heap: a room of a fixed size.
#[derive(Drop)]
pub struct Session {
    reader: Reader,
    scratch: [u8; ROOM],
}

impl Session {
    pub fn new() -> Session {
        let reader = Reader::new();
        Session {
            reader,
            scratch: [0; ROOM],
        }
    }

    // What a call found; the reader that it leaves is kept.
    fn told(&mut self, fed: Fed, out: &mut Out) {
        let blocks = fed.blocks;
        answer::found(out, fed.found, &blocks);
        self.reader = fed.reader;
    }

    // `chunk HEX`: the bytes go to the reader.
    fn take(&mut self, mut fields: Fields<'_>, out: &mut Out) -> Option<()>
        ensures { IfNone result (out.new ≡ out.old) }
    {
        let n = fields.last_bytes(&mut self.scratch)?;
        fields.end()?;
        let fed = chunk(self.reader, upto(&self.scratch, n));
        self.told(fed, out);
        Some(())
    }
}

impl Answers for Session {
    // Six frames of 127 bytes in hexadecimal with their times, and a few words.
    const LONGEST: usize = 2048;

    fn answer(&mut self, name: &[u8], fields: Fields<'_>, out: &mut Out) -> Option<()> {
        match name {
            b"chunk" => self.take(fields, out),
            b"end" => {
                fields.end()?;
                let fed = end(self.reader);
                self.told(fed, out);
                Some(())
            }
            b"new" => {
                fields.end()?;
                self.reader = Reader::new();
                out.text(b"ok");
                Some(())
            }
            _ => None,
        }
    }
}
