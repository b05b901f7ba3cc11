// The commands, by name.
ghost use Rattle.std.specs.Prelude.{◌≡◌, IfNone};

use super::{compressed, fragment, mac, nhc, relays};
use text::field::{Fields, upto};
use text::input::{Answers, ROOM};
use text::out::Out;

// Room for the bytes of a line's fields, or for a writer.
// No heap: a room of a fixed size.
#[derive(Drop)]
pub struct Session {
    scratch: [u8; ROOM],
}

impl Session {
    pub fn new() -> Session {
        Session { scratch: [0; ROOM] }
    }

    // A command whose one field is bytes.
    fn read<F: FnOnce(&[u8], &mut Out)>(
        &mut self,
        mut fields: Fields<'_>,
        out: &mut Out,
        parse: F,
    ) -> Option<()>
        requires { F.IsAlwaysCallable parse }
        ensures { IfNone result (out.new ≡ out.old) }
    {
        let n = fields.last_bytes(&mut self.scratch)?;
        fields.end()?;
        parse(upto(&self.scratch, n), out);
        Some(())
    }
}

impl Answers for Session {
    // 512 bytes in hexadecimal and a few words, with room to spare.
    const LONGEST: usize = 4096;

    const READS_ON: bool = false;

    const STOPS_AT_ONCE: bool = false;

    fn answer(&mut self, name: &[u8], fields: Fields<'_>, out: &mut Out) -> Option<()> {
        // By name and in no table of functions: the commands are of three shapes, so a table would hold closures.
        match name {
            b"mac.parse" => self.read(fields, out, mac::parse),
            b"mac.emit" => mac::emit(fields, &mut self.scratch, out),
            b"addr.from" => self.read(fields, out, mac::address),
            b"addr.info" => mac::info(fields, out),
            b"dispatch" => self.read(fields, out, fragment::dispatch),
            b"frag.parse" => self.read(fields, out, fragment::parse),
            b"frag.emit" => fragment::emit(fields, &mut self.scratch, out),
            b"key" => fragment::key(fields, out),
            b"nhc.dispatch" => self.read(fields, out, nhc::dispatch),
            b"ext.parse" => self.read(fields, out, nhc::ext_parse),
            b"ext.emit" => nhc::ext_emit(fields, &mut self.scratch, out),
            b"udp.parse" => self.read(fields, out, nhc::udp_parse),
            b"udp.emit" => nhc::udp_emit(fields, &mut self.scratch, out),
            b"iphc.parse" => compressed::parse(fields, &mut self.scratch, out),
            b"iphc.emit" => compressed::emit(fields, &mut self.scratch, out),
            b"relay.parse" => self.read(fields, out, relays::parse),
            b"relay.emit" => relays::emit(fields, &mut self.scratch, out),
            _ => None,
        }
    }
}
