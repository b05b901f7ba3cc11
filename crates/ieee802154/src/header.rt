// MAC headers, read and written.
// Readers take the lent bytes and a reading place, which is handed on by value (a rule of the project).
ghost use Rattle.octets.specs.Answers.{of_read};
ghost use Rattle.std.specs.Prelude.{◌≡◌};
ghost use Rattle.octets.specs.Write.{put, Emits};
ghost use Rattle.ieee802154.specs.Mac.{sequence, sequence_of, sequence_or, suppresses};
ghost use Rattle.ieee802154.specs.Mac.{repr_of, control_for, header_rest, after_control, header, mac, front_length};
ghost use Rattle.ieee802154.specs.Mac.{length_of, front_bytes, source_bytes, back_bytes, bytes_of};

use super::addr::{Address, Pan, field_len, mode_of, pan_or_zero, put_field};
use super::addressing::{Addressing, read_addressing};
use super::control::{Control, FrameType, FrameVersion};
use super::security::skip_auxiliary;
use octets::cursor::{Cursor, Read};
use octets::refusal::Refusal;
use octets::write::{put_byte, put_le16};

// The bytes of a frame: the frame control field and one more at least, and at most what the radio carries.
const SHORTEST: usize = 3;

const LONGEST: usize = 127;

// The fields of a header.
// (As in `Control`, what stands beside a flag holds in either case.)
#[derive(Clone, Copy)]
pub struct Repr {
    pub frame_type: FrameType,
    pub security_enabled: bool,
    pub frame_pending: bool,
    pub ack_request: bool,
    pub sequence_number: Option<u8>,
    pub pan_id_compression: bool,
    pub frame_version: FrameVersion,
    pub dst_pan_id: Option<Pan>,
    pub dst_addr: Option<Address>,
    pub src_pan_id: Option<Pan>,
    pub src_addr: Option<Address>,
}

fn sequence_or_zero(q: Option<u8>) -> u8
    ensures { result ≡ sequence_or q }
{
    q.unwrap_or(0)
}

impl Repr {
    #[tactic(auto, unfolding(crate::specs::Mac::sequence_of))]
    fn sequence(k: Control, byte: u8) -> Option<u8>
        ensures { result ≡ sequence_of k byte }
    {
        if k.has_sequence() { Some(byte) } else { None }
    }

    // Of three things, as `repr_of` of specs/Mac.antt: a `From` would take them as a tuple, which is no plainer.
    #[tactic(auto, unfolding(crate::specs::Mac::repr_of, crate::specs::Mac::sequence))]
    fn of(k: Control, sequence: Option<u8>, a: Addressing) -> Repr
        ensures { result ≡ repr_of k sequence a }
    {
        let frame_type = k.frame_type;
        let frame_version = k.frame_version;
        let dst = a.dst;
        let src = a.src;
        let dst_pan_id = dst.pan;
        let dst_addr = dst.addr;
        let src_pan_id = src.pan;
        let src_addr = src.addr;
        Repr {
            frame_type,
            security_enabled: k.security_enabled,
            frame_pending: k.frame_pending,
            ack_request: k.ack_request,
            sequence_number: sequence,
            pan_id_compression: k.pan_id_compression,
            frame_version,
            dst_pan_id,
            dst_addr,
            src_pan_id,
            src_addr,
        }
    }

    // What follows the frame control field and the sequence number.
    #[tactic(auto, unfolding(crate::specs::Mac::header_rest, crate::specs::Mac::sequence))]
    fn rest(buf: &[u8], k: Control, sequence: Option<u8>, c: Cursor) -> Read<Repr>
        ensures { of_read result ≡ header_rest k sequence buf.now c.at }
    {
        if k.supported() {
            let (a, d) = read_addressing(buf, c, k)?;
            let e = skip_auxiliary(buf, d, k.security_enabled)?;
            Ok((Repr::of(k, sequence, a), e))
        } else {
            Err(Refusal::Unsupported)
        }
    }

    // The sequence number, unless it is left out.
    #[tactic(auto, unfolding(crate::specs::Mac::sequence))]
    fn read_sequence(buf: &[u8], k: Control, c: Cursor) -> Read<Option<u8>>
        ensures { of_read result ≡ sequence k buf.now c.at }
    {
        if k.omits_sequence() {
            return Ok((None, c));
        }
        let (b, d) = c.byte(buf)?;
        Ok((Repr::sequence(k, b), d))
    }

    // What follows the frame control field.
    #[tactic(auto, unfolding(crate::specs::Mac::after_control))]
    fn after_control(buf: &[u8], k: Control, c: Cursor) -> Read<Repr>
        ensures { of_read result ≡ after_control k buf.now c.at }
    {
        let (q, d) = Repr::read_sequence(buf, k, c)?;
        Repr::rest(buf, k, q, d)
    }

    #[tactic(auto, unfolding(crate::specs::Mac::header))]
    fn header(buf: &[u8]) -> Read<Repr>
        ensures { of_read result ≡ header buf.now 0 }
    {
        let (fc, c) = Cursor::START.le16(buf)?;
        Repr::after_control(buf, Control::from(fc), c)
    }

    // The header and its length, the auxiliary security header included: the payload starts there.
    #[tactic(auto, unfolding(crate::specs::Mac::mac))]
    pub fn parse(buf: &[u8]) -> Read<Repr>
        ensures { of_read result ≡ mac buf.now }
    {
        if buf.len() < SHORTEST {
            return Err(Refusal::Ended);
        }
        if LONGEST < buf.len() {
            return Err(Refusal::BadLength);
        }
        Repr::header(buf)
    }

    // Whether `emit` leaves the sequence number out.
    #[tactic(auto, unfolding(crate::specs::Mac::suppresses))]
    fn suppresses(self) -> bool
        ensures { result ≡ suppresses self }
    {
        let sequence = self.sequence_number;
        let version = self.frame_version;
        let kind = self.frame_type;
        match sequence {
            None => version.may_omit(kind),
            Some(_) => false,
        }
    }

    // How much `emit` writes before the destination address.
    fn front_len(self) -> u8
        ensures { result ≡ front_length self }
    {
        if self.suppresses() { 4 } else { 5 }
    }

    // The length of the header that `emit` writes.
    #[tactic(auto, unfolding(crate::specs::Mac::length_of))]
    pub fn buffer_len(self) -> usize
        ensures { result ≡ length_of self }
    {
        let dst_addr = self.dst_addr;
        let src_addr = self.src_addr;
        let front = self.front_len() as usize;
        let addresses = field_len(dst_addr) + field_len(src_addr);
        if self.pan_id_compression {
            front + addresses
        } else {
            front + 2 + addresses
        }
    }

    // The frame control field that `emit` writes.
    fn control(self) -> Control
        ensures { result ≡ control_for self }
    {
        let frame_type = self.frame_type;
        let frame_version = self.frame_version;
        let dst_addr = self.dst_addr;
        let src_addr = self.src_addr;
        let dst_addr_mode = mode_of(dst_addr);
        let src_addr_mode = mode_of(src_addr);
        let sequence_suppressed = self.suppresses();
        Control {
            frame_type,
            security_enabled: self.security_enabled,
            frame_pending: self.frame_pending,
            ack_request: self.ack_request,
            pan_id_compression: self.pan_id_compression,
            sequence_suppressed,
            dst_addr_mode,
            frame_version,
            src_addr_mode,
        }
    }

    // The frame control field, the sequence number unless it is left out, and the destination PAN.
    #[tactic(auto, unfolding(crate::specs::Mac::front_bytes))]
    fn put_front(self, buf: &mut [u8])
        ensures { buf.new ≡ put 0 (front_bytes self) buf.old }
    {
        let sequence = self.sequence_number;
        let dst = self.dst_pan_id;
        let word = u16::from(self.control());
        let byte = sequence_or_zero(sequence);
        let pan = pan_or_zero(dst);
        put_le16(buf, 0, word);
        if self.suppresses() {
            put_le16(buf, 2, pan.0);
            return;
        }
        put_byte(buf, 2, byte);
        put_le16(buf, 3, pan.0);
    }

    // The source PAN, unless compressed, and the source address.
    #[tactic(auto, unfolding(crate::specs::Mac::source_bytes))]
    fn put_source(self, buf: &mut [u8], at: usize)
        ensures { buf.new ≡ put at (source_bytes self) buf.old }
    {
        if buf.len() <= at {
            return;
        }
        let src_addr = self.src_addr;
        let compressed = self.pan_id_compression;
        if compressed {
            put_field(buf, at, src_addr);
            return;
        }
        let src = self.src_pan_id;
        let pan = pan_or_zero(src);
        put_le16(buf, at, pan.0);
        put_field(buf, at + 2, src_addr);
    }

    // The destination address and what follows it.
    #[tactic(auto, unfolding(crate::specs::Mac::back_bytes))]
    fn put_back(self, buf: &mut [u8])
        ensures { buf.new ≡ put (front_length self) (back_bytes self) buf.old }
    {
        let dst_addr = self.dst_addr;
        let at = self.front_len() as usize;
        let n = field_len(dst_addr);
        put_field(buf, at, dst_addr);
        self.put_source(buf, at + n);
    }

    // Writes the header into the front of the room. A missing sequence number is left out where it may be; else it is
    // written as zero, as a missing PAN is.
    #[tactic(auto, unfolding(crate::specs::Mac::length_of, crate::specs::Mac::bytes_of))]
    pub fn emit(self, buf: &mut [u8]) -> Result<usize, Refusal>
        ensures { Emits result (length_of self) (bytes_of self) buf.old buf.new }
    {
        let n = self.buffer_len();
        if buf.len() < n {
            return Err(Refusal::NoRoom);
        }
        self.put_front(buf);
        self.put_back(buf);
        Ok(n)
    }
}
