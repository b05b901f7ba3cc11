// Bytes and frames put into lent room that is large enough.
// `buf, at` is the lent room and a place in it, as the writers of octets take them.
ghost use Rattle.std.specs.Prelude.{◌≡◌, ◌+◌, ◌≤◌, length};
ghost use Rattle.octets.specs.Write.{put};
ghost use Rattle.pcap.specs.Frames.{head_bytes, frame_bytes};

use octets::write::{put_le16, put_le32};

// The bytes of the file header.
pub const HEAD: usize = 24;

// The bytes before each frame.
pub const FRONT: usize = 16;

// The milliseconds of a second.
const SECOND: u32 = 1000;

// The microseconds of a millisecond.
const MILLISECOND: u32 = 1000;

pub fn put_all(buf: &mut [u8], at: usize, s: &[u8])
    requires { at + length s.now ≤ length buf.old }
    ensures { buf.new ≡ put at s.now buf.old }
{
    buf[at..at + s.len()].copy_from_slice(s);
}

pub fn put_head(buf: &mut [u8])
    ensures { buf.new ≡ put 0 head_bytes buf.old }
{
    put_le32(buf, 0, 0xa1b2_c3d4);
    put_le16(buf, 4, 2);
    put_le16(buf, 6, 4);
    put_le32(buf, 8, 0);
    put_le32(buf, 12, 0);
    put_le32(buf, 16, 127);
    put_le32(buf, 20, 230);
}

// A frame in pcap; the place after it.
// (127 is a clause: the frame is a part of a lent block, or of lent pcap.)
pub fn put_frame(buf: &mut [u8], at: usize, time: u32, frame: &[u8]) -> usize
    requires { (at + 16 + length frame.now ≤ length buf.old) × (length frame.now ≤ 127) }
    ensures { (result ≡ at + (16 + length frame.now))
        × (buf.new
        ≡ put at (frame_bytes (record { time = time; frame = frame.now })) buf.old) }
{
    let n = frame.len() as u32;
    put_le32(buf, at, time / SECOND);
    put_le32(buf, at + 4, time % SECOND * MILLISECOND);
    put_le32(buf, at + 8, n);
    put_le32(buf, at + 12, n);
    put_all(buf, at + 16, frame);
    at + 16 + frame.len()
}
