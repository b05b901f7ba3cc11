// Fields put into lent bytes at a place. What lies past the end is dropped.
// `buf, at` is the lent room and a place in it: the room is the caller's, and the place goes on by value.
// No `copy_from_slice` here: slices are taken by their index in the crates under `lift_c` (docs/DECISIONS.md).
ghost use Rattle.std.specs.Prelude.{◌≡◌};
ghost use Rattle.octets.specs.Write.{put, byte_bytes, be16_bytes, be32_bytes, be64_bytes, le16_bytes, le32_bytes};
ghost use Rattle.octets.specs.Write.{le64_bytes};

pub fn put_byte(buf: &mut [u8], at: usize, x: u8)
    ensures { buf.new ≡ put at (byte_bytes x) buf.old }
{
    if at < buf.len() {
        buf[at] = x;
    }
}

// The high byte first. (As for `Cursor`: a trait over the width would be longer than the functions.) The room is
// tested once: where it ends within the number, each half tests for itself; else each byte is taken from the number
// itself, and the compiler makes one store of them.
pub fn put_be16(buf: &mut [u8], at: usize, x: u16)
    ensures { buf.new ≡ put at (be16_bytes x) buf.old }
{
    if at < buf.len() {
        if buf.len() - at < 2 {
            put_byte(buf, at, (x / 256) as u8);
            put_byte(buf, at + 1, (x % 256) as u8);
            return;
        }
        buf[at] = (x / 256) as u8;
        buf[at + 1] = (x % 256) as u8;
    }
}

pub fn put_be32(buf: &mut [u8], at: usize, x: u32)
    ensures { buf.new ≡ put at (be32_bytes x) buf.old }
{
    if at < buf.len() {
        if buf.len() - at < 4 {
            put_be16(buf, at, (x / 0x1_0000) as u16);
            put_be16(buf, at + 2, (x % 0x1_0000) as u16);
            return;
        }
        buf[at] = (x / 0x100_0000) as u8;
        buf[at + 1] = (x / 0x1_0000 % 256) as u8;
        buf[at + 2] = (x / 0x100 % 256) as u8;
        buf[at + 3] = (x % 256) as u8;
    }
}

pub fn put_be64(buf: &mut [u8], at: usize, x: u64)
    ensures { buf.new ≡ put at (be64_bytes x) buf.old }
{
    if at < buf.len() {
        if buf.len() - at < 8 {
            put_be32(buf, at, (x / 0x1_0000_0000) as u32);
            put_be32(buf, at + 4, (x % 0x1_0000_0000) as u32);
            return;
        }
        buf[at] = (x / 0x100_0000_0000_0000) as u8;
        buf[at + 1] = (x / 0x1_0000_0000_0000 % 256) as u8;
        buf[at + 2] = (x / 0x100_0000_0000 % 256) as u8;
        buf[at + 3] = (x / 0x1_0000_0000 % 256) as u8;
        buf[at + 4] = (x / 0x100_0000 % 256) as u8;
        buf[at + 5] = (x / 0x1_0000 % 256) as u8;
        buf[at + 6] = (x / 0x100 % 256) as u8;
        buf[at + 7] = (x % 256) as u8;
    }
}

// The low byte first. (By halves, as the readers; the three stay apart for the reason above.)
pub fn put_le16(buf: &mut [u8], at: usize, x: u16)
    ensures { buf.new ≡ put at (le16_bytes x) buf.old }
{
    if at < buf.len() {
        put_byte(buf, at, (x % 256) as u8);
        put_byte(buf, at + 1, (x / 256) as u8);
    }
}

pub fn put_le32(buf: &mut [u8], at: usize, x: u32)
    ensures { buf.new ≡ put at (le32_bytes x) buf.old }
{
    if at < buf.len() {
        put_le16(buf, at, (x % 0x1_0000) as u16);
        put_le16(buf, at + 2, (x / 0x1_0000) as u16);
    }
}

pub fn put_le64(buf: &mut [u8], at: usize, x: u64)
    ensures { buf.new ≡ put at (le64_bytes x) buf.old }
{
    if at < buf.len() {
        put_le32(buf, at, (x % 0x1_0000_0000) as u32);
        put_le32(buf, at + 4, (x / 0x1_0000_0000) as u32);
    }
}
