// The fields of pcap: each is read, 1, and then judged.
ghost use Rattle.octets.specs.Answers.{of_read, of_skip};
ghost use Rattle.std.specs.Prelude.{◌≡◌, ◌+◌, ◌*◌, ◌/◌};
ghost use Rattle.octets.specs.Read.{got, refused, and_then, choose};
ghost use Rattle.octets.specs.Refusal.{number_of};
ghost use Rattle.pcap.specs.Frames.{limits, zone, version, head, whole_time, time_field, same_field};
ghost use Rattle.pcap.specs.Frames.{length_field, framed, frame_field};
ghost use Rattle.pcap.specs.Answers.{of_frame, of_frame_at};

use octets::cursor::{Cursor, Read};
use octets::refusal::Refusal;

// The milliseconds of a second.
// (In 64 bits: the whole time is judged against 32.)
const SECOND: u64 = 1000;

// The microseconds of a millisecond.
const MILLISECOND: u32 = 1000;

// Where a frame lies: its time, where its bytes begin, and how many they are. Nothing stays lent for it.
#[derive(Clone, Copy)]
pub struct FrameAt {
    pub time: u32,
    pub start: Cursor,
    pub len: usize,
}

// A frame: its time, and its bytes, which are a part of those that were lent.
#[derive(Clone, Copy)]
pub struct TimedFrame<'a> {
    pub time: u32,
    pub bytes: &'a [u8],
}

// The place after a field that must be x; another is refused.
fn expect<T: PartialEq + Copy>(field: Read<T>, x: T, e: Refusal) -> Result<Cursor, Refusal>
    ensures { of_skip result
        ≡ and_then (of_read field) (λ p. choose (T.eq p.value x) (got tt p.next) (refused (number_of e))) }
{
    let (y, c) = field?;
    if y == x {
        return Ok(c);
    }
    Err(e)
}

#[tactic(auto, unfolding(crate::specs::Frames::limits))]
fn limits(s: &[u8], c: Cursor) -> Result<Cursor, Refusal>
    ensures { of_skip result ≡ limits s.now c.at }
{
    let d = expect(c.le32(s), 127, Refusal::Unsupported)?;
    expect(d.le32(s), 230, Refusal::Unsupported)
}

// (`version` and `limits` differ in widths, numbers and what follows: one function of them would take all of these.)
#[tactic(auto, unfolding(crate::specs::Frames::zone))]
fn zone(s: &[u8], c: Cursor) -> Result<Cursor, Refusal>
    ensures { of_skip result ≡ zone s.now c.at }
{
    let d = expect(c.le32(s), 0, Refusal::Unsupported)?;
    let f = expect(d.le32(s), 0, Refusal::Unsupported)?;
    limits(s, f)
}

#[tactic(auto, unfolding(crate::specs::Frames::version))]
fn version(s: &[u8], c: Cursor) -> Result<Cursor, Refusal>
    ensures { of_skip result ≡ version s.now c.at }
{
    let d = expect(c.le16(s), 2, Refusal::Unsupported)?;
    let f = expect(d.le16(s), 4, Refusal::Unsupported)?;
    zone(s, f)
}

// The file header.
#[tactic(auto, unfolding(crate::specs::Frames::head))]
pub fn head(s: &[u8], c: Cursor) -> Result<Cursor, Refusal>
    ensures { of_skip result ≡ head s.now c.at }
{
    let d = expect(c.le32(s), 0xa1b2_c3d4, Refusal::NotThisHeader)?;
    version(s, d)
}

fn judge_time(sec: u32, micro: u32, c: Cursor) -> Read<u32>
    ensures { of_read result ≡ choose (whole_time sec micro) (got (sec * 1000 + micro / 1000) c.at) (refused 18) }
{
    if 1_000_000 <= micro {
        return Err(Refusal::NotHeld);
    }
    if micro % MILLISECOND != 0 {
        return Err(Refusal::NotHeld);
    }
    let t = (sec as u64) * SECOND + (micro / MILLISECOND) as u64;
    if 0x1_0000_0000 <= t {
        return Err(Refusal::NotHeld);
    }
    Ok((t as u32, c))
}

#[tactic(auto, unfolding(crate::specs::Frames::time_field))]
fn time(s: &[u8], c: Cursor) -> Read<u32>
    ensures { of_read result ≡ time_field s.now c.at }
{
    let (sec, d) = c.le32(s)?;
    let (micro, f) = d.le32(s)?;
    judge_time(sec, micro, f)
}

#[tactic(auto, unfolding(crate::specs::Frames::same_field))]
fn same(s: &[u8], c: Cursor, n: u32) -> Read<u32>
    ensures { of_read result ≡ same_field n s.now c.at }
{
    let (m, d) = c.le32(s)?;
    if m == n {
        return Ok((n, d));
    }
    Err(Refusal::BadLength)
}

#[tactic(auto, unfolding(crate::specs::Frames::length_field))]
fn frame_len(s: &[u8], c: Cursor) -> Read<u32>
    ensures { of_read result ≡ length_field s.now c.at }
{
    let (n, d) = c.le32(s)?;
    if 127 < n {
        return Err(Refusal::BadLength);
    }
    same(s, d, n)
}

#[tactic(auto, unfolding(crate::specs::Frames::framed, crate::specs::Frames::bytes_field, octets::specs::Read::skip))]
fn framed(s: &[u8], time: u32, c: Cursor, n: usize) -> Read<TimedFrame<'_>>
    ensures { of_frame result ≡ framed time n s.now c.at }
{
    let d = c.skip(s, n)?;
    Ok((
        TimedFrame {
            time,
            bytes: &s[c.at..d.at],
        },
        d,
    ))
}

#[tactic(auto, unfolding(crate::specs::Frames::framed, crate::specs::Frames::bytes_field, octets::specs::Read::skip))]
fn framed_at(s: &[u8], time: u32, c: Cursor, n: usize) -> Result<FrameAt, Refusal>
    ensures { of_frame_at s.now result ≡ framed time n s.now c.at }
{
    c.skip(s, n)?;
    Ok(FrameAt {
        time,
        start: c,
        len: n,
    })
}

// Where a frame lies, with what stands before it read.
#[tactic(auto, unfolding(crate::specs::Frames::frame_field))]
pub fn frame_at(s: &[u8], c: Cursor) -> Result<FrameAt, Refusal>
    ensures { of_frame_at s.now result ≡ frame_field s.now c.at }
{
    let (t, d) = time(s, c)?;
    let (n, f) = frame_len(s, d)?;
    framed_at(s, t, f, n as usize)
}

// A frame with what stands before it.
#[tactic(auto, unfolding(crate::specs::Frames::frame_field))]
pub fn frame(s: &[u8], c: Cursor) -> Read<TimedFrame<'_>>
    ensures { of_frame result ≡ frame_field s.now c.at }
{
    let (t, d) = time(s, c)?;
    let (n, f) = frame_len(s, d)?;
    framed(s, t, f, n as usize)
}
