// Rooms that writers write into.
use super::answer;
use octets::refusal::Refusal;
use text::field::Fields;
use text::out::Out;

// The largest room.
pub const MOST: usize = 512;

// What stands in a room before a writer runs: a byte written past the header is seen.
// Also in cutter: `text` lends no rooms to writers, and the filling and the test are one call each.
const FILL: u8 = 0xa5;

// The value of one to three decimal digits.
fn decimal(word: &[u8]) -> Option<usize> {
    if word.is_empty() {
        return None;
    }
    if 3 < word.len() {
        return None;
    }
    let value = Fields::new(word).decimal()?;
    Some(value as usize)
}

// How large a room a field asks for, by the writer's length: as long, or so many bytes more or less, or a number.
fn size(word: &[u8], len: usize) -> Option<usize> {
    match word {
        b"=" => Some(len),
        [b'+', more @ ..] => len.checked_add(decimal(more)?),
        [b'-', less @ ..] => len.checked_sub(decimal(less)?),
        _ => decimal(word),
    }
}

// The room that a line's last field asks for, filled, at the front of a larger one.
pub fn made<'a>(
    fields: &mut Fields<'_>,
    len: usize,
    scratch: &'a mut [u8],
) -> Option<&'a mut [u8]> {
    let n = size(fields.word()?, len)?;
    fields.end()?;
    if MOST < n {
        return None;
    }
    let room = scratch.get_mut(..n)?;
    room.fill(FILL);
    Some(room)
}

// The bytes of a room, '-' for none.
fn put_room(out: &mut Out, room: &[u8]) {
    out.put(b' ');
    out.bytes_or_dash(room);
}

// A writer's answer: the length that it announced, and what it answered. One that wrote another length than it
// announced, or wrote and refused, has a longer line, which the comparison sees.
pub fn put_written(out: &mut Out, len: usize, written: Result<usize, Refusal>, room: &[u8]) {
    match written {
        Ok(n) => {
            answer::ok(out, len);
            if n != len {
                out.text(b" wrote ");
                out.decimal(n as u64);
            }
            put_room(out, room);
        }
        Err(e) => {
            out.refused(e);
            if room.iter().all(|b| *b == FILL) {
                return;
            }
            out.text(b" wrote");
            put_room(out, room);
        }
    }
}
