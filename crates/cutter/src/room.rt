// Rooms that frames are written into.

// The largest room.
pub const MOST: usize = 16384;

// What stands in a room before a frame is written: a byte written past the frame is seen.
// Also in replay: `text` lends no rooms to writers, and the filling and the test are one call each.
const FILL: u8 = 0xa5;

pub fn fill(room: &mut [u8]) {
    room.fill(FILL);
}

pub fn is_filled(room: &[u8]) -> bool {
    room.iter().all(|b| *b == FILL)
}
