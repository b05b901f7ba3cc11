// The slot table in the 149 numbers that its caller keeps, read and changed in place.
//
// - `read`: the last time, and a slot's record.
// - `search`: the slot of a key, the slots that a gateway holds, the slot that it may open; no record is made for it.
// - `write`: a slot's record stored, the time taken, a table begun.
//
// Which number is which is in specs/Words.antt, and `table_in` there is the table that the numbers are: the contracts
// speak of it, and two runs of numbers that are one table are one (proofs/Unique.antt).
#![tactic(auto)]

pub mod read;
pub mod search;
pub mod write;

pub use read::{last, slot_at};
pub use search::{count_free, count_held, find, is_gateway, to_open};
pub use write::{age, begin, put_slot};

// The numbers of a table, and of a slot; where the last time stands, and where the gateways' seats begin.
pub const WORDS: usize = 149;

pub const SLOT_WORDS: usize = 17;

pub const LAST: usize = 136;

pub const SEATS: usize = 137;

// The seats of gateways that a table has.
pub const GATEWAYS: usize = 4;
