// Datagrams put together from their parts: the slot table.
//
// - `slot`: addresses as two numbers, keys, and a slot's record. `part`: a part offered to one slot and its 2,048
//   bytes.
// - `table`: what a table is, the list of its gateways (`seat`), and a part taken by one of its slots (`take_at`). The
//   table itself is kept, aged and searched as numbers, in crate `words`.
//
// What a call does to the table, the lent memory and the output is specs/Table.antt's `step`. The contract of each
// function is a piece of it; the receiver takes them in their order. proofs/ shows of every table that comes from
// calls that no gateway holds over three slots, that the free slots suffice for the gateways that hold none, that
// such a gateway can always open one, that openings less endings, plus free slots, is 8, and that each byte handed
// out from a slot, a computed checksum aside, is that of a part taken under its key since its opening.
#![tactic(auto)]

pub mod part;
pub mod slot;
pub mod table;

pub use part::{InSlot, Outcome};
pub use slot::{Key, Node, Slot, Source};
pub use table::{Gateway, Table, Target, is_short, seat, take_at};
