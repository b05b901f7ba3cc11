// Octets in and out: the ground that every header stands on.
//
// - `refusal`: why a call was refused, with the scope document's numbers.
// - `cursor`: a reading place handed on by value. A read answers the field and the place after it, or a refusal, and it
//   is what specs/Read.antt says, on every slice and at every place.
// - `write`: fields put into lent bytes. A writer is total: what lies past the end is dropped, every other byte stays.
// - `ipv6`: an IPv6 address as two numbers.
//
// No function asks anything of its caller, and each contract fixes the answer and the lent bytes.
#![tactic(auto)]

pub mod cursor;
pub mod ipv6;
pub mod refusal;
pub mod write;
