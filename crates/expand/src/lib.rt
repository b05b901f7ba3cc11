// From a compressed frame to an IPv6 datagram (RFC 6282 to RFC 8200 and RFC 768).
//
// - `datagram`: `expand` writes the datagram that a frame stands for, or the first part of one, into lent bytes, and
//   `measure` answers its length beforehand; `fill` writes it into a room that a refusal clears.
// - `nested`: the compressed headers, read and put in full, by two functions that call each other, for `expand` and
//   `measure`. `chain`: each header read, and the same in loops, for `fill`. `ip`: the full headers, put.
// - `checksum`: the UDP checksum, computed and put into its place. `copy`: bytes of a slice put into lent bytes, and
//   lent bytes cleared.
//
// No public function asks anything of its caller. Each answer equals a definition of specs/, written from the RFCs, on
// every input, and so do the lent bytes: a refused call writes none, but for `fill`, which then writes zeros.
#![tactic(auto)]

mod chain;
pub mod checksum;
pub mod copy;
pub mod datagram;
mod ip;
mod nested;

pub use datagram::{Expanded, LONGEST, expand, fill, measure};
