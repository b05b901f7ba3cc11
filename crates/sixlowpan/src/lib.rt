// 6LoWPAN: IPv6 over IEEE 802.15.4 (RFC 4944 framing and fragmentation, RFC 6282 header compression).
//
// - `dispatch`: which header a payload starts with. `frag`: fragment headers, offsets in units of 8 octets, and the key
//   that tells the parts of one datagram from those of another.
// - `nhc`: compressed UDP and extension headers. `protocol` and `next`: the next header field. (Compressed IPv6 headers
//   are the crate `iphc`.)
//
// Each reader equals a definition written from the RFC, on every input; each writer writes exactly the bytes that its
// definition lists, or refuses, 7, and leaves the room as it was. What is written reads back (proofs/).
#![tactic(auto)]

pub mod dispatch;
pub mod frag;
pub mod next;
pub mod nhc;
pub mod protocol;

pub use dispatch::SixlowpanPacket;
pub use protocol::{IpProtocol, NextHeader};
