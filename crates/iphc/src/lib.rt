// Compressed IPv6 headers, IPHC (RFC 6282, 3).
//
// - `header`: the header as a whole, `Repr`, read and written. `context`: the prefixes that compressed addresses refer
//   to.
// - `label`: the flow label, 20 bits.
// - `read`, `form` and `emit` are its parts: the reader field by field, how an address is written, the writer.
//
// `Repr::read` is specs/Iphc.antt's `iphc` on every slice, at every place, with any contexts and link-layer addresses.
// `Repr::emit` writes exactly the bytes that `bytes_of` of specs/Emit.antt lists, at most 36, or refuses, 7, and leaves
// the room as it was. What is written reads back with the same link-layer addresses (proofs/RoundTrip.antt); a length
// read is the sum of the widths that the first two bytes announce, and within the bytes (proofs/Lengths.antt). No bytes
// that read as the same header are fewer than those that are written, but for one exception (specs/Shortest.antt,
// proofs/Shortest.antt).
#![tactic(auto)]

pub mod context;
mod emit;
mod form;
pub mod header;
pub mod label;
mod read;

pub use context::AddressContext;
pub use header::Repr;
pub use label::FlowLabel;
pub use read::LinkAddresses;
