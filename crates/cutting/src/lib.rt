// Cutting what we send: the frames of an IPv6 datagram (RFC 4944, 5.3; RFC 6282).
//
// - `write`: `frame` writes the frame of a number, and `frames` counts them.
// - `link`: what a frame says beside the datagram.
// - `fields`, `head` and `piece` are its parts: the datagram's fields, the headers, and where it is cut.
//
// Each answer, and the lent bytes after it, are those of specs/Cut.antt's `cut`, on every input.
#![tactic(auto)]

mod fields;
mod head;
pub mod link;
mod piece;
pub mod write;

pub use link::Link;
pub use write::{frame, frames};
