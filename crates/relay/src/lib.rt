// The headers that relays put in front of ours (RFC 4944, 5.2 and 11.1).
//
// - `mesh`: who sent a datagram and for whom it is, where the MAC header names only the ends of a hop, and the hops
//   left.
// - `broadcast`: the number that tells a datagram flooded through the mesh from the next one.
// - `headers`: both in a row, each there or not, read and written.
//
// `Relay::read` is specs/Headers.antt's `relay` on every slice and at every place, and `Relay::emit` writes exactly the
// bytes that `relay_bytes` lists, or refuses and leaves the room as it was. proofs/ shows that what is written reads
// back exactly where no further header of the two follows (Trips), how far the headers go and why they are refused
// (Spans), and that no address that was read is absent (Parts). No function asks anything of its caller, and each
// contract fixes the answer and the lent bytes.
#![tactic(auto)]

pub mod broadcast;
pub mod headers;
pub mod mesh;

pub use headers::Relay;
pub use mesh::Mesh;
