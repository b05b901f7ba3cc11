// What a frame brings: a whole datagram, a part of one, or a refusal.
//
// - `arrival`: a frame's MAC header, judged, and the relays' headers behind it: who sends it to whom, and where its
//   payload begins.
// - `payload`: what stands there: a whole datagram or a part of one, compressed headers in full.
//
// The answers are those of specs/Incoming.antt on every input, and the checks come in the scope document's order. The
// gateway test stands between the two: the sender is judged before the payload is looked at.
#![tactic(auto)]

pub mod arrival;
pub mod payload;

pub use arrival::Arrival;
pub use payload::Payload;
