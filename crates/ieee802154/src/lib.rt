// IEEE 802.15.4: addresses and the MAC header of a frame.
//
// - `addr`: PAN identifiers and addresses, the interface identifier and the link-local address that an extended one
//   gives.
// - `control`: the frame control field, its one-number types, and which PAN identifiers a frame carries.
// - `addressing`: the addressing fields. `security`: the auxiliary security header, which is passed over.
// - `header`: the header as a whole, read and written.
//
// `Repr::parse` is specs/Mac.antt's `mac` on every slice of bytes: a header and its length, or the refusal's number.
// `Repr::emit` writes exactly the bytes that `bytes_of` lists, or refuses, 7, and leaves the room as it was. proofs/
// shows that a length read is the sum of the fields' widths and within the frame (Lengths), and that exactly the
// headers that `round_trips` admits read back as they were written (RoundTrips, Exact). No function asks anything of
// its caller, and each contract fixes the answer and the lent bytes.
#![tactic(auto)]

pub mod addr;
pub mod addressing;
pub mod control;
pub mod header;
pub mod security;

pub use addr::{Address, Pan};
pub use control::{AddressingMode, FrameType, FrameVersion};
pub use header::Repr;
