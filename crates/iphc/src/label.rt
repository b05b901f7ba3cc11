// The flow label of an IPv6 header (RFC 8200, 6): 20 bits.

// A flow label. No more than 20 bits are ever read into one (proofs/Labels.antt).
#[derive(Clone, Copy)]
pub struct FlowLabel(pub u32);
