// What follows a header: a protocol number, carried inline or compressed.

// The number of a protocol: every number, named or not.
#[derive(Clone, Copy, PartialEq, Eq)]
pub struct IpProtocol(pub u8);

impl IpProtocol {
    pub const HOP_BY_HOP: IpProtocol = IpProtocol(0);

    pub const UDP: IpProtocol = IpProtocol(17);

    pub const IPV6_ROUTE: IpProtocol = IpProtocol(43);

    pub const IPV6_FRAG: IpProtocol = IpProtocol(44);

    pub const ICMPV6: IpProtocol = IpProtocol(58);

    pub const IPV6_OPTS: IpProtocol = IpProtocol(60);
}

// The next header field of a compressed header.
#[derive(Clone, Copy, PartialEq, Eq)]
pub enum NextHeader {
    // The next header is compressed too, with NHC.
    Compressed,
    // The next header's number is carried inline.
    Uncompressed(IpProtocol),
}
