// IPv6 addresses.
ghost use Rattle.std.specs.Prelude.{◌≡◌};
ghost use Rattle.octets.specs.Ipv6.{is_unspecified, is_multicast, is_link_local};

// An address as the RFCs speak of it: the prefix, its first eight bytes, and the interface identifier, its last eight,
// each as the number that the bytes are, the first byte high.
#[derive(Clone, Copy, PartialEq, Eq)]
pub struct Ipv6Addr {
    pub prefix: u64,
    pub iid: u64,
}

impl Ipv6Addr {
    pub const UNSPECIFIED: Ipv6Addr = Ipv6Addr { prefix: 0, iid: 0 };

    // The prefix fe80::/64.
    pub const LINK_LOCAL: u64 = 0xfe80_0000_0000_0000;

    pub fn is_unspecified(self) -> bool
        ensures { result ≡ is_unspecified self }
    {
        self == Ipv6Addr::UNSPECIFIED
    }

    pub fn is_multicast(self) -> bool
        ensures { result ≡ is_multicast self }
    {
        self.prefix / 0x100_0000_0000_0000 == 0xff
    }

    pub fn is_link_local(self) -> bool
        ensures { result ≡ is_link_local self }
    {
        self.prefix == Ipv6Addr::LINK_LOCAL
    }
}
