// Why a call was refused: one case for each number of the scope document. `number_of` of specs/Refusal.antt gives the
// number of each.
ghost use Rattle.std.specs.Prelude.{◌≡◌};
ghost use Rattle.octets.specs.Refusal.{number_of};

#[derive(Clone, Copy, Debug, PartialEq, Eq)]
pub enum Refusal {
    // The bytes end before a needed field.
    Ended,
    // The leading bits are not this header's.
    NotThisHeader,
    // A reserved or unsupported mode or version.
    Unsupported,
    // A length that is not allowed.
    BadLength,
    // The context is not in the list.
    NoContext,
    // A needed link-layer address is absent.
    NoAddress,
    // The lent room is too small.
    NoRoom,
    // The time is earlier than the last one taken.
    EarlierTime,
    // The source is not a gateway of the table.
    NotGateway,
    // A part that no datagram can have.
    BadPart,
    // The part clashes with bytes that were taken.
    Clash,
    // No slot may be opened.
    NoSlot,
    // Secured, not a Data frame, or a header that is not expanded.
    NotExpanded,
    // A gateway list of over four, with two equal, or with an absent address.
    BadGateways,
    // A bad capture block.
    BadBlock,
    // A datagram that is not cut: not of version 6, of another payload length, or of a traffic class or flow label
    // other than 0.
    NotCut,
    // A carried checksum that does not hold.
    BadChecksum,
    // What no capture block can hold: a time, or a frame when no block number is left.
    NotHeld,
}

impl Refusal {
    // The number that the scope document gives it.
    // A method and no `From`: README names it.
    pub fn number(self) -> u8
        ensures { result ≡ number_of self }
    {
        match self {
            Refusal::Ended => 1,
            Refusal::NotThisHeader => 2,
            Refusal::Unsupported => 3,
            Refusal::BadLength => 4,
            Refusal::NoContext => 5,
            Refusal::NoAddress => 6,
            Refusal::NoRoom => 7,
            Refusal::EarlierTime => 8,
            Refusal::NotGateway => 9,
            Refusal::BadPart => 10,
            Refusal::Clash => 11,
            Refusal::NoSlot => 12,
            Refusal::NotExpanded => 13,
            Refusal::BadGateways => 14,
            Refusal::BadBlock => 15,
            Refusal::NotCut => 16,
            Refusal::BadChecksum => 17,
            Refusal::NotHeld => 18,
        }
    }
}
