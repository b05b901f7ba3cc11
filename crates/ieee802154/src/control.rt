// The frame control field, and which PAN identifiers a frame carries.
ghost use Rattle.std.specs.Prelude.{◌≡◌, ◌≤◌, eqb, get_or};
ghost use Rattle.ieee802154.specs.Control.{control_of, word_of, bit_of, supported, says_elements, has_elements};
ghost use Rattle.ieee802154.specs.Control.{has_sequence, may_omit, omits_sequence, has_addressing, carried01};
ghost use Rattle.ieee802154.specs.Control.{carried2, carried};

use octets::cursor::at_or;

// The frame control field (IEEE 802.15.4, 7.2.2): where each of its parts begins, as the weight of the part's lowest
// bit. The frame type is the lowest three bits. Bit 7 is reserved, and bit 9 says whether information elements follow.
const SECURITY_ENABLED: u16 = 0x0008;

const FRAME_PENDING: u16 = 0x0010;

const ACK_REQUEST: u16 = 0x0020;

const PAN_ID_COMPRESSION: u16 = 0x0040;

const SEQUENCE_SUPPRESSED: u16 = 0x0100;

const DST_ADDR_MODE: u16 = 0x0400;

const FRAME_VERSION: u16 = 0x1000;

const SRC_ADDR_MODE: u16 = 0x4000;

// The same of two parts in the field's high byte.
const HIGH_ELEMENTS: u8 = 0x02;

const HIGH_VERSION: u8 = 0x10;

// How many numbers the bits of a part make.
const TYPES: u16 = 8;

const MODES: u16 = 4;

const VERSIONS: u16 = 4;

// The frame type: every number of its three bits, named or not.
#[derive(Clone, Copy, PartialEq, Eq)]
pub struct FrameType(pub u8);

impl FrameType {
    pub const BEACON: FrameType = FrameType(0);

    pub const DATA: FrameType = FrameType(1);

    pub const ACKNOWLEDGEMENT: FrameType = FrameType(2);

    pub const MAC_COMMAND: FrameType = FrameType(3);

    const RESERVED: FrameType = FrameType(4);

    pub const MULTIPURPOSE: FrameType = FrameType(5);

    pub const FRAGMENT_OR_FRAK: FrameType = FrameType(6);

    pub const EXTENDED: FrameType = FrameType(7);

    pub fn is_data(self) -> bool
        ensures { result ≡ eqb self.0 1 }
    {
        self == FrameType::DATA
    }
}

// How an address is given: every number of its two bits, named or not.
#[derive(Clone, Copy, PartialEq, Eq)]
pub struct AddressingMode(pub u8);

impl AddressingMode {
    pub const ABSENT: AddressingMode = AddressingMode(0);

    const RESERVED: AddressingMode = AddressingMode(1);

    pub const SHORT: AddressingMode = AddressingMode(2);

    pub const EXTENDED: AddressingMode = AddressingMode(3);
}

// The version of the standard: every number of its two bits, named or not.
#[derive(Clone, Copy, PartialEq, Eq)]
pub struct FrameVersion(pub u8);

impl FrameVersion {
    pub const IEEE802154_2003: FrameVersion = FrameVersion(0);

    pub const IEEE802154_2006: FrameVersion = FrameVersion(1);

    pub const IEEE802154: FrameVersion = FrameVersion(2);

    const RESERVED: FrameVersion = FrameVersion(3);

    // Whether a frame of this version and type may leave its sequence number out.
    pub fn may_omit(self, kind: FrameType) -> bool
        ensures { result ≡ may_omit self.0 kind.0 }
    {
        self == FrameVersion::IEEE802154 && kind.0 < FrameType::RESERVED.0
    }
}

#[tactic(auto, unfolding(crate::specs::Control::says_elements))]
fn says_elements(b: u8) -> bool
    ensures { result ≡ says_elements b }
{
    b / HIGH_VERSION % 4 == FrameVersion::IEEE802154.0 && b / HIGH_ELEMENTS % 2 == 1
}

// Whether a frame says that it carries information elements.
pub fn has_elements(frame: &[u8]) -> bool
    ensures { result ≡ has_elements frame.now }
{
    says_elements(at_or(frame, 1, 0))
}

// The frame control field.
// Each flag is a bit of the field, and what stands beside it holds in either case: none is an Option.
#[derive(Clone, Copy)]
pub struct Control {
    pub frame_type: FrameType,
    pub security_enabled: bool,
    pub frame_pending: bool,
    pub ack_request: bool,
    pub pan_id_compression: bool,
    pub sequence_suppressed: bool,
    pub dst_addr_mode: AddressingMode,
    pub frame_version: FrameVersion,
    pub src_addr_mode: AddressingMode,
}

// Which PAN identifiers a frame carries.
// Two flags, one for each side: no value stands beside either.
#[derive(Clone, Copy)]
pub struct Carried {
    pub dst: bool,
    pub src: bool,
}

// The parts of the field.
impl From<u16> for Control {
    ghost from_gives = { λ fc k. k ≡ control_of fc };

    fn from(fc: u16) -> Control {
        Control {
            frame_type: FrameType((fc % TYPES) as u8),
            security_enabled: fc / SECURITY_ENABLED % 2 == 1,
            frame_pending: fc / FRAME_PENDING % 2 == 1,
            ack_request: fc / ACK_REQUEST % 2 == 1,
            pan_id_compression: fc / PAN_ID_COMPRESSION % 2 == 1,
            sequence_suppressed: fc / SEQUENCE_SUPPRESSED % 2 == 1,
            dst_addr_mode: AddressingMode((fc / DST_ADDR_MODE % MODES) as u8),
            frame_version: FrameVersion((fc / FRAME_VERSION % VERSIONS) as u8),
            src_addr_mode: AddressingMode((fc / SRC_ADDR_MODE % MODES) as u8),
        }
    }
}

// The field as a number; each part keeps to its bits.
impl From<Control> for u16 {
    ghost from_gives = { λ k fc. fc ≡ word_of k };

    #[tactic(auto, unfolding(crate::specs::Control::word_of))]
    fn from(k: Control) -> u16 {
        let low = (k.frame_type.0 as u16) % TYPES
            + bit_of(k.security_enabled) * SECURITY_ENABLED
            + bit_of(k.frame_pending) * FRAME_PENDING
            + bit_of(k.ack_request) * ACK_REQUEST
            + bit_of(k.pan_id_compression) * PAN_ID_COMPRESSION
            + bit_of(k.sequence_suppressed) * SEQUENCE_SUPPRESSED;
        let dst = (k.dst_addr_mode.0 as u16) % MODES;
        let version = (k.frame_version.0 as u16) % VERSIONS;
        let src = (k.src_addr_mode.0 as u16) % MODES;
        low + dst * DST_ADDR_MODE + version * FRAME_VERSION + src * SRC_ADDR_MODE
    }
}

impl Control {
    // Whether the version and the modes are read here.
    #[tactic(auto, unfolding(crate::specs::Control::supported))]
    pub fn supported(self) -> bool
        ensures { result ≡ supported self }
    {
        if self.frame_version == FrameVersion::RESERVED {
            return false;
        }
        if self.dst_addr_mode == AddressingMode::RESERVED {
            return false;
        }
        if self.src_addr_mode == AddressingMode::RESERVED {
            return false;
        }
        if self.frame_version == FrameVersion::IEEE802154 {
            return true;
        }
        if self.dst_addr_mode != AddressingMode::ABSENT {
            return true;
        }
        if self.src_addr_mode != AddressingMode::ABSENT {
            return true;
        }
        !self.pan_id_compression
    }

    // Whether the frame type has a sequence number.
    #[tactic(auto, unfolding(crate::specs::Control::has_sequence))]
    pub fn has_sequence(self) -> bool
        ensures { result ≡ has_sequence self }
    {
        let t = self.frame_type;
        if t == FrameType::RESERVED {
            return false;
        }
        t.0 < FrameType::FRAGMENT_OR_FRAK.0
    }

    // Whether the sequence number is left out.
    #[tactic(auto, unfolding(crate::specs::Control::omits_sequence))]
    pub fn omits_sequence(self) -> bool
        ensures { result ≡ omits_sequence self }
    {
        let version = self.frame_version;
        let kind = self.frame_type;
        if self.sequence_suppressed {
            return version.may_omit(kind);
        }
        false
    }

    // Whether the frame type has addressing fields.
    #[tactic(auto, unfolding(crate::specs::Control::has_addressing))]
    pub fn has_addressing(self) -> bool
        ensures { result ≡ has_addressing self }
    {
        let t = self.frame_type;
        if t == FrameType::ACKNOWLEDGEMENT {
            return self.frame_version == FrameVersion::IEEE802154;
        }
        if t == FrameType::RESERVED {
            return false;
        }
        t.0 < FrameType::FRAGMENT_OR_FRAK.0
    }
}

fn bit_of(t: bool) -> u16
    ensures value { result ≡ bit_of t }
    ensures upper_bound { result ≤ 1 }
{
    if t { 1 } else { 0 }
}

impl Carried {
    // Versions 0 and 1: a present address brings its PAN, but the source's is left out where both are present and
    // compression is set.
    #[tactic(auto, unfolding(crate::specs::Control::carried01))]
    fn old(dst: AddressingMode, src: AddressingMode, compression: bool) -> Carried
        ensures { result ≡ carried01 dst src compression }
    {
        if dst == AddressingMode::ABSENT {
            return Carried {
                dst: false,
                src: src != AddressingMode::ABSENT,
            };
        }
        if src == AddressingMode::ABSENT {
            return Carried {
                dst: true,
                src: false,
            };
        }
        Carried {
            dst: true,
            src: !compression,
        }
    }

    // Version 2.
    #[tactic(auto, unfolding(crate::specs::Control::carried2))]
    fn new(dst: AddressingMode, src: AddressingMode, compression: bool) -> Carried
        ensures { result ≡ carried2 dst src compression }
    {
        if dst == AddressingMode::ABSENT {
            if src == AddressingMode::ABSENT {
                return Carried {
                    dst: compression,
                    src: false,
                };
            }
            return Carried {
                dst: false,
                src: !compression,
            };
        }
        if src == AddressingMode::ABSENT {
            return Carried {
                dst: !compression,
                src: false,
            };
        }
        if dst != AddressingMode::EXTENDED {
            return Carried {
                dst: true,
                src: !compression,
            };
        }
        if src != AddressingMode::EXTENDED {
            return Carried {
                dst: true,
                src: !compression,
            };
        }
        Carried {
            dst: !compression,
            src: false,
        }
    }
}

impl From<Control> for Carried {
    ghost from_gives = { λ k c. c ≡ carried k };

    #[tactic(auto, unfolding(crate::specs::Control::carried))]
    fn from(k: Control) -> Carried {
        let dst = k.dst_addr_mode;
        let src = k.src_addr_mode;
        if k.frame_version == FrameVersion::IEEE802154 {
            Carried::new(dst, src, k.pan_id_compression)
        } else {
            Carried::old(dst, src, k.pan_id_compression)
        }
    }
}
