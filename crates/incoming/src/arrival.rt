// A frame's MAC header, judged, and the relays' headers behind it.
ghost use Rattle.octets.specs.Answers.{of_answer};
ghost use Rattle.std.specs.Prelude.{◌≡◌};
ghost use Rattle.incoming.specs.Incoming.{arrival_of, framed, through, arrival, link_addresses_of};

use ieee802154::control::has_elements;
use ieee802154::{Address, Pan, Repr};
use iphc::LinkAddresses;
use octets::cursor::Cursor;
use octets::refusal::Refusal;
use relay::{Mesh, Relay};

// Who sends a frame to whom, the sender's PAN, and where the payload begins.
#[derive(Clone, Copy)]
pub struct Arrival {
    pub src: Address,
    pub pan: Option<Pan>,
    pub dst: Address,
    pub payload: Cursor,
}

impl Arrival {
    // A header without addressing has no address, as one whose address is absent. The PAN that a sender is told apart
    // by is its own if the frame carries one, else the destination's, else none.
    // (Of two things, as `arrival_of` takes them: a `From` would take them as a tuple, which is no plainer.)
    fn of(mac: Repr, payload: Cursor) -> Arrival
        ensures { result ≡ arrival_of mac payload.at }
    {
        Arrival {
            src: mac.src_addr.unwrap_or(Address::Absent),
            pan: mac.src_pan_id.or(mac.dst_pan_id),
            dst: mac.dst_addr.unwrap_or(Address::Absent),
            payload,
        }
    }

    // The refusals of the MAC header, and then 13: secured, with information elements, or not a Data frame.
    #[tactic(auto, unfolding(crate::specs::Incoming::framed))]
    fn framed(frame: &[u8]) -> Result<Arrival, Refusal>
        ensures { of_answer result ≡ framed frame.now }
    {
        let (mac, c) = Repr::parse(frame)?;
        if mac.security_enabled || has_elements(frame) || !mac.frame_type.is_data() {
            return Err(Refusal::NotExpanded);
        }
        Ok(Arrival::of(mac, c))
    }

    // With the addresses of a mesh header, where there is one, and a payload that begins at a place.
    fn through(self, mesh: Option<Mesh>, payload: Cursor) -> Arrival
        ensures { result ≡ through self mesh payload.at }
    {
        match mesh {
            None => Arrival { payload, ..self },
            Some(m) => Arrival {
                src: m.origin,
                dst: m.destination,
                payload,
                ..self
            },
        }
    }

    // What the MAC header says, and then what the relays' headers say.
    #[tactic(auto, unfolding(crate::specs::Incoming::arrival))]
    pub fn read(frame: &[u8]) -> Result<Arrival, Refusal>
        ensures { of_answer result ≡ arrival frame.now }
    {
        let a = Arrival::framed(frame)?;
        let (r, c) = Relay::read(frame, a.payload)?;
        Ok(a.through(r.mesh, c))
    }

    // The link-layer addresses, from which a compressed header's elided ones are restored.
    pub(crate) fn link_addresses(self) -> LinkAddresses
        ensures { result ≡ link_addresses_of self }
    {
        LinkAddresses {
            src: Some(self.src),
            dst: Some(self.dst),
        }
    }
}
