// What a frame says beside the datagram, and the MAC header.
ghost use Rattle.std.specs.Prelude.{◌≡◌, ◌≤◌, length};
ghost use Rattle.octets.specs.Write.{put};
ghost use Rattle.cutting.specs.Head.{mac_of, mac_length, mac_bytes};
ghost use Rattle.cutting.specs.Cut.{has_both};

use ieee802154::{Address, FrameType, FrameVersion, Pan};

#[derive(Clone, Copy)]
pub struct Link {
    pub pan: Pan,
    pub src: Address,
    pub dst: Address,
    // Used as given in every frame.
    pub sequence: u8,
    // The fragments' tag.
    pub tag: u16,
    // The longest frame, without its frame check: 80 to 127 bytes.
    pub limit: usize,
}

#[tactic(auto, unfolding(crate::specs::Cut::has_both))]
pub fn has_both(l: Link) -> bool
    ensures { result ≡ has_both l }
{
    l.src.is_present() && l.dst.is_present()
}

pub fn mac_of(l: Link) -> ieee802154::Repr
    ensures { result ≡ mac_of l }
{
    ieee802154::Repr {
        frame_type: FrameType::DATA,
        security_enabled: false,
        frame_pending: false,
        ack_request: false,
        sequence_number: Some(l.sequence),
        pan_id_compression: true,
        frame_version: FrameVersion::IEEE802154_2003,
        dst_pan_id: Some(l.pan),
        dst_addr: Some(l.dst),
        src_pan_id: None,
        src_addr: Some(l.src),
    }
}

// Puts the MAC header at the front.
#[tactic(auto, using(crate::proofs::HeadLaws::mac_told))]
pub(crate) fn put_mac(buf: &mut [u8], l: Link)
    requires { mac_length l ≤ length buf.old }
    ensures { buf.new ≡ put 0 (mac_bytes l) buf.old }
{
    let _ = mac_of(l).emit(buf);
}
