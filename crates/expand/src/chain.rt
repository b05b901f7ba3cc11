// The compressed headers of a frame, and what each becomes (RFC 6282, 4.2; RFC 8200, 4): layers of an IPv6 header and
// the extension headers behind it, then UDP or the payload. Each header is put as it is read; once the length of the
// whole is known, the payload lengths of the IPv6 headers follow.
// Frame, reading place, way and room go on side by side: frame and room are lent, place and way are values.
ghost use Rattle.octets.specs.Answers.{of_answer};
ghost use Rattle.std.specs.Prelude.{◌≡◌, List, [], ◌∷◌, ◌&&◌, ◌||◌, ℕ, ◌≤◌, ◌<◌, ◌+◌, ◌-◌, ◌*◌, length, get_or, take, drop, eqb};
ghost use Rattle.octets.specs.Read.{got};
ghost use Rattle.octets.specs.Write.{put};
ghost use Rattle.expand.specs.Full.{is_absent};
ghost use Rattle.expand.specs.Chain.{full_number, is_padded, bad_length, full_size, id_at, ext_kind, ext_data, ext_body};
ghost use Rattle.expand.specs.Chain.{inner_byte, udp_step, link, header_then, behind_next, udp_end, chain, chained};
ghost use Rattle.expand.specs.Chain.{next_number, sum_for, ext_full, rest, total_of, total_in};
ghost use Rattle.expand.specs.Walk.{of_link, kept, ext_bytes, is_compressed, identified, around};
ghost use Rattle.expand.specs.Walk.{start, passed, entered, fewer, ahead, Room, NotInner, patches};
ghost use Rattle.expand.specs.Walk.{Ends, Reaches, Further, Lays};

use super::checksum::UdpSum;
use super::copy::{left, put_slice};
use super::ip::{Kept, first_word, full_size, put_extension, put_ipv6, put_udp};
use ieee802154::Address;
use iphc::{LinkAddresses, Repr};
use octets::cursor::{Cursor, at_or};
use octets::refusal::Refusal;
use octets::write::put_be16;
use sixlowpan::NextHeader;
use sixlowpan::nhc::{ExtHeaderId, ExtHeaderRepr, NhcPacket, UdpNhcRepr};

// An extension header: where in the frame what follows its first two bytes begins and ends, its number, and its next
// header field. The places come first here and in `Step`, so that they lie side by side with those of its other cases:
// the compiler then keeps a step in registers.
#[derive(Clone, Copy)]
pub struct Extension {
    pub from: Cursor,
    pub to: Cursor,
    pub number: u8,
    pub next: NextHeader,
}

// What stands at a place of a chain, and the place behind it: a UDP header; an extension header; or the byte in front
// of an IPv6 header.
#[derive(Clone, Copy)]
pub enum Step {
    Udp(Cursor, UdpNhcRepr),
    Extension(Extension),
    Inner(Cursor),
}

// How far an expansion has come: the identifiers of the addresses of the IPv6 header just outside, where in the
// datagram that header stands and where the next one goes, how many headers may still come, and whether a routing
// header came since the IPv6 header.
// `routed` is a flag, no Option: the other fields hold in either case.
#[derive(Clone, Copy)]
pub struct Way {
    pub src: u64,
    pub dst: u64,
    pub ip: u16,
    pub at: u16,
    pub left: u8,
    pub routed: bool,
}

// What stands behind the extension headers of a layer, and where: the payload, whose number stood inline; the data
// behind a UDP header; an IPv6 header.
#[derive(Clone, Copy)]
pub enum Last {
    Rest(Cursor),
    Udp(Cursor, UdpNhcRepr),
    Inner(Cursor),
}

// How far the expansion has come where something else than an extension header stands.
#[derive(Clone, Copy)]
pub struct Reached {
    pub way: Way,
    pub last: Last,
}

// All headers but UDP's are put, and so many of them are IPv6 headers.
#[derive(Clone, Copy)]
pub struct Laid {
    pub reached: Reached,
    pub count: usize,
}

// Where the datagram ends, or its first part, and what is to be remembered of its checksum.
#[derive(Clone, Copy)]
pub struct End {
    pub len: u16,
    pub sum: UdpSum,
}

// The header that the byte at a place stands for, by its EID.
fn id_at(frame: &[u8], at: usize) -> ExtHeaderId
    ensures { result ≡ id_at frame.now at }
{
    let b = at_or(frame, at, 0);
    ExtHeaderId::from(b / 2 % 8)
}

// The number that an expanded header has. Mobility's is 135 here, where the ported mapping has 0.
fn number_of(id: ExtHeaderId) -> u8
    ensures { result ≡ full_number id }
{
    match id {
        ExtHeaderId::HopByHopHeader => 0,
        ExtHeaderId::RoutingHeader => 43,
        ExtHeaderId::FragmentHeader => 44,
        ExtHeaderId::DestinationOptionsHeader => 60,
        ExtHeaderId::MobilityHeader => 135,
        ExtHeaderId::Header => 41,
        ExtHeaderId::Reserved => 0,
    }
}

fn is_padded(id: ExtHeaderId) -> bool
    ensures { result ≡ is_padded id }
{
    !matches!(id, ExtHeaderId::RoutingHeader | ExtHeaderId::MobilityHeader)
}

// A routing or mobility header whose length is no multiple of eight with its first two bytes.
fn is_bad(id: ExtHeaderId, n: u8) -> bool
    ensures { result ≡ bad_length id n }
{
    !is_padded(id) && (2 + (n as usize)) % 8 != 0
}

// The number that stands for a compressed header in the next header field in front of it.
fn next_number(frame: &[u8], next: NextHeader, at: usize) -> u8
    ensures { result ≡ next_number next frame.now at }
{
    match next {
        NextHeader::Uncompressed(p) => p.0,
        NextHeader::Compressed => {
            let b = at_or(frame, at, 0);
            if b / 16 == 0b1110 {
                return number_of(id_at(frame, at));
            }
            17
        }
    }
}

#[tactic(auto, unfolding(crate::specs::Chain::udp_step))]
fn read_udp(frame: &[u8], c: Cursor) -> Result<Step, Refusal>
    ensures { of_link result frame.now ≡ udp_step frame.now c.at }
{
    let (h, d) = UdpNhcRepr::read(frame, c)?;
    Ok(Step::Udp(d, h))
}

// What follows next header and length.
fn read_data(frame: &[u8], id: ExtHeaderId, h: ExtHeaderRepr, c: Cursor) -> Result<Step, Refusal>
    ensures { of_link result frame.now ≡ ext_data id h frame.now c.at }
{
    if is_bad(id, h.length) {
        return Err(Refusal::Unsupported);
    }
    let next = h.next_header;
    let number = number_of(id);
    let to = c.skip(frame, h.length as usize)?;
    Ok(Step::Extension(Extension {
        from: c,
        to,
        number,
        next,
    }))
}

#[tactic(auto, unfolding(crate::specs::Chain::ext_body))]
fn read_body(frame: &[u8], id: ExtHeaderId, c: Cursor) -> Result<Step, Refusal>
    ensures { of_link result frame.now ≡ ext_body id frame.now c.at }
{
    let (h, d) = ExtHeaderRepr::read(frame, c)?;
    read_data(frame, id, h, d)
}

// The byte in front of an IPv6 header.
#[tactic(auto, unfolding(crate::specs::Chain::inner_byte))]
fn read_inner(frame: &[u8], c: Cursor) -> Result<Step, Refusal>
    ensures { of_link result frame.now ≡ inner_byte frame.now c.at }
{
    let (b, d) = c.byte(frame)?;
    if b % 2 == 0 {
        Ok(Step::Inner(d))
    } else {
        Err(Refusal::Unsupported)
    }
}

// An extension header, by its EID.
fn read_extension(frame: &[u8], id: ExtHeaderId, c: Cursor) -> Result<Step, Refusal>
    ensures { of_link result frame.now ≡ ext_kind id frame.now c.at }
{
    match id {
        ExtHeaderId::HopByHopHeader => read_body(frame, id, c),
        ExtHeaderId::RoutingHeader => read_body(frame, id, c),
        ExtHeaderId::FragmentHeader => Err(Refusal::NotExpanded),
        ExtHeaderId::DestinationOptionsHeader => read_body(frame, id, c),
        ExtHeaderId::MobilityHeader => read_body(frame, id, c),
        ExtHeaderId::Header => read_inner(frame, c),
        ExtHeaderId::Reserved => Err(Refusal::NotExpanded),
    }
}

// What stands at a place of a chain, where so many headers may still come.
#[tactic(auto, unfolding(crate::specs::Chain::link))]
fn read_step(frame: &[u8], c: Cursor, left: u8) -> Result<Step, Refusal>
    ensures { of_link result frame.now ≡ link left frame.now c.at }
{
    let kind = NhcPacket::dispatch_at(frame, c)?;
    match kind {
        NhcPacket::UdpHeader => read_udp(frame, c),
        NhcPacket::ExtHeader => {
            if left == 0 {
                return Err(Refusal::Unsupported);
            }
            read_extension(frame, id_at(frame, c.at), c)
        }
    }
}

// The link-layer address that has an identifier: the universal/local bit is inverted.
// An Option, since `LinkAddresses` holds it so (`identified` of specs/Walk.antt). `as_eui_64` of ieee802154 inverts
// the bit too, but of an address, and its answer may be none.
fn inside(i: u64) -> Option<Address>
    ensures { result ≡ identified i }
{
    if i / 0x200_0000_0000_0000 % 2 == 0 {
        return Some(Address::Extended(i + 0x200_0000_0000_0000));
    }
    Some(Address::Extended(i - 0x200_0000_0000_0000))
}

fn is_elided(sum: Option<u16>) -> bool
    ensures { result ≡ is_absent sum }
{
    sum.is_none()
}

// The length of the whole datagram.
pub(crate) fn total_of(size: Option<u16>, n: u16) -> u16
    ensures { result ≡ total_of size n }
{
    size.unwrap_or(n)
}

// All headers are read, and the datagram or its first part has n bytes: the last refusals, 10 and 7.
#[tactic(auto, unfolding(crate::specs::Chain::total_in))]
fn total_in(size: Option<u16>, n: u16, room: usize) -> Result<u16, Refusal>
    ensures { of_answer result ≡ total_in size n room }
{
    let total = total_of(size, n);
    if total < n {
        return Err(Refusal::BadPart);
    }
    if room < (n as usize) {
        return Err(Refusal::NoRoom);
    }
    Ok(total)
}

// The payload, to the end of the frame. Its 127 bytes at most are a clause of each reader here, and no struct's
// invariant: that would hold the slice that the caller lends, and the bound on the way's place speaks of both.
pub(crate) fn end_rest(
    frame: &[u8],
    c: Cursor,
    w: Way,
    size: Option<u16>,
    out: &mut [u8],
) -> Result<End, Refusal>
    requires { (w.at ≤ 447) × (length frame.now ≤ 127) }
    ensures { Ends result w size (got (rest 0 (drop c.at frame.now)) c.at) out.old
        out.new }
{
    let o = w.at as usize;
    let len = w.at + (left(frame, c.at) as u16);
    total_in(size, len, out.len())?;
    put_slice(out, o, frame, c.at, frame.len());
    Ok(End {
        len,
        sum: UdpSum::NONE,
    })
}

// Whether a checksum was elided behind a routing header.
fn is_unknown(routed: bool, sum: Option<u16>) -> bool
    ensures { result ≡ (routed && is_absent sum) }
{
    routed && is_elided(sum)
}

// What is to be remembered of a checksum: nothing behind a routing header.
fn sum_for(w: Way, sum: Option<u16>) -> UdpSum
    ensures { result ≡ sum_for w.routed w.ip w.at sum }
{
    if w.routed {
        return UdpSum::NONE;
    }
    if is_elided(sum) {
        return UdpSum {
            kind: 1,
            ip: w.ip,
            udp: w.at,
        };
    }
    UdpSum {
        kind: 2,
        ip: w.ip,
        udp: w.at,
    }
}

// A UDP header and its data, to the end of the frame.
pub(crate) fn end_udp(
    frame: &[u8],
    c: Cursor,
    h: UdpNhcRepr,
    w: Way,
    size: Option<u16>,
    out: &mut [u8],
) -> Result<End, Refusal>
    requires { (w.at ≤ 447) × (length frame.now ≤ 127) }
    ensures { Ends result w size (udp_end (around w) h frame.now c.at) out.old
        out.new }
{
    let checksum = h.checksum;
    if is_unknown(w.routed, checksum) {
        return Err(Refusal::NotExpanded);
    }
    let o = w.at as usize;
    let len = w.at + 8 + (left(frame, c.at) as u16);
    let total = total_in(size, len, out.len())?;
    put_udp(out, o, h, total.saturating_sub(w.at));
    put_slice(out, o + 8, frame, c.at, frame.len());
    let sum = sum_for(w, checksum);
    Ok(End { len, sum })
}

impl Way {
    // In front of the outer IPv6 header, behind which seven more may come.
    pub(crate) const START: Way = Way {
        src: 0,
        dst: 0,
        ip: 0,
        at: 0,
        left: 7,
        routed: false,
    };

    // Behind an extension header of a number, with so many bytes behind its first two.
    fn past(self, number: u8, len: usize) -> Way
        requires { (self.at + full_size len ≤ 65535) × (len ≤ 255) × (1 ≤ self.left) }
        ensures { result ≡ passed number len self }
    {
        let mut v = self;
        v.routed = is_routed(number, self.routed);
        v.left = self.left - 1;
        v.at = self.at + (full_size(len) as u16);
        v
    }

    // Inside an IPv6 header, by the identifiers of its addresses.
    pub(crate) fn within(self, src: u64, dst: u64) -> Way
        requires { self.at + 40 ≤ 65535 }
        ensures { result ≡ entered src dst self }
    {
        Way {
            src,
            dst,
            ip: self.at,
            at: self.at + 40,
            left: self.left,
            routed: false,
        }
    }

    // With one header fewer to come.
    pub(crate) fn fewer(self) -> Way
        requires { 1 ≤ self.left }
        ensures { result ≡ fewer self }
    {
        let mut v = self;
        v.left = self.left - 1;
        v
    }
}

// Whether a routing header came, this one or one before.
fn is_routed(number: u8, routed: bool) -> bool
    ensures { result ≡ (eqb number 43 || routed) }
{
    number == 43 || routed
}

// Reads an IPv6 header.
pub(crate) fn read_kept(
    frame: &[u8],
    c: Cursor,
    ll: LinkAddresses,
    contexts: &[u8],
) -> Result<Kept, Refusal>
    ensures { of_answer result ≡ kept contexts.now ll.src ll.dst frame.now c.at }
{
    let src = ll.src;
    let dst = ll.dst;
    let (ip, d) = Repr::read(frame, c, src, dst, contexts)?;
    let next = ip.next_header;
    let number = next_number(frame, next, d.at);
    let first = first_word(ip);
    Ok(Kept {
        src: ip.src_addr,
        dst: ip.dst_addr,
        first,
        number,
        hops: ip.hop_limit,
        next,
        behind: d,
    })
}

// Puts an extension header; the number of what stands behind it goes into its next header field.
fn put_read(frame: &[u8], x: Extension, at: u16, out: &mut [u8])
    requires { (at ≤ 447) × (x.to.at ≤ length frame.now) × (length frame.now ≤ 127) }
    ensures { out.new ≡ put at (ext_full (next_number x.next frame.now x.to.at)
        (ext_bytes x frame.now)) out.old }
{
    let next = x.next;
    let from = x.from.at;
    let to = x.to.at;
    let number = next_number(frame, next, to);
    put_extension(
        out,
        at as usize,
        number,
        frame,
        from,
        to.saturating_sub(from),
    );
}

fn is_compressed(next: NextHeader) -> bool
    ensures { result ≡ is_compressed next }
{
    next == NextHeader::Compressed
}

// Puts the extension headers that stand behind a next header field.
pub(crate) fn put_extensions(
    frame: &[u8],
    first: NextHeader,
    from: Cursor,
    start: Way,
    out: &mut [u8],
) -> Result<Reached, Refusal>
    requires { (start.at + 40 * start.left + (length frame.now - from.at) ≤ 447) × (length frame.now ≤ 127) }
    ensures { ((ctx : List ℕ) → Reaches ctx result [] start (behind_next first (chain start.left ctx (around start))
        frame.now from.at) frame.now out.old out.new)
        × Further result from.at frame.now }
{
    // No `for`: how many there are is what each one says of the next.
    let mut way = start;
    let mut next = first;
    let mut c = from;
    while is_compressed(next) {
        let step = read_step(frame, c, way.left)?;
        match step {
            Step::Extension(x) => {
                put_read(frame, x, way.at, out);
                way = way.past(x.number, x.to.at.saturating_sub(x.from.at));
                next = x.next;
                c = x.to;
            }
            Step::Udp(d, h) => {
                let last = Last::Udp(d, h);
                return Ok(Reached { way, last });
            }
            Step::Inner(d) => {
                let last = Last::Inner(d);
                return Ok(Reached { way, last });
            }
        }
    }
    let last = Last::Rest(c);
    Ok(Reached { way, last })
}

// Puts an IPv6 header, with 0 for its payload length, and the extension headers behind it.
fn put_layer(
    frame: &[u8],
    c: Cursor,
    ll: LinkAddresses,
    contexts: &[u8],
    w: Way,
    out: &mut [u8],
) -> Result<Reached, Refusal>
    requires { (w.at + 40 * (w.left + 1) + (length frame.now - c.at) ≤ 447) × (length frame.now ≤ 127) }
    ensures { Reaches contexts.now result (w.at ∷ []) w (header_then contexts.now ll.src
        ll.dst (chain w.left contexts.now) frame.now c.at) frame.now
        out.old out.new }
{
    let ip = read_kept(frame, c, ll, contexts)?;
    let src = ip.src;
    let dst = ip.dst;
    let next = ip.next;
    let behind = ip.behind;
    put_ipv6(out, w.at as usize, ip, 0);
    put_extensions(frame, next, behind, w.within(src.iid, dst.iid), out)
}

// The link-layer addresses that stand for those of the IPv6 header just outside.
pub(crate) fn links_inside(w: Way) -> LinkAddresses
    ensures { result ≡ record { src = identified w.src; dst = identified w.dst } }
{
    let src = inside(w.src);
    let dst = inside(w.dst);
    LinkAddresses { src, dst }
}

// Puts all headers but UDP's, and notes where the IPv6 headers stand.
fn put_headers(
    frame: &[u8],
    from: Cursor,
    links: LinkAddresses,
    contexts: &[u8],
    places: &mut [u16],
    out: &mut [u8],
) -> Result<Laid, Refusal>
    requires { (length frame.now ≤ 127) × (length places.old ≡ 8) }
    ensures { Lays contexts.now result (chained contexts.now links.src links.dst
        frame.now from.at) frame.now places.new out.old
        out.new }
{
    let mut way = Way::START;
    let mut c = from;
    let mut ll = links;
    for k in 0..8 {
        places[k] = way.at;
        let count = k + 1;
        let reached = put_layer(frame, c, ll, contexts, way, out)?;
        let last = reached.last;
        match last {
            Last::Inner(d) => {
                let w = reached.way;
                way = w.fewer();
                ll = links_inside(w);
                c = d;
            }
            Last::Rest(_) => return Ok(Laid { reached, count }),
            Last::Udp(_, _) => return Ok(Laid { reached, count }),
        }
    }
    // The ninth header was refused before.
    unreachable!()
}

// Puts what stands behind the last layer.
fn put_last(frame: &[u8], r: Reached, size: Option<u16>, out: &mut [u8]) -> Result<End, Refusal>
    requires { Room r.way r.last frame.now × (NotInner r.last × (length frame.now ≤ 127)) }
    ensures { (ctx : List ℕ) → Ends result r.way size (ahead ctx r frame.now) out.old
        out.new }
{
    let way = r.way;
    let last = r.last;
    match last {
        Last::Rest(c) => end_rest(frame, c, way, size, out),
        Last::Udp(c, h) => end_udp(frame, c, h, way, size, out),
        // There one more layer was put.
        Last::Inner(_) => unreachable!(),
    }
}

// Puts the payload lengths of the IPv6 headers at the first `count` places: all that follows each, in a datagram of
// `total` bytes.
// The count stands beside the places, which lie in an array of `walk`: no heap, fixed memory.
fn put_lengths(places: &[u16], count: usize, total: u16, out: &mut [u8])
    requires { (count ≤ length places.now) × ((i : ℕ) → i < count → get_or places.now i 0 ≤ 447) }
    ensures { out.new ≡ patches total (take count places.now) out.old }
{
    // By the index: slices are taken so in the crates under `lift_c` (docs/DECISIONS.md).
    for i in (0..count).rev() {
        let o = places[i];
        put_be16(out, (o as usize) + 4, total.saturating_sub(o + 40));
    }
}

// Puts the datagram that the frame stands for, or its first part, with 0 for an elided checksum. Where it is refused
// some headers may stand in the room.
pub(crate) fn walk(
    frame: &[u8],
    c: Cursor,
    ll: LinkAddresses,
    contexts: &[u8],
    size: Option<u16>,
    out: &mut [u8],
) -> Result<End, Refusal>
    requires { length frame.now ≤ 127 }
    ensures { Ends result start size (chained contexts.now ll.src ll.dst frame.now
        c.at) out.old out.new }
{
    let mut places = [0u16; 8];
    let laid = put_headers(frame, c, ll, contexts, &mut places, out)?;
    let reached = laid.reached;
    let end = put_last(frame, reached, size, out)?;
    put_lengths(&places, laid.count, total_of(size, end.len), out);
    Ok(end)
}
