// The headers of a frame in the form that 01 names: `header` expands an IPv6 header and calls `chain`; `chain` expands
// what is behind it and calls `header` where another IPv6 header stands, each with fewer bytes left. `expand` and
// `measure` are built of these two. `fill` has the same steps in loops, for a controller's stack (chain.rt); both are
// proved to put what `chained` reads (specs/Chain.antt).
ghost use Rattle.std.specs.Prelude.{◌≡◌, ◌≤◌, ◌+◌, ◌-◌, ◌*◌, length};
ghost use Rattle.expand.specs.Chain.{header_then, behind_next, chain};
ghost use Rattle.expand.specs.Walk.{around, Ends};

use super::chain::{
    End, Last, Way, end_rest, end_udp, links_inside, put_extensions, read_kept, total_of,
};
use super::ip::put_ipv6;
use iphc::LinkAddresses;
use octets::cursor::Cursor;
use octets::refusal::Refusal;
use octets::write::put_be16;
use sixlowpan::NextHeader;

// Where an IPv6 header stands, and the link-layer addresses that stand for its elided ones.
#[derive(Clone, Copy)]
pub struct Inner {
    pub at: Cursor,
    pub ll: LinkAddresses,
}

// A next header field, and the place behind it.
#[derive(Clone, Copy)]
pub struct Field {
    pub next: NextHeader,
    pub at: Cursor,
}

// An IPv6 header, and the chain behind it. Its payload length is put once the chain's is known.
// (The bounds, here and in `chain`, are those of the readers in chain.rt, for the reason at `end_rest`.)
#[cycle(chain_header)]
pub(crate) fn header(
    frame: &[u8],
    i: Inner,
    contexts: &[u8],
    w: Way,
    size: Option<u16>,
    out: &mut [u8],
) -> Result<End, Refusal>
    requires { (w.at + 40 * (w.left + 1) + (length frame.now - i.at.at) ≤ 447) × (length frame.now ≤ 127) }
    ensures { Ends result w size (header_then contexts.now i.ll.src i.ll.dst
        (chain w.left contexts.now) frame.now i.at.at) out.old
        out.new }
{
    let ll = i.ll;
    let c = i.at;
    let ip = read_kept(frame, c, ll, contexts)?;
    let src = ip.src;
    let dst = ip.dst;
    let next = ip.next;
    let at = ip.behind;
    put_ipv6(out, w.at as usize, ip, 0);
    let end = chain(
        frame,
        Field { next, at },
        contexts,
        w.within(src.iid, dst.iid),
        size,
        out,
    )?;
    put_be16(
        out,
        (w.at as usize) + 4,
        total_of(size, end.len).saturating_sub(w.at + 40),
    );
    Ok(end)
}

// Extension headers, and then the payload, a UDP header, or an IPv6 header and what is behind that.
#[cycle(chain_header)]
fn chain(
    frame: &[u8],
    f: Field,
    contexts: &[u8],
    w: Way,
    size: Option<u16>,
    out: &mut [u8],
) -> Result<End, Refusal>
    requires { (w.at + 40 * w.left + (length frame.now - f.at.at) ≤ 447) × (length frame.now ≤ 127) }
    ensures { Ends result w size (behind_next f.next (chain w.left contexts.now (around w))
        frame.now f.at.at) out.old out.new }
{
    let next = f.next;
    let from = f.at;
    let r = put_extensions(frame, next, from, w, out)?;
    let way = r.way;
    let last = r.last;
    match last {
        Last::Rest(d) => end_rest(frame, d, way, size, out),
        Last::Udp(d, h) => end_udp(frame, d, h, way, size, out),
        Last::Inner(at) => {
            let ll = links_inside(way);
            header(frame, Inner { at, ll }, contexts, way.fewer(), size, out)
        }
    }
}
