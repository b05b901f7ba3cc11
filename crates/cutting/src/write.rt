// The frames of a datagram.
// `buf, at` is the lent room and a place in it, as the writers of octets take them.
ghost use Rattle.octets.specs.Answers.{of_answer};
ghost use Rattle.std.specs.Prelude.{◌≡◌, ◌+◌, ◌≤◌, length};
ghost use Rattle.octets.specs.Write.{Emits, put};
ghost use Rattle.sixlowpan.specs.Frag.{bytes_of, length_of};
ghost use Rattle.cutting.specs.Head.{head_of, covers};
ghost use Rattle.cutting.specs.Cut.{plan_of, middle, middle_length, part_of, part_at, frame_of};
ghost use Rattle.cutting.specs.Cut.{in_range, Ready, cut_frame, cut_count, answered, written};
ghost use Rattle.cutting.specs.Pieces.{Sane};

use super::fields::is_ours;
use super::head::{Head, covers, head_of, put_head};
use super::link::{Link, has_both, mac_of, put_mac};
use super::piece::{Piece, Plan, count_pieces, piece_at};
use expand::copy::{left, put_slice};
use octets::refusal::Refusal;
use sixlowpan::frag::{Repr, Units};

// Datagrams of 40 to 2,047 bytes, and frames of at most 80 to 127.
#[tactic(auto, unfolding(crate::specs::Cut::in_range))]
fn in_range(d: &[u8], l: Link) -> bool
    ensures { result ≡ in_range l d.now }
{
    40 <= d.len() && d.len() <= 2047 && 80 <= l.limit && l.limit <= 127
}

// `Ready` is what `in_range` tested. It speaks of the lent datagram and of the link, so no struct's invariant is it.
fn plan_of(d: &[u8], l: Link, h: Head) -> Plan
    requires in_bounds { Ready l d.now }
    requires h_value { h ≡ head_of l d.now }
    ensures { (result ≡ plan_of l d.now) × Sane result }
{
    let mac = mac_of(l).buffer_len();
    let covers = covers(h.udp);
    let size = d.len();
    Plan {
        mac,
        head: h.len,
        covers,
        size,
        limit: l.limit,
    }
}

fn put_frag(buf: &mut [u8], at: usize, h: Repr)
    requires { at + length_of h ≤ length buf.old }
    ensures { buf.new ≡ put at (bytes_of h) buf.old }
{
    let end = at + h.buffer_len();
    let _ = h.emit(&mut buf[at..end]);
}

fn middle_len(head: usize, p: Piece) -> usize
    requires { head ≤ 43 }
    ensures { (result ≡ middle_length head p) × (result ≤ 47) }
{
    match p {
        Piece::Whole => head,
        Piece::First(_) => 4 + head,
        Piece::Later(_, _) => 5,
    }
}

// Where the part begins in the datagram.
fn part_at(covers: usize, p: Piece) -> usize
    ensures { result ≡ part_at covers p }
{
    match p {
        Piece::Whole => covers,
        Piece::First(_) => covers,
        Piece::Later(at, _) => at,
    }
}

fn part_len(d: &[u8], from: usize, p: Piece) -> usize
    requires { from ≡ part_at (covers d.now) p }
    ensures { (result ≡ length (part_of d.now p)) × (result ≤ length d.now) }
{
    let rest = left(d, from);
    match p {
        Piece::Whole => rest,
        Piece::First(n) => n.min(rest),
        Piece::Later(_, n) => n.min(rest),
    }
}

fn put_middle(buf: &mut [u8], at: usize, d: &[u8], h: Head, l: Link, p: Piece)
    requires d_len_bound { (length d.now ≤ 2047) × (h ≡ head_of l d.now) }
    requires p_in_bounds { at + length (middle l d.now p) ≤ length buf.old }
    ensures { buf.new ≡ put at (middle l d.now p) buf.old }
{
    let size = d.len() as u16;
    let tag = l.tag;
    match p {
        Piece::Whole => put_head(buf, at, d, h, l),
        Piece::First(_) => {
            put_frag(buf, at, Repr::FirstFragment { size, tag });
            put_head(buf, at + 4, d, h, l);
        }
        Piece::Later(from, _) => {
            let offset = Units((from / 8 % 256) as u8);
            put_frag(buf, at, Repr::Fragment { size, tag, offset });
        }
    }
}

// Writes the frame of a piece. Datagram, link, head and plan stay four parameters: the contracts say of each what it is
// of the lent datagram, and a struct of them would say the same in an invariant that every reader has to open.
fn write_piece(
    d: &[u8],
    l: Link,
    h: Head,
    plan: Plan,
    p: Piece,
    out: &mut [u8],
) -> Result<usize, Refusal>
    requires { (length d.now ≤ 2047) × (h ≡ head_of l d.now) × (plan ≡ plan_of l d.now) }
    ensures { Emits result (length (frame_of l d.now p)) (frame_of l d.now p)
        out.old out.new }
{
    let middle = middle_len(plan.head, p);
    let from = part_at(plan.covers, p);
    let part = part_len(d, from, p);
    let n = plan.mac + (middle + part);
    if out.len() < n {
        return Err(Refusal::NoRoom);
    }
    put_mac(out, l);
    put_middle(out, plan.mac, d, h, l, p);
    put_slice(out, plan.mac + middle, d, from, part);
    Ok(n)
}

// Refusals 6, 16, 10 and 7.
fn write_frame(d: &[u8], l: Link, k: u16, out: &mut [u8]) -> Result<usize, Refusal>
    requires { Ready l d.now }
    ensures { (of_answer result ≡ answered (cut_frame l d.now k) out.old)
        × (out.new ≡ written (cut_frame l d.now k) out.old) }
{
    if !has_both(l) {
        return Err(Refusal::NoAddress);
    }
    if !is_ours(d) {
        return Err(Refusal::NotCut);
    }
    let h = head_of(d, l);
    let plan = plan_of(d, l, h);
    let p = piece_at(plan, k)?;
    write_piece(d, l, h, plan, p, out)
}

// Writes frame k, from 0, of the cutting of the datagram into the front of the room.
#[tactic(auto, using(crate::proofs::WriteLaws::range_told))]
pub fn frame(datagram: &[u8], link: Link, k: u16, out: &mut [u8]) -> Result<usize, Refusal>
    ensures { (of_answer result ≡ answered (cut_frame link datagram.now k) out.old)
        × (out.new ≡ written (cut_frame link datagram.now k) out.old) }
{
    if !in_range(datagram, link) {
        return Err(Refusal::BadLength);
    }
    write_frame(datagram, link, k, out)
}

// Refusals 6 and 16.
#[tactic(auto, using(crate::proofs::WriteLaws::count_told))]
fn count_frames(d: &[u8], l: Link) -> Result<usize, Refusal>
    requires { Ready l d.now }
    ensures { of_answer result ≡ cut_count l d.now }
{
    if !has_both(l) {
        return Err(Refusal::NoAddress);
    }
    if !is_ours(d) {
        return Err(Refusal::NotCut);
    }
    let h = head_of(d, l);
    Ok(count_pieces(plan_of(d, l, h)))
}

// How many frames the cutting of the datagram has.
#[tactic(auto, using(crate::proofs::WriteLaws::range_told))]
pub fn frames(datagram: &[u8], link: Link) -> Result<usize, Refusal>
    ensures { of_answer result ≡ cut_count link datagram.now }
{
    if !in_range(datagram, link) {
        return Err(Refusal::BadLength);
    }
    count_frames(datagram, link)
}
