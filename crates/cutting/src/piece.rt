// Where a datagram is cut.
ghost use Rattle.octets.specs.Answers.{of_answer};
ghost use Rattle.std.specs.Prelude.{◌≡◌, ◌+◌, ◌*◌, ◌<◌, ◌≤◌, length};
ghost use Rattle.cutting.specs.Pieces.{piece_from, later_pieces, pieces, nth, Sane};

use octets::refusal::Refusal;

// The lengths that decide it: of the MAC header, of the compressed headers, of what they stand for, of the datagram,
// and of the longest frame.
#[derive(Clone, Copy)]
pub struct Plan {
    pub mac: usize,
    pub head: usize,
    pub covers: usize,
    pub size: usize,
    pub limit: usize,
}

#[derive(Clone, Copy)]
pub enum Piece {
    // The datagram in one frame.
    Whole,
    // The first part: how many bytes follow the compressed headers.
    First(usize),
    // Any other: its place, and how many bytes.
    Later(usize, usize),
}

// In 32 bits, which every controller multiplies by itself.
fn times(i: u16, u: usize) -> usize
    requires { u ≤ 127 }
    ensures { (result ≡ i * u) × (result ≤ 8388608) }
{
    ((i as u32) * (u as u32)) as usize
}

// The part that begins at a place.
#[tactic(auto, unfolding(crate::specs::Pieces::piece_from))]
fn piece_from(room: usize, size: usize, at: usize) -> Piece
    requires { at ≤ size }
    ensures { result ≡ piece_from room size at }
{
    if size - at <= room {
        return Piece::Later(at, size - at);
    }
    Piece::Later(at, room / 8 * 8)
}

// The part of a number, from 0, behind the first one, that ends at the place `at`.
// The bounds, here and in `count_later`, are those of a plan (`Sane`) that is cut: a struct would serve only the two.
#[tactic(auto, using(crate::proofs::PieceLaws::later_told))]
fn later_at(room: usize, size: usize, at: usize, j: u16) -> Result<Piece, Refusal>
    requires { (8 ≤ room) × (room ≤ 127) × (size ≤ 2047) × (at < size) }
    ensures { of_answer result ≡ nth (later_pieces room size size at) j }
{
    if j == 0 {
        return Ok(piece_from(room, size, at));
    }
    let u = room / 8 * 8;
    let before = at + times(j - 1, u);
    if size <= before + room {
        return Err(Refusal::BadPart);
    }
    Ok(piece_from(room, size, before + u))
}

// The piece of a number, from 0. `Sane` stays a clause: specs/ and the theorems of proofs/ speak of plans that no code
// made, and an invariant of the struct would say nothing of those.
#[tactic(auto, using(crate::proofs::PieceLaws::piece_told))]
pub fn piece_at(p: Plan, k: u16) -> Result<Piece, Refusal>
    requires { Sane p }
    ensures { of_answer result ≡ nth (pieces p) k }
{
    if p.mac + (p.head + (p.size - p.covers)) <= p.limit {
        if k == 0 {
            return Ok(Piece::Whole);
        }
        return Err(Refusal::BadPart);
    }
    let n = (p.limit - (p.mac + (4 + p.head))) / 8 * 8;
    if k == 0 {
        return Ok(Piece::First(n));
    }
    later_at(p.limit - (p.mac + 5), p.size, p.covers + n, k - 1)
}

// How many parts there are behind the first one, that ends at the place `at`.
fn count_later(room: usize, size: usize, at: usize) -> usize
    requires { (8 ≤ room) × (room ≤ 127) × (size ≤ 2047) × (at < size) }
    ensures { (result ≡ length (later_pieces room size size at)) × (result ≤ 2047) }
{
    // By a loop: a division by a number that is not fixed is a routine from outside on a controller
    // (examples/cortex-m), and `div_ceil` is one.
    let u = room / 8 * 8;
    let mut from = at;
    let mut n: usize = 1;
    while room < size - from {
        from += u;
        n += 1;
    }
    n
}

// How many pieces there are.
#[tactic(auto, using(crate::proofs::PieceLaws::count_told))]
pub fn count_pieces(p: Plan) -> usize
    requires { Sane p }
    ensures { result ≡ length (pieces p) }
{
    if p.mac + (p.head + (p.size - p.covers)) <= p.limit {
        return 1;
    }
    let n = (p.limit - (p.mac + (4 + p.head))) / 8 * 8;
    1 + count_later(p.limit - (p.mac + 5), p.size, p.covers + n)
}
