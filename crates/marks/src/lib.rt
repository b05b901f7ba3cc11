// A mark for each of 256 units, one bit a unit, in four words: unit u is bit u % 64 of word u / 64.
//
// `marked`, `mark`, `mark_one` and `has_mark` are, on every input, what specs/Marks.antt says of the list of 256 marks
// that the words stand for (`unpack`). `pack` makes words of marks again, and proofs/Words.antt shows that the two undo
// each other, so that a fact on the marks fixes the words. A unit from 256 on has no mark, and marking it changes
// nothing.
#![tactic(auto)]

ghost use Rattle.std.specs.Prelude.{true, false, ◌≡◌, ◌-◌, ◌^◌, ◌<◌, ◌≤◌, get_or};
ghost use Rattle.marks.specs.Marks.{has_in, fill, bits, unpack, pack, within};

// Four words by value, each with its own base, are a rule of the project, so what is done to each is written out. A run
// of units is two numbers, which a Range would only hold to be taken apart in each function.

// The first unit of the last word.
const LAST: usize = 192;

// The word of which bit h alone is set. Only numbers of 32 bits are shifted by a number that is not fixed: a controller
// of 32 bits has that shift, and would call a routine for one of 64.
fn bit(h: usize) -> u64
    requires { h < 64 }
    ensures { result ≡ 2 ^ h }
{
    if h < 32 {
        return (1u32 << h) as u64;
    }
    ((1u32 << (h - 32)) as u64) * 4294967296
}

// The h low bits set.
fn below(h: usize) -> u64
    requires { h ≤ 64 }
    ensures { result ≡ 2 ^ h - 1 }
{
    if h < 64 {
        return bit(h) - 1;
    }
    18446744073709551615
}

// A unit's place in the word that begins at base: 0 before it, 64 past it.
#[tactic(auto, unfolding(crate::specs::Marks::within))]
fn place(u: usize, base: usize) -> usize
    ensures { result ≡ within base u }
{
    // Not `saturating_sub(..).min(..)`: 420 bytes more of a controller's flash, past the limit on what receives
    // (bench/size).
    if u < base {
        return 0;
    }
    if 64 < u - base {
        return 64;
    }
    u - base
}

// The bits, in the word that begins at base, of the units from u up to, not including, e.
fn mask(base: usize, u: usize, e: usize) -> u64
    requires { u ≤ e }
    ensures { result ≡ 2 ^ within base e - 2 ^ within base u }
{
    let hi = place(e, base);
    if hi == 0 {
        return 0;
    }
    let lo = place(u, base);
    if lo == 64 {
        return 0;
    }
    below(hi) - below(lo)
}

fn word_has(w: u64, b: bool, base: usize, u: usize, e: usize) -> bool
    requires { u ≤ e }
    ensures { result ≡ has_in b (bits 64 w) (within base u) (within base e - within base u) }
{
    let x = if b { w } else { !w };
    x & mask(base, u, e) != 0
}

// Whether one of the marks from u up to e, which lie within the words, is b.
fn words_have(m: [u64; 4], b: bool, u: usize, e: usize) -> bool
    requires { (u ≤ e) × (e ≤ 256) }
    ensures { result ≡ has_in b (unpack m) u (e - u) }
{
    word_has(m[0], b, 0, u, e)
        || (word_has(m[1], b, 64, u, e)
            || (word_has(m[2], b, 128, u, e) || word_has(m[3], b, LAST, u, e)))
}

// The mark of unit u.
pub fn marked(m: [u64; 4], u: usize) -> bool
    ensures { result ≡ get_or (unpack m) u false }
{
    if 256 <= u {
        return false;
    }
    m[u / 64] & bit(u % 64) != 0
}

// Marks the units from u up to, not including, e.
pub fn mark(m: [u64; 4], u: usize, e: usize) -> [u64; 4]
    ensures { result ≡ pack (fill u (e - u) (unpack m)) }
{
    if e <= u {
        return m;
    }
    [
        m[0] | mask(0, u, e),
        m[1] | mask(64, u, e),
        m[2] | mask(128, u, e),
        m[3] | mask(LAST, u, e),
    ]
}

// Marks unit u alone: a part's start, which lies in one word.
pub fn mark_one(m: [u64; 4], u: usize) -> [u64; 4]
    ensures { result ≡ pack (fill u 1 (unpack m)) }
{
    if 256 <= u {
        return m;
    }
    let mut n = m;
    n[u / 64] |= bit(u % 64);
    n
}

// Whether one of the marks from u up to, not including, e is b.
pub fn has_mark(m: [u64; 4], b: bool, u: usize, e: usize) -> bool
    ensures { result ≡ has_in b (unpack m) u (e - u) }
{
    if e <= u {
        return false;
    }
    if e <= 256 {
        return words_have(m, b, u, e);
    }
    // Past the marks none is set: one that is not set is there, and one that is set is not.
    !b || (u < 256 && words_have(m, true, u, 256))
}
