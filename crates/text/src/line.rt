// Lines of bytes, each ended by a line feed.
ghost use Rattle.std.specs.Prelude.{◌≡◌, ◌+◌, false, length, drop};
ghost use Rattle.octets.specs.Write.{put};
ghost use Rattle.text.specs.Bytes.{index_of};

// Whether a byte stands among others. No byte ends the loop early, so that it compiles to vector code.
fn holds(s: &[u8], b: u8) -> bool
    ensures { result ≡ false → index_of b s.now ≡ length s.now }
{
    let mut found = false;
    for x in s {
        if *x == b {
            found = true;
        }
    }
    found
}

// A place from which the first b is found as from the given one: sixteen bytes at a time are passed while none is b,
// which is for speed: a step looks at a vector.
fn near(s: &[u8], from: usize, b: u8) -> usize
    ensures { result + index_of b (drop result s.now) ≡ from + index_of b (drop from s.now) }
{
    let mut i = from;
    while i < s.len() {
        if s.len() - i < 16 {
            return i;
        }
        let end = i + 16;
        if holds(&s[i..end], b) {
            return i;
        }
        i = end;
    }
    i
}

// The first place from a given one on that holds a byte, or the end of the bytes.
pub fn find(s: &[u8], from: usize, b: u8) -> usize
    ensures { result ≡ from + index_of b (drop from s.now) }
{
    // From a place that may lie past the end, so that no part of the slice can be taken.
    let mut i = near(s, from, b);
    while i < s.len() {
        if s[i] == b {
            return i;
        }
        i += 1;
    }
    i
}

// Moves the bytes from a place on to the front; those behind them stay.
// A loop and no `copy_within`, which moves a byte at a time where the two parts overlap; and nothing is touched where
// they stand at the front.
pub fn shift(s: &mut [u8], from: usize)
    ensures { s.new ≡ put 0 (drop from s.old) s.old }
{
    if from == 0 {
        return;
    }
    for j in from..s.len() {
        s[j - from] = s[j];
    }
}
