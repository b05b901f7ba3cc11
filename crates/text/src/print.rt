// Each puts its text at a place of the room and answers the place after it, or puts nothing and answers the place where
// there is no room for all of it.
// A place by value and no struct over the room: public functions, and `Printed` speaks of the room and the place.
ghost use Rattle.std.specs.Prelude.{◌≡◌, ◌<◌, [], ◌∷◌};
ghost use Rattle.io.specs.Digits.{last_digits};
ghost use Rattle.io.specs.Digits.{hex_digit_ascii as Digits·glyph};
ghost use Rattle.text.specs.Text.{Printed, Decimal, hex_bytes};

pub fn put(out: &mut [u8], at: usize, b: u8) -> usize
    ensures { Printed at (b ∷ []) out.old out.new result }
{
    if at < out.len() {
        out[at] = b;
        return at + 1;
    }
    at
}

pub fn text(out: &mut [u8], at: usize, s: &[u8]) -> usize
    ensures { Printed at s.now out.old out.new result }
{
    if out.len() < s.len() {
        return at;
    }
    if out.len() - s.len() < at {
        return at;
    }
    let end = at + s.len();
    out[at..end].copy_from_slice(s);
    end
}

// The character of a hexadecimal digit.
fn glyph(d: u8) -> u8
    requires { d < 16 }
    ensures { result ≡ Digits·glyph d }
{
    if d < 10 { 48 + d } else { 87 + d }
}

// The last n hexadecimal digits of a number, the high one first.
pub fn hex(out: &mut [u8], at: usize, x: u64, n: usize) -> usize
    ensures { Printed at (last_digits 16 n x) out.old out.new result }
{
    if out.len() < n {
        return at;
    }
    if out.len() - n < at {
        return at;
    }
    // From the last digit to the first: the number that is left is divided on the way.
    let mut rest = x;
    for i in (0..n).rev() {
        out[at + i] = glyph((rest % 16) as u8);
        rest = rest / 16;
    }
    at + n
}

// Two hexadecimal digits for each byte.
pub fn bytes(out: &mut [u8], at: usize, s: &[u8]) -> usize
    ensures { Printed at (hex_bytes s.now) out.old out.new result }
{
    if out.len() < at {
        return at;
    }
    if (out.len() - at) / 2 < s.len() {
        return at;
    }
    // By index: the bytes go by one and the room by two.
    for i in 0..s.len() {
        let b = s[i];
        let k = at + i * 2;
        out[k] = glyph(b / 16);
        out[k + 1] = glyph(b % 16);
    }
    at + s.len() * 2
}

// A number in decimal.
pub fn decimal(out: &mut [u8], at: usize, x: u64) -> usize
    ensures { Decimal at x out.old out.new result }
{
    let mut digits = [0u8; 20];
    let k = io::decimal(x, &mut digits);
    text(out, at, &digits[..k])
}
