// The fields of a line, read one after another.
//
// A place in a line is where its next field starts, and one past its length behind the last field. Each reader takes a
// place and answers the field's value with the next place, or None where the field is not of its kind; `?` hands that
// on. `Fields` keeps the line and the place.
ghost use Rattle.std.specs.Prelude.{◌≡◌, ◌+◌, length, take, ◌==◌, slice_index};
ghost use Rattle.text.specs.Fields.{part_of, behind_of, nibble_of, hex_at, digits_at, decimal_of, end_of};
ghost use Rattle.text.specs.Fields.{number_at};
ghost use Rattle.std.specs.Prelude.{None, Some, option_map, unwrap_or};
ghost use Rattle.octets.specs.Read.{choose};
ghost use Rattle.text.specs.Fields.{read_of, place_of, letter_at, word_at};
ghost use Rattle.text.specs.Fields.{decimal_at, count_of, pairs_in, are_pairs, bytes_at, room_after};

use super::line::find;

// The byte at a place, or 0 past the end: one line, so that a function shared by all crates would be as long.
pub fn at(s: &[u8], i: usize) -> u8
    ensures { result ≡ slice_index s.now i }
{
    if i < s.len() { s[i] } else { 0 }
}

// The bytes before a place; all where it lies past the end.
pub fn upto(s: &[u8], n: usize) -> &[u8]
    ensures { result.now ≡ take n s.now }
{
    if n <= s.len() {
        return &s[0..n];
    }
    s
}

// So many bytes from a place on; none where there are fewer.
#[tactic(auto, unfolding(crate::specs::Fields::part_of))]
pub fn part(s: &[u8], from: usize, n: usize) -> &[u8]
    ensures { result.now ≡ part_of from n s.now }
{
    if s.len() < from {
        return &s[0..0];
    }
    if s.len() - from < n {
        return &s[0..0];
    }
    let end = from + n;
    &s[from..end]
}

// Whether a line's fields were all read, and each was of its kind.
pub fn ended(line: &[u8], next: usize) -> bool
    ensures { result ≡ (next == length line.now + 1) }
{
    next == line.len() + 1
}

// The place behind a field that is to end at `end`.
#[tactic(auto, unfolding(crate::specs::Fields::behind_of))]
pub fn behind(line: &[u8], end: usize) -> Option<usize>
    ensures { result ≡ behind_of line.now end }
{
    if end < line.len() {
        if line[end] == b' ' {
            return Some(end + 1);
        }
        return None;
    }
    if end == line.len() {
        return Some(end + 1);
    }
    None
}

// The value of a hexadecimal digit, or 16. Two differences that wrap and two tests compile to code without jumps, which
// drawn digits would mispredict.
// 16 and no None, as `nibble_of` of specs/Fields: what is no digit is gathered by an or, with no test for each.
fn nibble(b: u8) -> u8
    ensures { result ≡ nibble_of b }
{
    let decimal = b.wrapping_sub(b'0');
    let letter = b.wrapping_sub(b'a');
    if letter < 6 {
        letter + 10
    } else if decimal < 10 {
        decimal
    } else {
        16
    }
}

// The number of hexadecimal digits, its low 64 bits, and the place `end` behind them; None where one is no digit.
fn value(s: &[u8], end: usize) -> Option<(u64, usize)>
    ensures { result ≡ hex_at s.now end }
{
    let mut value: u64 = 0;
    let mut worst: u8 = 0;
    for b in s {
        let d = nibble(*b);
        worst = worst | d;
        value = value % 0x1000_0000_0000_0000 * 16 + (d % 16) as u64;
    }
    if worst < 16 {
        return Some((value, end));
    }
    None
}

// So many hexadecimal digits, and the place just behind them.
// This and the four readers below stay beside the methods of `Fields`: public, an equation each on line and place.
#[tactic(auto, unfolding(crate::specs::Fields::digits_at))]
pub fn digits(line: &[u8], from: usize, n: usize) -> Option<(u64, usize)>
    ensures { result ≡ digits_at line.now from n }
{
    if line.len() < n {
        return None;
    }
    if line.len() - n < from {
        return None;
    }
    let end = from + n;
    value(&line[from..end], end)
}

// A field of so many hexadecimal digits.
#[tactic(auto, unfolding(crate::specs::Fields::number_at))]
pub fn number(line: &[u8], from: usize, n: usize) -> Option<(u64, usize)>
    ensures { result ≡ number_at line.now from n }
{
    let (x, end) = digits(line, from, n)?;
    let next = behind(line, end)?;
    Some((x, next))
}

// The number of decimal digits, and the place `end` behind them; None where one is no digit, or it does not fit.
fn decimal_value(s: &[u8], end: usize) -> Option<(u64, usize)>
    ensures { result ≡ decimal_of 0 s.now end }
{
    let mut value: u64 = 0;
    for b in s {
        let d = b.wrapping_sub(b'0');
        if 9 < d {
            return None;
        }
        value = value.checked_mul(10)?.checked_add(d as u64)?;
    }
    Some((value, end))
}

// A field of decimal digits that say a number of 64 bits.
#[tactic(auto, unfolding(crate::specs::Fields::decimal_at, crate::specs::Fields::end_of))]
pub fn decimal(line: &[u8], from: usize) -> Option<(u64, usize)>
    ensures { result ≡ decimal_at line.now from }
{
    let end = find(line, from, b' ');
    if from < end {
        return decimal_value(&line[from..end], end + 1);
    }
    None
}

// Puts the bytes of so many pairs of digits to the front of the room; answers whether all were there, and each is a
// digit.
fn pairs(s: &[u8], room: &mut [u8], n: usize) -> bool
    ensures { (result ≡ are_pairs n s.now room.old)
        × (room.new ≡ pairs_in n s.now room.old) }
{
    if room.len() < n {
        return false;
    }
    if s.len() / 2 < n {
        return false;
    }
    let mut worst: u8 = 0;
    // By index: the room goes by one and the digits by two, and a zip with `chunks_exact(2)` names both by index too.
    for i in 0..n {
        let hi = nibble(s[i * 2]);
        let lo = nibble(s[i * 2 + 1]);
        worst = worst | hi | lo;
        room[i] = hi % 16 * 16 + lo % 16;
    }
    worst < 16
}

// How many bytes a field from one place to another holds: '-' none, pairs of digits one each; None where it is neither.
#[tactic(auto, unfolding(crate::specs::Fields::count_of))]
fn count(line: &[u8], from: usize, end: usize) -> Option<usize>
    ensures { result ≡ count_of line.now from end }
{
    if end <= from {
        return None;
    }
    let n = end - from;
    if n % 2 == 0 {
        return Some(n / 2);
    }
    if n == 1 {
        if at(line, from) == b'-' {
            return Some(0);
        }
        return None;
    }
    None
}

// A field from one place to another, of bytes in hexadecimal, '-' for none, put into the room. A space is no digit, so
// what ends at the line's end and is all digits is one field.
#[tactic(auto, unfolding(crate::specs::Fields::bytes_at, crate::specs::Fields::room_after, crate::specs::Fields::are_pairs, crate::specs::Fields::pairs_in))]
fn bytes_to(line: &[u8], from: usize, end: usize, room: &mut [u8]) -> Option<(usize, usize)>
    ensures { (result ≡ bytes_at line.now from end room.old)
        × (room.new ≡ room_after line.now from end room.old) }
{
    let n = count(line, from, end)?;
    if room.len() < n {
        return None;
    }
    if pairs(part(line, from, n * 2), room, n) {
        let next = behind(line, end)?;
        return Some((n, next));
    }
    None
}

// A field of bytes in hexadecimal, '-' for none, put to the front of the room: how many there are.
// A count beside the lent room, as `bytes_at` of specs/Fields has it: no heap, so no Vec.
#[tactic(auto, unfolding(crate::specs::Fields::end_of))]
pub fn bytes(line: &[u8], from: usize, room: &mut [u8]) -> Option<(usize, usize)>
    ensures { (result ≡ bytes_at line.now from (end_of line.now from) room.old)
        × (room.new
        ≡ room_after line.now from (end_of line.now from) room.old) }
{
    let end = find(line, from, b' ');
    bytes_to(line, from, end, room)
}

// The bytes of a line's last field: its end need not be looked for.
pub fn last_bytes(line: &[u8], from: usize, room: &mut [u8]) -> Option<(usize, usize)>
    ensures { (result ≡ bytes_at line.now from (length line.now) room.old)
        × (room.new ≡ room_after line.now from (length line.now) room.old) }
{
    bytes_to(line, from, line.len(), room)
}

// A line, and the place where its next field starts. A reader that answers None leaves the place. The functions above,
// which take and answer places, are public still: what they promise stands.
#[derive(Clone, Copy)]
pub struct Fields<'a> {
    pub line: &'a [u8],
    pub at: usize,
}

impl<'a> Fields<'a> {
    // All fields of a line.
    pub const fn new(line: &'a [u8]) -> Fields<'a>
        ensures { (result.line.now ≡ line.now) × (result.at ≡ 0) }
    {
        Fields { line, at: 0 }
    }

    // The next byte, or 0 where there is none.
    pub fn peek(&self) -> u8
        ensures { result ≡ slice_index self.now.line.now self.now.at }
    {
        at(self.line, self.at)
    }

    // Passes over one byte of the field.
    pub fn letter(&mut self) -> Option<u8>
        ensures value { result ≡ read_of (letter_at self.old.line.now self.old.at) }
        ensures place { self.new.at ≡ place_of (letter_at self.old.line.now self.old.at) self.old.at }
        ensures line { self.new.line.now ≡ self.old.line.now }
    {
        let b = *self.line.get(self.at)?;
        self.at += 1;
        Some(b)
    }

    // The field ends here.
    pub fn close(&mut self) -> Option<()>
        ensures value { result ≡ option_map (λ _. tt) (behind_of self.old.line.now self.old.at) }
        ensures place { self.new.at ≡ unwrap_or (behind_of self.old.line.now self.old.at) self.old.at }
        ensures line { self.new.line.now ≡ self.old.line.now }
    {
        self.at = behind(self.line, self.at)?;
        Some(())
    }

    // Any field, as it stands.
    #[tactic(auto, using(crate::proofs::Fields::word_ends), unfolding(crate::specs::Fields::end_of))]
    pub fn word(&mut self) -> Option<&'a [u8]>
        ensures value { option_map (λ w. w.now) result ≡ read_of (word_at self.old.line.now self.old.at) }
        ensures place { self.new.at ≡ place_of (word_at self.old.line.now self.old.at) self.old.at }
        ensures line { self.new.line.now ≡ self.old.line.now }
    {
        let end = find(self.line, self.at, b' ');
        let word = self.line.get(self.at..end)?;
        self.at = end + 1;
        Some(word)
    }

    pub fn digits(&mut self, n: usize) -> Option<u64>
        ensures value { result ≡ read_of (digits_at self.old.line.now self.old.at n) }
        ensures place { self.new.at ≡ place_of (digits_at self.old.line.now self.old.at n) self.old.at }
        ensures line { self.new.line.now ≡ self.old.line.now }
    {
        let (x, next) = digits(self.line, self.at, n)?;
        self.at = next;
        Some(x)
    }

    pub fn number(&mut self, n: usize) -> Option<u64>
        ensures value { result ≡ read_of (number_at self.old.line.now self.old.at n) }
        ensures place { self.new.at ≡ place_of (number_at self.old.line.now self.old.at n) self.old.at }
        ensures line { self.new.line.now ≡ self.old.line.now }
    {
        let (x, next) = number(self.line, self.at, n)?;
        self.at = next;
        Some(x)
    }

    pub fn decimal(&mut self) -> Option<u64>
        ensures value { result ≡ read_of (decimal_at self.old.line.now self.old.at) }
        ensures place { self.new.at ≡ place_of (decimal_at self.old.line.now self.old.at) self.old.at }
        ensures line { self.new.line.now ≡ self.old.line.now }
    {
        let (x, next) = decimal(self.line, self.at)?;
        self.at = next;
        Some(x)
    }

    // How many bytes the field put to the front of the room.
    pub fn bytes(&mut self, room: &mut [u8]) -> Option<usize>
        ensures value { result
            ≡ read_of (bytes_at self.old.line.now self.old.at (end_of self.old.line.now self.old.at) room.old) }
        ensures place { self.new.at
            ≡ place_of (bytes_at self.old.line.now self.old.at (end_of self.old.line.now self.old.at) room.old)
            self.old.at }
        ensures line { self.new.line.now ≡ self.old.line.now }
        ensures room { room.new
            ≡ room_after self.old.line.now self.old.at (end_of self.old.line.now self.old.at) room.old }
    {
        let (n, next) = bytes(self.line, self.at, room)?;
        self.at = next;
        Some(n)
    }

    // The same for the line's last field.
    pub fn last_bytes(&mut self, room: &mut [u8]) -> Option<usize>
        ensures value { result
            ≡ read_of (bytes_at self.old.line.now self.old.at (length self.old.line.now) room.old) }
        ensures place { self.new.at
            ≡ place_of (bytes_at self.old.line.now self.old.at (length self.old.line.now) room.old)
            self.old.at }
        ensures line { self.new.line.now ≡ self.old.line.now }
        ensures room { room.new
            ≡ room_after self.old.line.now self.old.at (length self.old.line.now) room.old }
    {
        let (n, next) = last_bytes(self.line, self.at, room)?;
        self.at = next;
        Some(n)
    }

    // All fields were read.
    pub fn end(&self) -> Option<()>
        ensures { result ≡ choose (self.now.at == length self.now.line.now + 1) (Some tt) None }
    {
        if ended(self.line, self.at) {
            return Some(());
        }
        None
    }
}
