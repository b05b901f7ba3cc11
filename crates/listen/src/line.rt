// The lines that tell what was heard. Each is composed in a room of its own, which holds the longest one, and then put
// into the lent room whole, or not at all.
// `text, at` is the lent room and a place in it, as the functions of `text::print` take them.
ghost use Rattle.std.specs.Prelude.{◌≡◌, ◌≤◌, ◌++◌, length};
ghost use Rattle.text.specs.Text.{Printed};
ghost use Rattle.reassembly.specs.Parts.{of_outcome};
ghost use Rattle.listen.specs.Lines.{decimal, newline, frame_line, bad_line, end_line};

use octets::refusal::Refusal;
use reassembly::Outcome;
use text::print;

// A number between two words.
fn put_one(text: &mut [u8], at: usize, front: &[u8], n: u64, back: &[u8]) -> usize
    requires { (length front.now ≤ 8) × (length back.now ≤ 8) }
    ensures { Printed at (front.now ++ (decimal n ++ back.now))
        text.old text.new result }
{
    let mut line = [0u8; 64];
    let a = print::text(&mut line, 0, front);
    let b = print::decimal(&mut line, a, n);
    let c = print::text(&mut line, b, back);
    print::text(text, at, &line[0..c])
}

// Two numbers with a word between them, and the line's end.
fn put_two(text: &mut [u8], at: usize, n: u64, word: &[u8], x: u64) -> usize
    requires { length word.now ≤ 8 }
    ensures { Printed at (decimal n ++ (word.now ++ (decimal x ++ newline)))
        text.old text.new result }
{
    let mut line = [0u8; 64];
    let a = print::decimal(&mut line, 0, n);
    let b = print::text(&mut line, a, word);
    let c = print::decimal(&mut line, b, x);
    let d = print::put(&mut line, c, b'\n');
    print::text(text, at, &line[0..d])
}

// What frame n came to.
pub fn put_frame(text: &mut [u8], at: usize, n: u64, answer: Result<Outcome, Refusal>) -> usize
    ensures { Printed at (frame_line n (of_outcome answer)) text.old text.new result }
{
    match answer {
        Ok(Outcome::Kept) => put_one(text, at, b"", n, b" kept\n"),
        Ok(Outcome::Out(len)) => put_two(text, at, n, b" out ", len as u64),
        Err(e) => put_two(text, at, n, b" no ", e.number() as u64),
    }
}

// That block b is bad.
pub fn put_bad(text: &mut [u8], at: usize, b: u64) -> usize
    ensures { Printed at (bad_line b) text.old text.new result }
{
    put_one(text, at, b"block ", b, b" no 15\n")
}

// That n frames were heard, and no more come.
pub fn put_end(text: &mut [u8], at: usize, n: u64) -> usize
    ensures { Printed at (end_line n) text.old text.new result }
{
    put_one(text, at, b"end ", n, b"\n")
}
