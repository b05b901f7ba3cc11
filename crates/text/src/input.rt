// Lines of input, each answered in its turn.
ghost use Rattle.std.specs.Prelude.{◌≡◌, ◌≤◌, ◌+◌, ◌-◌, ◌<◌, ℕ, List, [], length, take, drop, get_or};
ghost use Rattle.std.specs.Prelude.{IfSome, IfNone, OnOk};
ghost use Rattle.text.specs.Waiting.{with_text, Grows};
ghost use Rattle.text.specs.Bytes.{index_of};
ghost use Rattle.text.specs.Filling.{FilledTo};

use super::field::{Fields, at};
use super::line::{find, shift};
use super::out::Out;
use std::io;
use std::io::{Read, Write};
use std::marker::Model;

// As much as a read brings: one of few bytes costs as much as one of many.
pub const ROOM: usize = 65536;

// What answers commands, a line each.
pub trait Answers {
    // How many bytes an answer takes at most beyond the line itself.
    const LONGEST: usize;

    // Whether reading goes on behind a last line that lacked its end. Somebody at a terminal may go on there; where
    // nobody does, the end has to be said once more.
    const READS_ON: bool = true;

    // Whether a write that failed ends the answers to the lines that were read by then too. Else these are answered, and
    // written if that goes well again; nothing more is read.
    const STOPS_AT_ONCE: bool = true;

    // Puts the answer to a command, without a line feed. Where the line is none, None is answered and nothing put.
    fn answer(&mut self, name: &[u8], fields: Fields<'_>, out: &mut Out) -> Option<()>
        ensures { IfNone result (out.new ≡ out.old) };
}

// No heap: the input, the output and what the lines say stand in rooms of a fixed size.
//
// The input that is read and not taken yet stands from `start` to `have`, and no line ends before `from`. `closed`: the
// last line got the end that it lacked.
#[derive(Drop)]
struct Input {
    room: [u8; ROOM],
    start: usize,
    from: usize,
    have: usize,
    closed: bool,
}

impl Model for Input {
    ghost Value = { List ℕ };

    ghost view = { λ i. drop i.start (take i.have i.room) };

    ghost invariant = { λ i. (i.start ≤ i.from) × (i.from ≤ i.have) × (i.have ≤ 65536)
        × (index_of 10 (drop i.start (take i.from i.room)) ≡ i.from - i.start) };
}

// What reading on came to.
#[derive(Clone, Copy, PartialEq, Eq)]
enum Filled {
    More,
    // The room is full of the beginning of one line.
    Full,
    End,
}

impl Input {
    fn new() -> Input
        ensures { result ≡ [] }
    {
        Input {
            room: [0; ROOM],
            start: 0,
            from: 0,
            have: 0,
            closed: false,
        }
    }

    fn len(&self) -> usize
        ensures { result ≡ length self.now }
    {
        self.have - self.start
    }

    // How long the next line is, if it has ended.
    fn line_len(&mut self) -> Option<usize>
        ensures some { IfSome result (λ n. (n ≡ index_of 10 self.old) × (n < length self.old)) }
        ensures none { IfNone result (index_of 10 self.old ≡ length self.old) }
        ensures same { self.new ≡ self.old }
    {
        let end = find(&self.room[..self.have], self.from, b'\n');
        if end < self.have {
            self.from = end;
            return Some(end - self.start);
        }
        self.from = self.have;
        None
    }

    // The first n bytes.
    fn front(&self, n: usize) -> &[u8]
        requires { n ≤ length self.now }
        ensures { result.now ≡ take n self.now }
    {
        &self.room[self.start..self.start + n]
    }

    // Passes over a line of n bytes and its line feed.
    fn pass_line(&mut self, n: usize)
        requires { n < length self.old }
        ensures { self.new ≡ drop (n + 1) self.old }
    {
        self.start = self.start + n + 1;
        self.from = self.start;
    }

    // Reads more behind what is left, which moves to the front. Where nothing comes any more, the last line gets the
    // end that it lacks. A line that fills the room is forgotten.
    fn fill<R: Read>(&mut self, reader: &mut R) -> Filled
        ensures { FilledTo result self.old self.new }
    {
        let start = self.start;
        let have = self.have;
        let n = have - start;
        shift(&mut self.room[..have], start);
        self.start = 0;
        if n == ROOM {
            self.from = 0;
            self.have = 0;
            return Filled::Full;
        }
        self.from -= start;
        self.have = n;
        // A read that fails is the end of the input.
        let more = reader.read(&mut self.room[n..]).unwrap_or(0);
        if 0 < more {
            self.have = n + more;
            return Filled::More;
        }
        if n == 0 {
            return Filled::End;
        }
        self.room[n] = b'\n';
        self.have = n + 1;
        self.closed = true;
        Filled::More
    }
}

// A line that starts with `#` is answered by itself, and one that is no command by `bad`.
fn answer_line<A: Answers>(answers: &mut A, line: &[u8], out: &mut Out)
    ensures { get_or line.now 0 0 ≡ 35 → out.new ≡ with_text out.old line.now }
{
    if at(line, 0) == b'#' {
        out.text(line);
        return;
    }
    let mut fields = Fields::new(line);
    // A match and no `and_then`: its closure would hold the fields and two places that are lent.
    let answered = match fields.word() {
        Some(name) => answers.answer(name, fields, out),
        None => None,
    };
    if answered.is_none() {
        out.text(b"bad");
    }
}

// Answers a line that was read, or else reads more; whether something is left. `skip`: the beginning of a line that was
// too long is gone and answered, and the rest of it is passed over.
// Six by themselves: a struct of lent places with three type parameters, made for the one call, is no plainer.
#[tactic(auto, using(crate::proofs::Waiting::grows_same))]
fn turn<R: Read, W: Write, A: Answers>(
    reader: &mut R,
    writer: &mut W,
    answers: &mut A,
    input: &mut Input,
    out: &mut Out,
    skip: &mut bool,
) -> io::Result<bool>
    ensures { OnOk result (Grows (W.contents writer.old) (W.contents writer.new)) }
{
    if let Some(n) = input.line_len() {
        if *skip {
            *skip = false;
            input.pass_line(n);
            return Ok(true);
        }
        out.make_room(writer, n.saturating_add(A::LONGEST))?;
        answer_line(answers, input.front(n), out);
        out.put(b'\n');
        input.pass_line(n);
        return Ok(true);
    }
    out.flush(writer)?;
    if input.closed && !A::READS_ON {
        return Ok(false);
    }
    let filled = input.fill(reader);
    if filled == Filled::Full {
        if !*skip {
            out.text(b"bad long\n");
        }
        *skip = true;
    }
    Ok(filled != Filled::End)
}

// Answers lines as they come, until the input ends or a write fails.
#[tactic(auto, using(crate::proofs::Waiting::grows_same))]
fn answer_all<R: Read, W: Write, A: Answers>(
    reader: &mut R,
    writer: &mut W,
    answers: &mut A,
    input: &mut Input,
    out: &mut Out,
) -> io::Result<()>
    ensures { OnOk result (Grows (W.contents writer.old) (W.contents writer.new)) }
{
    let mut skip = false;
    // Nothing says that the input ends, so the turns are counted, to a number that no run reaches.
    for _ in 0..u64::MAX {
        if !turn(reader, writer, answers, input, out, &mut skip)? {
            break;
        }
    }
    Ok(())
}

// A write failed, and what waited is lost: the lines that were read are answered, and written as they were to be.
fn answer_read<W: Write, A: Answers>(
    writer: &mut W,
    answers: &mut A,
    input: &mut Input,
    out: &mut Out,
)
    ensures { index_of 10 input.new ≡ length input.new }
{
    out.clear();
    // A line takes a byte at least, so that there are no more of them than bytes.
    for _ in 0..input.len() {
        let Some(n) = input.line_len() else {
            break;
        };
        if out.make_room(writer, n.saturating_add(A::LONGEST)).is_err() {
            out.clear();
        }
        answer_line(answers, input.front(n), out);
        out.put(b'\n');
        input.pass_line(n);
    }
    // Nobody is left to be told.
    let _ = out.flush(writer);
}

// Reads lines to the end and writes an answer to each, one that is too long by `bad long`. Answers wait while a line is
// left that was read.
pub fn answer_each<R: Read, W: Write, A: Answers>(
    reader: &mut R,
    writer: &mut W,
    answers: &mut A,
) -> io::Result<()>
    ensures { OnOk result (Grows (W.contents writer.old) (W.contents writer.new)) }
{
    let mut input = Input::new();
    let mut out = Out::new();
    let answered = answer_all(reader, writer, answers, &mut input, &mut out);
    if answered.is_err() && !A::STOPS_AT_ONCE {
        answer_read(writer, answers, &mut input, &mut out);
    }
    answered
}
