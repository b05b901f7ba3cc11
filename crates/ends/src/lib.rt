// Where a program that moves a file reads and writes: standard input and output, or two files by name.
//
// - `open` reads the arguments. None: standard input and output. Two: the first is read, and what is written goes to a
//   new file beside the second, named as that with `.part` behind it. Anything else is answered by a usage line.
// - `close` ends it. A file that is whole takes the second name; one that is not is removed, so that no half file is
//   left.
//
// A path of std is text in UTF-8, so that a name of other bytes is answered as one that the system has no character
// for.
#![tactic(auto)]

ghost use Rattle.std.specs.Prelude.{◌≡◌, ◌≤◌, true, length, IfOk, OnOk, MatchResult, IsUtf8};
ghost use Rattle.std.specs.Io.KnownBytes.{Appends};
ghost use Rattle.ends.specs.Closing.{Status};
ghost use Rattle.ends.specs.Line.{AppendsLine};

use std::env::{Env, FillError};
use std::fs::{File, OpenOptions};
use std::io::{Cursor, Read, Stderr, Stdin, Stdout, Write};
use std::{fs, io};
use text::field::upto;
use text::print;

// Linux's numbers of three errors: an argument that is not there, one that is too long, and a name that is no text.
const EINVAL: i32 = 22;

const ENAMETOOLONG: i32 = 36;

const EILSEQ: i32 = 84;

// What is read.
#[derive(Drop)]
pub enum ReadEnd {
    Standard(Stdin),
    Named(File),
}

impl Read for ReadEnd {
    fn read(&mut self, buf: &mut [u8]) -> io::Result<usize> {
        match self {
            ReadEnd::Standard(stdin) => stdin.read(buf),
            ReadEnd::Named(file) => file.read(buf),
        }
    }
}

// What is written.
#[derive(Drop)]
pub enum WriteEnd {
    Standard(Stdout),
    Named(File),
}

impl Write for WriteEnd {
    fn write(&mut self, buf: &[u8]) -> io::Result<usize> {
        match self {
            WriteEnd::Standard(stdout) => stdout.write(buf),
            WriteEnd::Named(file) => file.write(buf),
        }
    }

    fn flush(&mut self) -> io::Result<()> {
        match self {
            WriteEnd::Standard(stdout) => stdout.flush(),
            WriteEnd::Named(file) => file.flush(),
        }
    }
}

// Names in the room that the caller lends: how many bytes the new file's has, and how many of them are the second
// argument. The bytes stand in that room: no heap, fixed memory.
#[derive(Clone, Copy)]
pub struct Names {
    pub part: usize,
    pub name: usize,
}

// The two ends, and where errors are said; and the names, where what is written goes to a file.
#[derive(Drop)]
pub struct Ends {
    pub input: ReadEnd,
    pub output: WriteEnd,
    pub errors: Stderr,
    pub names: Option<Names>,
}

// The system's text of an error, without its number.
fn without_number(text: &str) -> &str {
    match text.split_once(" (os error ") {
        Some((before, _)) => before,
        None => text,
    }
}

// The system's text of an error, in the front of a room, and how long it is.
// (An array and a length: no heap, fixed memory.)
fn told(error: &io::Error) -> ([u8; 512], usize) {
    let mut room = Cursor::new([0u8; 512]);
    let _ = write!(room, "{error}");
    let n = room.position() as usize;
    let bytes = room.into_inner();
    let len = match str::from_utf8(upto(&bytes, n)) {
        Ok(text) => without_number(text).len(),
        Err(_) => 0,
    };
    (bytes, len)
}

// Writes a line: what failed, as the caller names it, a colon and the error's text. What cannot be written is passed
// over, and answered last.
pub fn fail<W: Write>(errors: &mut W, what: &[u8], error: &io::Error) -> io::Result<()>
    ensures { OnOk result (AppendsLine (W.contents errors.old) (W.contents errors.new) what.now) }
{
    let (text, n) = told(error);
    let label = errors.write_all(what);
    let colon = errors.write_all(b": ");
    let words = errors.write_all(upto(&text, n));
    let end = errors.write_all(b"\n");
    label?;
    colon?;
    words?;
    end
}

// Why an argument cannot be had.
fn missing(error: FillError) -> io::Error {
    match error {
        FillError::NotPresent => io::Error::from_raw_os_error(EINVAL),
        FillError::TooLong => io::Error::from_raw_os_error(ENAMETOOLONG),
    }
}

// A name as text.
fn text_of(name: &[u8]) -> io::Result<&str>
    ensures { MatchResult result (λ s. (s.now ≡ name.now) × IsUtf8 name.now) (λ _. ¬ (IsUtf8 name.now)) }
{
    match str::from_utf8(name) {
        Ok(text) => Ok(text),
        Err(_) => Err(io::Error::from_raw_os_error(EILSEQ)),
    }
}

// How many arguments the program was started with, its own name among them; 4 where there are more.
pub fn arg_count(rt: &HostRuntime) -> usize
    ensures { result ≤ 4 }
{
    let mut room = [0u8; 1];
    for n in 0..4usize {
        if let Err(FillError::NotPresent) = rt.arg(n, &mut room) {
            return n;
        }
    }
    4
}

// Opens a file to read: none whose name is no text.
pub fn open_read(rt: &HostRuntime, name: &[u8]) -> io::Result<File>
    ensures { IfOk result (λ _. IsUtf8 name.now) }
{
    File::open(rt, text_of(name)?)
}

// Makes a file to write, where there is none of that name.
fn create(rt: &HostRuntime, name: &[u8]) -> io::Result<File> {
    let text = text_of(name)?;
    OpenOptions::new()
        .write(true)
        .create_new(true)
        .open(rt, text)
}

fn rename(rt: &HostRuntime, from: &[u8], to: &[u8]) -> io::Result<()> {
    fs::rename(rt, text_of(from)?, text_of(to)?)
}

fn unlink(rt: &HostRuntime, name: &[u8]) -> io::Result<()> {
    fs::remove_file(rt, text_of(name)?)
}

// Writes bytes; false where it cannot, and why was said.
// A bool and no Result: why was said, so there is no error to hand on.
pub fn send<W: Write, E: Write>(output: &mut W, errors: &mut E, bytes: &[u8]) -> bool
    ensures { result ≡ true → Appends (W.contents output.old) (W.contents output.new) bytes.now }
{
    match output.write_all(bytes) {
        Ok(()) => true,
        Err(error) => {
            let _ = fail(errors, b"write", &error);
            false
        }
    }
}

// What was had; or nothing, and why was said.
fn or_said<T>(rt: &HostRuntime, what: &[u8], had: io::Result<T>) -> Option<T> {
    match had {
        Ok(x) => Some(x),
        Err(error) => {
            let _ = fail(&mut rt.stderr(), what, &error);
            None
        }
    }
}

// Opens the file to read, and makes the one to write: `part` is its name, and `name` is how many bytes of it the second
// argument has.
fn open_both(rt: &HostRuntime, from: &[u8], part: &[u8], name: usize) -> Option<Ends> {
    let input = or_said(rt, from, open_read(rt, from))?;
    let output = or_said(rt, part, create(rt, part))?;
    Some(Ends {
        input: ReadEnd::Named(input),
        output: WriteEnd::Named(output),
        errors: rt.stderr(),
        names: Some(Names {
            part: part.len(),
            name,
        }),
    })
}

// The second argument and `.part` behind it.
fn open_named(rt: &HostRuntime, from: &[u8], part: &mut [u8]) -> Option<Ends> {
    let name = or_said(rt, b"the second argument", rt.arg(2, part).map_err(missing))?;
    let all = print::text(part, name, b".part");
    if all == name {
        let _ = rt.stderr().write_all(b"the second argument is too long\n");
        return None;
    }
    open_both(rt, from, upto(part, all), name)
}

// Opens what the arguments name; none where nothing is to be read or written, and why was said. The name of the file to
// write goes to `part`.
pub fn open(rt: &HostRuntime, usage: &[u8], part: &mut [u8]) -> Option<Ends>
    ensures { length part.new ≡ length part.old }
{
    let n = arg_count(rt);
    if n == 1 {
        return Some(Ends {
            input: ReadEnd::Standard(rt.stdin()),
            output: WriteEnd::Standard(rt.stdout()),
            errors: rt.stderr(),
            names: None,
        });
    }
    if n != 3 {
        let _ = rt.stderr().write_all(usage);
        return None;
    }
    let mut from = [0u8; 4096];
    let m = or_said(
        rt,
        b"the first argument",
        rt.arg(1, &mut from).map_err(missing),
    )?;
    open_named(rt, upto(&from, m), part)
}

// Closes the end that was written, once the system has put away all of it: what it says only then, as that no room is
// left, a close in std would not tell.
fn shut(output: WriteEnd) -> io::Result<()> {
    match output {
        WriteEnd::Standard(_) => Ok(()),
        WriteEnd::Named(file) => file.sync_all(),
    }
}

// Ends it, with all moved or not: 0, or -1 where no file was left under the second name. A number, as C has a status:
// the contract, `Status`, speaks of it.
pub fn close(rt: &HostRuntime, e: Ends, whole: bool, part: &[u8]) -> i32
    ensures { Status result }
{
    let Some(Names { part: all, name }) = e.names else {
        return 0;
    };
    let closed = shut(e.output);
    if let Err(error) = closed {
        let _ = fail(&mut rt.stderr(), b"close", &error);
    }
    if whole && closed.is_ok() {
        match rename(rt, upto(part, all), upto(part, name)) {
            Ok(()) => return 0,
            Err(error) => {
                let _ = fail(&mut rt.stderr(), upto(part, name), &error);
            }
        }
    }
    let _ = unlink(rt, upto(part, all));
    -1
}
