// A capture that comes in chunks (the change request "Captures over the service cable").
ghost use Rattle.std.specs.Prelude.{◌≡◌, ◌≤◌, length};
ghost use Rattle.feed.specs.Reading.{read_on};
ghost use Rattle.feed.specs.Feed.{padded, starting, going_on, stopped, declined, answer_of, taken, after_chunk};
ghost use Rattle.feed.specs.Feed.{after_end};

use capture::block::{BLOCK, judge};
use octets::refusal::Refusal;

// The longest chunk; the bytes of two blocks; and room for what may be held and a chunk.
pub const CHUNK: usize = 600;

pub const TWO: usize = 1024;

const POOL: usize = 1112;

// Whether more is to come, the end was declared, or a bad block was found.
#[derive(Clone, Copy)]
pub enum Status {
    Live,
    Ended,
    Bad,
}

// The bytes of the block that has begun, with zeros behind them; how many they are; and the number of the block that
// is due. Once the end is declared or a block is bad, nothing is held, and the number stays.
// The length stands beside the bytes: no heap, fixed memory.
#[derive(Clone, Copy)]
pub struct Reader {
    pub held: [u8; BLOCK],
    pub len: usize,
    pub block: u64,
    pub status: Status,
}

// How many good blocks were completed; or how many, and the number of the bad block behind them.
#[derive(Clone, Copy)]
pub enum Found {
    Blocks(usize),
    Bad(usize, u64),
}

// The reader after a call, the good blocks one behind the other with zeros behind them, and what was found, or why the
// call was refused. Two blocks are the most: 511 bytes held and 600 more are fewer than three times 512. How many there
// are stands in what was found: no heap, fixed memory.
#[derive(Clone, Copy)]
pub struct Fed {
    pub reader: Reader,
    pub blocks: [u8; TWO],
    pub found: Result<Found, Refusal>,
}

impl Reader {
    // At the beginning of a capture.
    pub fn new() -> Reader
        ensures { result ≡ starting }
    {
        Reader {
            held: [0u8; BLOCK],
            len: 0,
            block: 0,
            status: Status::Live,
        }
    }
}

// The bytes, and zeros up to N.
fn padded<const N: usize>(s: &[u8]) -> [u8; N]
    requires { length s.now ≤ N }
    ensures { result ≡ padded N s.now }
{
    let mut room = [0u8; N];
    room[..s.len()].copy_from_slice(s);
    room
}

// n good blocks, and reading goes on.
#[tactic(auto, unfolding(crate::specs::Feed::going_on))]
fn go_on(good: &[u8], n: usize, block: u64, rest: &[u8]) -> Fed
    requires { (length good.now ≤ 1024) × (length rest.now ≤ 512) }
    ensures { result ≡ going_on good.now n block rest.now }
{
    Fed {
        reader: Reader {
            held: padded(rest),
            len: rest.len(),
            block,
            status: Status::Live,
        },
        blocks: padded(good),
        found: Ok(Found::Blocks(n)),
    }
}

// n good blocks, and then a bad one.
#[tactic(auto, unfolding(crate::specs::Feed::stopped))]
fn stop(good: &[u8], n: usize, block: u64) -> Fed
    requires { length good.now ≤ 1024 }
    ensures { result ≡ stopped good.now n block }
{
    Fed {
        reader: Reader {
            held: [0u8; BLOCK],
            len: 0,
            block,
            status: Status::Bad,
        },
        blocks: padded(good),
        found: Ok(Found::Bad(n, block)),
    }
}

// The reader stays, and nothing is found.
#[tactic(auto, unfolding(crate::specs::Feed::declined))]
fn refuse(reader: Reader, e: Refusal) -> Fed
    ensures { result ≡ declined reader e }
{
    Fed {
        reader,
        blocks: [0u8; TWO],
        found: Err(e),
    }
}

// The whole blocks at the front, up to the first bad one, and what is left behind them.
fn sort(block: u64, s: &[u8]) -> Fed
    requires { length s.now ≤ 1112 }
    ensures { result ≡ answer_of (read_on block s.now) }
{
    if s.len() < BLOCK {
        return go_on(&s[0..0], 0, block, s);
    }
    match judge(&s[0..BLOCK], block) {
        Ok(_) => {
            if s.len() < TWO {
                return go_on(&s[0..BLOCK], 1, block + 1, &s[BLOCK..s.len()]);
            }
            match judge(&s[BLOCK..TWO], block + 1) {
                Ok(_) => go_on(&s[0..TWO], 2, block + 2, &s[TWO..s.len()]),
                Err(_) => stop(&s[0..BLOCK], 1, block + 1),
            }
        }
        Err(_) => stop(&s[0..0], 0, block),
    }
}

// What is held, and the chunk behind it.
fn take_in(reader: Reader, s: &[u8]) -> Fed
    requires { length s.now ≤ 600 }
    ensures { result ≡ taken reader s.now }
{
    let len = reader.len.min(BLOCK);
    let all = len + s.len();
    let mut pool = [0u8; POOL];
    pool[..len].copy_from_slice(&reader.held[..len]);
    pool[len..all].copy_from_slice(s);
    sort(reader.block, &pool[..all])
}

// A chunk of a capture. It completes no block, one or two. A bad one closes the reader, and a good one before it is
// handed out all the same. Refused: 4 over 600 bytes; then 15 once a block was bad or the end declared. A refused chunk
// changes nothing.
#[tactic(auto, unfolding(crate::specs::Feed::after_chunk))]
pub fn chunk(reader: Reader, s: &[u8]) -> Fed
    ensures { result ≡ after_chunk reader s.now }
{
    if CHUNK < s.len() {
        return refuse(reader, Refusal::BadLength);
    }
    match reader.status {
        Status::Live => take_in(reader, s),
        Status::Ended | Status::Bad => refuse(reader, Refusal::BadBlock),
    }
}

// The end of a capture. What is held then is a bad block. Refused: 15 once a block was bad or the end declared.
#[tactic(auto, unfolding(crate::specs::Feed::after_end, crate::specs::Feed::finished, crate::specs::Feed::complete))]
pub fn end(reader: Reader) -> Fed
    ensures { result ≡ after_end reader }
{
    match reader.status {
        Status::Live => {
            if 0 < reader.len {
                return stop(&[0u8; 0], 0, reader.block);
            }
            Fed {
                reader: Reader {
                    held: [0u8; BLOCK],
                    len: 0,
                    block: reader.block,
                    status: Status::Ended,
                },
                blocks: [0u8; TWO],
                found: Ok(Found::Blocks(0)),
            }
        }
        Status::Ended | Status::Bad => refuse(reader, Refusal::BadBlock),
    }
}
