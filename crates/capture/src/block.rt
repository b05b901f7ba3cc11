// Capture blocks (the scope document, "Capture blocks and the program"). In a block the number stands at 0, the count
// at 4; place k begins at 6 + 132 * k, its length byte 4 further and its frame 5 further; the places end at 402, and
// the check stands at 510.
ghost use Rattle.std.specs.Prelude.{◌≡◌, ◌<◌, ◌≤◌, min, length};
ghost use Rattle.capture.specs.Block.{count_of, length_at, time_of, frame_of, zero_in, good_place, good_head};
ghost use Rattle.capture.specs.Block.{good_places, good_end, good_block, judged};
ghost use Rattle.octets.specs.Answers.{of_answer};

use super::fcs::fcs;
use octets::cursor::{Cursor, value_or};
use octets::refusal::Refusal;

// The bytes of a block.
pub const BLOCK: usize = 512;

// The bytes of a place in a block: a time, a length and the room for a frame.
pub const PLACE: usize = 132;

// Where the check of a block stands.
pub const CHECK: usize = 510;

// How many frames a block holds: the first places, in order.
#[tactic(auto, unfolding(crate::specs::Block::count_of))]
pub fn count(block: &[u8]) -> usize
    ensures { result ≡ count_of block.now }
{
    if block.len() != BLOCK {
        return 0;
    }
    (block[4] as usize).min(3)
}

// The time, in ms, at which the frame in place k was heard; 0 where there is none.
#[tactic(auto, using(crate::proofs::BlockSteps::counted), unfolding(crate::specs::Block::time_of))]
pub fn time(block: &[u8], k: usize) -> u32
    ensures { result ≡ time_of k block.now }
{
    if k < count(block) {
        let at = 6 + PLACE * k;
        value_or((Cursor { at }).le32(block), 0)
    } else {
        0
    }
}

#[tactic(auto, using(crate::proofs::BlockSteps::counted))]
fn frame_len(block: &[u8], k: usize) -> usize
    requires { k < count_of block.now }
    ensures { result ≡ min 127 (length_at k block.now) }
{
    (block[6 + PLACE * k + 4] as usize).min(127)
}

// The bytes of the frame in place k; none where there is none.
#[tactic(auto, using(crate::proofs::BlockSteps::counted), unfolding(crate::specs::Block::frame_of))]
pub fn frame(block: &[u8], k: usize) -> &[u8]
    ensures { result.now ≡ frame_of k block.now }
{
    if k < count(block) {
        let from = 6 + PLACE * k + 5;
        let end = from + frame_len(block, k);
        return &block[from..end];
    }
    &block[0..0]
}

fn zero_in(s: &[u8], from: usize, to: usize) -> bool
    requires { (from ≤ to) × (to ≤ length s.now) }
    ensures { result ≡ zero_in from to s.now }
{
    s[from..to].iter().all(|b| *b == 0)
}

// That the block has 512 bytes is a clause of the four, told by the test in `good_block`: an array of that length
// would be had by a conversion behind the same test, and specs/Block.antt speaks of bytes of any length.
#[tactic(auto, unfolding(crate::specs::Block::good_place))]
fn good_place(block: &[u8], k: usize) -> bool
    requires { (length block.now ≡ 512) × (k < 3) }
    ensures { result ≡ good_place k block.now }
{
    let from = 6 + PLACE * k;
    if k < count(block) {
        let n = block[from + 4] as usize;
        if 127 < n {
            return false;
        }
        return zero_in(block, from + 5 + n, from + PLACE);
    }
    zero_in(block, from, from + PLACE)
}

#[tactic(auto, unfolding(crate::specs::Block::good_head))]
fn good_head(block: &[u8], number: u64) -> bool
    requires { length block.now ≡ 512 }
    ensures { result ≡ good_head number block.now }
{
    value_or(Cursor::START.le32(block), 0) as u64 == number && (block[4] <= 3 && block[5] == 0)
}

// (Three places, written out, as `good_places` of specs/Block.antt has them.)
#[tactic(auto, unfolding(crate::specs::Block::good_places))]
fn good_places(block: &[u8]) -> bool
    requires { length block.now ≡ 512 }
    ensures { result ≡ good_places block.now }
{
    good_place(block, 0) && (good_place(block, 1) && good_place(block, 2))
}

#[tactic(auto, unfolding(crate::specs::Block::good_end))]
fn good_end(block: &[u8]) -> bool
    requires { length block.now ≡ 512 }
    ensures { result ≡ good_end block.now }
{
    zero_in(block, 402, CHECK)
        && value_or((Cursor { at: CHECK }).le16(block), 0) == fcs(&block[0..CHECK])
}

#[tactic(auto, unfolding(crate::specs::Block::good_block))]
fn good_block(block: &[u8], number: u64) -> bool
    ensures { result ≡ good_block number block.now }
{
    if block.len() != BLOCK {
        return false;
    }
    good_head(block, number) && (good_places(block) && good_end(block))
}

// Whether the bytes are the good block of this number, the block's place in its file from 0. Numbers do not wrap: no
// block is good at a place of 2^32 or more.
#[tactic(auto, unfolding(crate::specs::Block::judged))]
pub fn judge(block: &[u8], number: u64) -> Result<usize, Refusal>
    ensures { of_answer result ≡ judged number block.now }
{
    if good_block(block, number) {
        Ok(count(block))
    } else {
        Err(Refusal::BadBlock)
    }
}
