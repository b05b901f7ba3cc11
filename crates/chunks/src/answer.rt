// The parts of an answer.
// By functions and not by `Display`: the types are of other crates, and the form is this program's (tests/README.md).
use capture::block::{BLOCK, count, frame, time};
use feed::Found;
use octets::refusal::Refusal;
use text::field::part;
use text::out::Out;

// The frame in place k with its time.
fn timed(out: &mut Out, block: &[u8], k: usize) {
    out.put(b' ');
    out.decimal(time(block, k) as u64);
    out.put(b':');
    out.bytes_or_dash(frame(block, k));
}

// The frames of the first n blocks, in order: a call completes two at most.
// A room and a count, as `feed` answers them (`Fed.blocks`, `Found::Blocks`): no heap.
fn frames(out: &mut Out, blocks: &[u8], n: usize) {
    for i in 0..n.min(2) {
        let block = part(blocks, i * BLOCK, BLOCK);
        for k in 0..count(block).min(3) {
            timed(out, block, k);
        }
    }
}

// What a call found; the blocks that it completed stand one behind the other.
pub fn found(out: &mut Out, found: Result<Found, Refusal>, blocks: &[u8]) {
    match found {
        Ok(Found::Blocks(n)) => {
            out.text(b"ok");
            frames(out, blocks, n);
        }
        Ok(Found::Bad(n, block)) => {
            out.text(b"ok");
            frames(out, blocks, n);
            out.text(b" bad ");
            out.decimal(block);
        }
        Err(e) => out.refused(e),
    }
}
