// The receiver: one call takes a time, a frame, contexts, the lent memory and an output, and a table that its caller
// keeps, as the 149 numbers of crate `words`.
//
// The answer, the table, the lent memory and the output of `receive` are, on every input, those of the slot table's
// `step` on what specs/Receive.antt says the frame is. No refusal but 17 writes a lent byte. The steps of a call stand
// here in the order of the scope document, "Expansion and the slot table": 7 and 8 are judged, the time is taken, the
// sender is looked for among the gateways, the payload is read, and a part goes to a slot.
#![tactic(auto)]

ghost use Rattle.octets.specs.Answers.{of_answer};
ghost use Rattle.std.specs.Prelude.{◌≡◌, ◌≤◌, length, eqb};
ghost use Rattle.octets.specs.Read.{choose};
ghost use Rattle.incoming.specs.Incoming.{bytes_of};
ghost use Rattle.reassembly.specs.Slots.{gates_of};
ghost use Rattle.reassembly.specs.Parts.{with_bytes, Hands};
ghost use Rattle.reassembly.specs.Table.{step, Gives};
ghost use Rattle.words.specs.Words.{table_in};
ghost use Rattle.receiver.specs.Receive.{sender_of, key_of, tested, call_of};
ghost use Rattle.receiver.specs.Steps.{judged, Admits, ReceivesIn, slot_for, TakesIn};

use expand::checksum::{UdpSum, is_right};
use expand::copy::put_slice;
use incoming::{Arrival, Payload};
use octets::refusal::Refusal;
use reassembly::part::Part;
use reassembly::table::SLOTS;
use reassembly::{Key, Node, Outcome, Source, Target, is_short, take_at};
use sixlowpan::frag::Units;
use words::WORDS;

// The bytes of the longest expansion, 455, and one more.
const SCRATCH: usize = 456;

// Refusals 7 and 8, which take no time: `last` is the table's last one.
#[tactic(auto, unfolding(crate::specs::Steps::judged))]
fn judge(last: u64, time: u64, mem: usize, out: usize) -> Result<(), Refusal>
    ensures { of_answer result ≡ judged last time mem out }
{
    if is_short(mem, out) {
        return Err(Refusal::NoRoom);
    }
    if time < last {
        return Err(Refusal::EarlierTime);
    }
    Ok(())
}

fn sender_of(a: Arrival) -> Source
    ensures { result ≡ sender_of a }
{
    Source::of(a.src, a.pan)
}

// Who sends a frame to whom, where the sender is a gateway (9) and the destination is present (6).
#[tactic(auto, using(crate::proofs::Steps::admits))]
fn admit(t: &[u64; WORDS], frame: &[u8]) -> Result<Arrival, Refusal>
    ensures { Admits (gates_of (table_in t.now)) frame.now (of_answer result) }
{
    let a = Arrival::read(frame)?;
    if !words::is_gateway(t, sender_of(a)) {
        return Err(Refusal::NotGateway);
    }
    if Node::from(a.dst).is_present() {
        Ok(a)
    } else {
        Err(Refusal::NoAddress)
    }
}

#[tactic(auto, unfolding(crate::specs::Receive::key_of))]
fn key_of(a: Arrival, size: u16, tag: u16) -> Key
    ensures { result ≡ key_of a size tag }
{
    Key {
        src: sender_of(a),
        dst: Node::from(a.dst),
        size,
        tag,
    }
}

// A datagram that came whole: to the output's start, but not where a checksum that it carries does not hold, 17.
fn hand_over(datagram: &[u8], sum: UdpSum, out: &mut [u8]) -> Result<Outcome, Refusal>
    requires { length datagram.now ≤ length out.old }
    ensures { Hands result out.old out.new (tested sum datagram.now) }
{
    let n = datagram.len();
    if is_right(datagram, n, sum) {
        put_slice(out, 0, datagram, 0, n);
        Ok(Outcome::Out(n))
    } else {
        Err(Refusal::BadChecksum)
    }
}

// The slot that is open under a key, else the one that its gateway may open; 8, no slot, where there is neither. A number
// and no Option: `slot_for` of specs/Steps.antt and `take_at`, which refuses 10 before 12, take it so.
#[tactic(auto, using(crate::proofs::Turns::slot_told))]
fn slot_for(t: &[u64; WORDS], key: Key) -> usize
    ensures { result ≡ slot_for (table_in t.now) key }
{
    match words::find(t, key) {
        Some(i) => i,
        None => words::to_open(t, key.src).unwrap_or(SLOTS),
    }
}

// A part, to a table that has taken the time: to the slot that is open under its key, else to one that it may open.
// `take_at` refuses it where it is no part of its datagram, 10, and where there is no slot for it, 12.
fn take(
    t: &mut [u64; WORDS],
    time: u64,
    part: Part,
    bytes: &[u8],
    mem: &mut [u8],
    out: &mut [u8],
) -> Result<Outcome, Refusal>
    ensures { TakesIn (table_in t.old) time (with_bytes part bytes.now) result
        (table_in t.new) mem.old mem.new out.old out.new }
{
    let index = slot_for(t, part.key);
    let slot = words::slot_at(t, index);
    let d = take_at(Target { slot, index, time }, part, bytes, mem, out);
    words::put_slot(t, index, d.slot);
    d.outcome
}

// The bytes of a part: those of the part at offset 0 end at a place of the scratch, others begin at one of the frame.
#[tactic(auto, using(crate::proofs::Steps::bytes_told))]
fn part_bytes<'a>(scratch: &'a [u8], frame: &'a [u8], offset: Units, at: usize) -> &'a [u8]
    requires { at ≤ choose (eqb offset.0 0) (length scratch.now) (length frame.now) }
    ensures { result.now ≡ bytes_of offset at scratch.now frame.now }
{
    if offset.0 == 0 {
        &scratch[0..at]
    } else {
        &frame[at..]
    }
}

// A frame, to a table that has taken the time.
fn receive_timed(
    t: &mut [u64; WORDS],
    time: u64,
    frame: &[u8],
    contexts: &[u8],
    mem: &mut [u8],
    out: &mut [u8],
) -> Result<Outcome, Refusal>
    requires { 2047 ≤ length out.old }
    ensures { ReceivesIn (table_in t.old) time frame.now contexts.now result
        (table_in t.new) mem.old mem.new out.old out.new }
{
    let a = admit(t, frame)?;
    let mut scratch = [0u8; SCRATCH];
    match Payload::read(frame, a, contexts, &mut scratch)? {
        Payload::Whole { len, sum } => hand_over(&scratch[0..len], sum, out),
        Payload::Part {
            size,
            tag,
            offset,
            sum,
            at,
        } => {
            let key = key_of(a, size, tag);
            let bytes = part_bytes(&scratch, frame, offset, at);
            take(t, time, Part { key, offset, sum }, bytes, mem, out)
        }
    }
}

// A frame that comes at a time.
// Six parameters, here and in `receive_timed`: each is lent or given apart by C (`lift_receive`).
pub fn receive(
    t: &mut [u64; WORDS],
    time: u64,
    frame: &[u8],
    contexts: &[u8],
    mem: &mut [u8],
    out: &mut [u8],
) -> Result<Outcome, Refusal>
    ensures { Gives (record { answer = result; table = table_in t.new }) mem.new out.old
        out.new (step (record { table = table_in t.old; mem = mem.old })
        (call_of mem.old out.old contexts.now time frame.now)) }
{
    judge(words::last(t), time, mem.len(), out.len())?;
    words::age(t, time);
    receive_timed(t, time, frame, contexts, mem, out)
}
