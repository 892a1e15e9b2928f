// The replay of plant traces: what a plant sends back is run through the model, record by record.
#![tactic(auto)]

ghost use Rattle.std.specs.Prelude.{◌≡◌, ◌+◌, ◌<◌, ◌≤◌, ◌^◌, length, Ok};
ghost use Rattle.le.specs.Memory.{part, put};
ghost use Rattle.controller.specs.Calls.{Call, of_started};
ghost use Rattle.store.specs.Held.{held, Sound, Reached};
ghost use Rattle.trace.specs.Record.{sent, record_in, asked};
ghost use Rattle.trace.specs.Trace.{begun};
ghost use Rattle.replay.specs.Replay.{result_value, coming, done_by, answer_bytes, replay_answer, value_or_0, ended, replay};
ghost use Rattle.rules.specs.Refusal.{code, by_number};

use controller::Started;
use doorbells::{head_write, tail_write};
use finisher::finish;
use rules::refusal::Refusal;
use starter::start;
use store::WORDS;
use trace::{RECORD_BYTES, Record, next_at, read};

// The tag of what a start takes, the first of a pair's.
fn first_tag(answer: Started) -> u64
    ensures { (x : Call) → result ≡ result_value x (of_started (Ok answer)) }
{
    match answer {
        Started::One { tag, .. } => tag as u64,
        Started::Pair { first, .. } => first as u64,
    }
}

// Makes the call that a record asks for, and answers its result: the value written, the first tag or the slot posted.
fn execute(
    state: &mut [u64; WORDS],
    memory: &mut [u8],
    asking: Result<Record, Refusal>,
) -> Result<u64, Refusal>
    requires { Reached state.old }
    ensures reached { Reached state.new }
    ensures memory_after { coming (code result) (value_or_0 (by_number result)) (held state.new) memory.new
        ≡ done_by (held state.old) memory.old (asked (by_number asking)) }
{
    match asking? {
        Record::TailWrite(queue, value) => {
            tail_write(state, queue as u64, value as u64)?;
            Ok(value as u64)
        }
        Record::HeadWrite(queue, value) => {
            head_write(state, queue as u64, value as u64)?;
            Ok(value as u64)
        }
        Record::Start => Ok(first_tag(start(state, memory)?)),
        Record::Finish(tag, status) => {
            let finished = finish(state, memory, tag as u64, status as u64, 0)?;
            Ok(finished.slot as u64)
        }
        Record::End => Ok(0),
    }
}

// Puts an answer record at a place of the room.
fn put_answer(room: &mut [u8], at: usize, byte: u64, answer: Result<u64, Refusal>)
    requires { at + 16 ≤ length room.old }
    ensures { room.new ≡ put room.old at (answer_bytes byte (code answer) (value_or_0 (by_number answer))) }
{
    let (refusal, value) = match answer {
        Ok(value) => (0, value),
        Err(refusal) => (refusal.number(), 0),
    };
    le::put::<1>(room, at, byte);
    le::put::<1>(room, at + 1, refusal);
    le::put::<2>(room, at + 2, value);
    le::put::<4>(room, at + 4, 0);
    le::put::<8>(room, at + 8, 0);
}

// Answers the record at a place of the trace, at the same place of the room.
fn answer(state: &mut [u64; WORDS], memory: &mut [u8], trace: &[u8], room: &mut [u8], at: usize)
    requires { Reached state.old × (at < length trace.now) × (at + 16 ≤ length room.old) }
    ensures reached { Reached state.new }
    ensures fact { let x = part trace.now at 16 in
        let d = done_by (held state.old) memory.old (asked (record_in x)) in
        (held state.new ≡ d.controller) × (memory.new ≡ d.memory)
        × (room.new ≡ put room.old at (answer_bytes (sent x) d.refusal d.result)) }
{
    let a = execute(state, memory, read(trace, at));
    put_answer(room, at, le::get::<1>(trace, at), a);
}

// How many records are begun in so many bytes.
fn records_in(bytes: usize) -> usize
    requires { bytes < 2 ^ 63 }
    ensures { result ≡ begun bytes }
{
    (bytes + 15) / 16
}

// Makes the calls of a trace one after another, writes an answer record for each record, and answers how many it wrote.
pub fn replay(
    state: &mut [u64; WORDS],
    memory: &mut [u8],
    trace: &[u8],
    answers: &mut [u8],
) -> Result<u64, Refusal>
    requires { Reached state.old }
    ensures { Sound state.new
        × (ended (replay_answer (by_number result)) (held state.new) memory.new answers.new
        ≡ replay (held state.old) memory.old trace.now answers.old) }
{
    let n = records_in(trace.len());
    if answers.len() < RECORD_BYTES * n {
        return Err(Refusal::BufferTooShort);
    }
    let mut at = 0;
    for _i in 0..n {
        answer(state, memory, trace, answers, at);
        at = next_at(trace, at);
    }
    Ok(n as u64)
}
