// The trace, replayed and printed piece by piece. A replay of two traces joined at a record's end is the first replay and then the
// second (trace Joined.records_join, replay Joined.played_join), so the pieces give what one replay of the whole gives.
ghost use Rattle.std.specs.Prelude.{◌≡◌, ◌≤◌, length};
ghost use Rattle.store.specs.Held.{Reached};
ghost use Rattle.language.specs.Vocabulary.{memory_bytes};
ghost use Rattle.playback.specs.Pieces.{taken_of, number_after};

use crate::fault::say_at;
use language::sizes::MEMORY_BYTES;
use replay::replay;
use std::io::{Read, Write};
use store::WORDS;
use stream::Filled;
use trace::RECORD_BYTES;
use transcript::piece::{PIECE_BYTES, ROOM_BYTES, put_piece};
use transcript::summary::{Tally, put_summary};

// How far it is: more records are left; all are replayed; or something has stopped it.
#[derive(Clone, Copy, PartialEq, Eq)]
enum Stage {
    Open,
    Ended,
    Stopped,
}

// The records so far, and how far it is.
#[derive(Clone, Copy)]
struct Play {
    tally: Tally,
    stage: Stage,
}

// The number of the record that comes after so many and so many more.
fn after(records: u64, more: u64) -> u64
    ensures { result ≡ number_after records more }
{
    records.wrapping_add(more.wrapping_add(1))
}

// Writes the lines of the records after those that are counted out, and answers whether it could.
fn is_written(rt: &impl Eprint, output: &mut impl Write, text: &[u8], records: u64) -> bool {
    if let Err(error) = stream::write(output, text) {
        say_at(
            rt,
            "playback: standard output, record",
            after(records, 0),
            error,
        );
        return false;
    }
    true
}

// Prints the records of a piece, given its answer records.
fn print_piece(
    rt: &impl Eprint,
    output: &mut impl Write,
    s: Play,
    trace: &[u8],
    answers: &[u8],
    out: &mut [u8],
) -> Play
    requires { (length trace.now ≤ 4096) × (4096 ≡ length answers.now) × (65536 ≡ length out.old) }
{
    let piece = put_piece(out, s.tally, trace, answers);
    let written = is_written(rt, output, &out[..piece.end], s.tally.records);
    Play {
        tally: piece.tally,
        stage: if written { s.stage } else { Stage::Stopped },
    }
}

// How many bytes of what was read are taken: where an error stopped it, whole records only.
fn taken(got: Filled) -> usize
    ensures { (result ≡ taken_of got) × (result ≤ got.count) }
{
    if got.error.is_some() {
        return got.count - got.count % RECORD_BYTES;
    }
    got.count
}

// Looks at what was read, behind so many records: it goes on where the piece is full.
fn after_read(rt: &impl Eprint, records: u64, got: Filled) -> Stage {
    if let Some(error) = got.error {
        say_at(
            rt,
            "playback: trace, record",
            after(records, (got.count / RECORD_BYTES) as u64),
            error,
        );
        return Stage::Stopped;
    }
    if got.count < PIECE_BYTES {
        return Stage::Ended;
    }
    Stage::Open
}

// Replays a piece on the memory that is lent, and prints its records.
fn played(
    rt: &impl Eprint,
    output: &mut impl Write,
    s: Play,
    state: &mut [u64; WORDS],
    memory: &mut [u8],
    lent: usize,
    trace: &[u8],
    answers: &mut [u8],
    out: &mut [u8],
) -> Play
    requires reached { Reached state.old × (lent ≤ length memory.old) × (length trace.now ≤ 4096) }
    requires value { (4096 ≡ length answers.old) × (65536 ≡ length out.old) }
    ensures { Reached state.new }
{
    let _ = replay(state, &mut memory[..lent], trace, answers);
    print_piece(rt, output, s, trace, answers, out)
}

// Reads a piece, and replays it.
fn step(
    rt: &impl Eprint,
    input: &mut impl Read,
    output: &mut impl Write,
    s: Play,
    state: &mut [u64; WORDS],
    memory: &mut [u8],
    lent: usize,
    trace: &mut [u8],
    answers: &mut [u8],
    out: &mut [u8],
) -> Play
    requires reached { Reached state.old × (lent ≤ length memory.old) × (length trace.old ≡ 4096) }
    requires value { (4096 ≡ length answers.old) × (65536 ≡ length out.old) }
    ensures { Reached state.new }
{
    let got = stream::fill(input, trace);
    let next = Play {
        tally: s.tally,
        stage: after_read(rt, s.tally.records, got),
    };
    let n = taken(got);
    played(
        rt,
        output,
        next,
        state,
        memory,
        lent,
        &trace[..n],
        answers,
        out,
    )
}

fn turn(
    rt: &impl Eprint,
    input: &mut impl Read,
    output: &mut impl Write,
    s: Play,
    state: &mut [u64; WORDS],
    memory: &mut [u8; MEMORY_BYTES],
    lent: usize,
    trace: &mut [u8; PIECE_BYTES],
    answers: &mut [u8; PIECE_BYTES],
    out: &mut [u8; ROOM_BYTES],
) -> Play
    requires { Reached state.old × (lent ≤ memory_bytes) }
    ensures { Reached state.new }
{
    step(
        rt, input, output, s, state, memory, lent, trace, answers, out,
    )
}

fn print_summary(
    rt: &impl Eprint,
    output: &mut impl Write,
    tally: Tally,
    out: &mut [u8; ROOM_BYTES],
) {
    let n = put_summary(out, tally);
    is_written(rt, output, &out[..n], tally.records);
}

// Replays the whole trace; the summary is printed where nothing has stopped it. A proved loop has to end: the turns are bounded by a
// number that no run uses up.
pub(super) fn run(
    rt: &impl Eprint,
    input: &mut impl Read,
    output: &mut impl Write,
    state: &mut [u64; WORDS],
    memory: &mut [u8; MEMORY_BYTES],
    lent: usize,
)
    requires { Reached state.old × (lent ≤ memory_bytes) }
{
    let mut trace = [0u8; PIECE_BYTES];
    let mut answers = [0u8; PIECE_BYTES];
    let mut out = [0u8; ROOM_BYTES];
    let mut s = Play {
        tally: Tally::new(),
        stage: Stage::Open,
    };
    for _ in 0..u64::MAX {
        if s.stage != Stage::Open {
            break;
        }
        s = turn(
            rt,
            input,
            output,
            s,
            state,
            memory,
            lent,
            &mut trace,
            &mut answers,
            &mut out,
        );
    }
    if s.stage != Stage::Stopped {
        print_summary(rt, output, s.tally, &mut out);
    }
}
