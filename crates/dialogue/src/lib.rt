// A conversation in the console's language: lines are read from an input, and the answers written to an output.
#![tactic(auto)]

ghost use Rattle.std.specs.Prelude.{◌≡◌, ◌+◌, ◌≤◌, length};
ghost use Rattle.shell.specs.Leaving.{Working};
ghost use Rattle.conversation.specs.Sizes.{out_bytes, room_bytes};
ghost use Rattle.conversation.specs.Steps.{none_read, Sized};
ghost use Rattle.dialogue.specs.Kept.{Kept};

use conversation::{Conversation, Event, OUT_BYTES, ROOM_BYTES};
use form::Form;
use language::sizes::{MEMORY_BYTES, NUMBERS, WALK_BYTES};
use lines::{CHUNK_BYTES, HELD_BYTES};
use std::io::{Read, Write};
use store::{Controller, WORDS};
use stream::Errno;

// Of how many lines the answers are written out, and how many bytes of answers are not yet; whether the conversation goes on,
// and the form of its answers. `open` says no more than that: no value stands beside it, here or in the set-up.
#[derive(Clone, Copy)]
struct Dialogue {
    conversation: Conversation,
    answered: u64,
    unwritten: usize,
    open: bool,
    form: Form,
}

// Says on standard error what failed, by which error and where, and ends the conversation.
fn fail(rt: &impl Eprint, mut s: Dialogue, what: &str, error: Errno) -> Dialogue
    ensures { (result.conversation ≡ s.conversation) × (result.unwritten ≡ s.unwritten) }
{
    let number = error.number;
    let line = s.answered.wrapping_add(1);
    let _ = eprintln!(rt;
        "console: {what} error {number} at line {line}: all lines before it are answered"
    );
    s.open = false;
    s
}

// Writes the answers out.
fn write_out(rt: &impl Eprint, output: &mut impl Write, mut s: Dialogue, out: &[u8]) -> Dialogue
    requires { (s.unwritten ≤ out_bytes) × (out_bytes ≡ length out.now) }
    ensures { (result.conversation ≡ s.conversation) × (result.unwritten ≡ 0) }
{
    let n = s.unwritten;
    s.unwritten = 0;
    if !s.open {
        return s;
    }
    if let Err(error) = stream::write(output, &out[..n]) {
        return fail(rt, s, "write", error);
    }
    s.answered = s.conversation.lines.ended;
    s
}

// Writes the answers out where there is little room left for another, and before more is read.
fn with_room(rt: &impl Eprint, output: &mut impl Write, s: Dialogue, out: &[u8]) -> Dialogue
    requires { (s.unwritten ≤ out_bytes) × (out_bytes ≡ length out.now) }
    ensures { (result.conversation ≡ s.conversation) × (result.unwritten + room_bytes ≤ out_bytes) }
{
    if OUT_BYTES - s.unwritten < ROOM_BYTES {
        return write_out(rt, output, s, out);
    }
    let lines = s.conversation.lines;
    if lines.read == lines.count {
        return write_out(rt, output, s, out);
    }
    s
}

// Writes the last answers out.
fn finish(rt: &impl Eprint, output: &mut impl Write, s: Dialogue, out: &[u8]) -> Dialogue
    requires { (s.unwritten ≤ out_bytes) × (out_bytes ≡ length out.now) }
    ensures { (result.conversation ≡ s.conversation) × (result.unwritten ≤ out_bytes) }
{
    let mut last = write_out(rt, output, s, out);
    last.open = false;
    last
}

// What comes of a step in the input.
fn after(
    rt: &impl Eprint,
    output: &mut impl Write,
    mut s: Dialogue,
    step: conversation::Step,
    out: &[u8],
) -> Dialogue
    requires { (step.end ≤ out_bytes) × (out_bytes ≡ length out.now) }
    ensures { (result.conversation ≡ step.conversation) × (result.unwritten ≤ out_bytes) }
{
    s.conversation = step.conversation;
    s.unwritten = step.end;
    match step.event {
        Event::Line { .. } | Event::Nothing => s,
        Event::End => finish(rt, output, s, out),
        Event::Failed(error) => fail(rt, s, "read", error),
    }
}

fn first(form: Form) -> Dialogue
    ensures { (result.conversation ≡ none_read) × (result.unwritten ≡ 0) }
{
    Dialogue {
        conversation: conversation::first(),
        answered: 0,
        unwritten: 0,
        open: true,
        form: form,
    }
}

// Takes a step in the input, and answers a line that ended behind the answers that are not yet written out.
fn step(
    rt: &impl Eprint,
    input: &mut impl Read,
    output: &mut impl Write,
    s: Dialogue,
    state: &mut [u64; WORDS],
    memory: &mut [u8],
    chunk: &mut [u8],
    line: &mut [u8],
    out: &mut [u8],
    numbers: &mut [u64; NUMBERS],
    first: &mut [u8],
    second: &mut [u8],
) -> Dialogue
    requires kept { Kept s state.old × Sized memory.old chunk.old line.old out.old × (s.unwritten + room_bytes ≤ out_bytes) }
    requires working { Working first.old second.old }
    ensures { Kept result state.new }
{
    let at = s.unwritten;
    let form = s.form;
    let step = conversation::next(
        s.conversation,
        input,
        form,
        state,
        memory,
        chunk,
        line,
        out,
        at,
        numbers,
        first,
        second,
    );
    after(rt, output, s, step, out)
}

// Makes room for an answer, and takes a step where the conversation goes on.
fn turn(
    rt: &impl Eprint,
    input: &mut impl Read,
    output: &mut impl Write,
    s: Dialogue,
    state: &mut [u64; WORDS],
    memory: &mut [u8; MEMORY_BYTES],
    chunk: &mut [u8; CHUNK_BYTES],
    line: &mut [u8; HELD_BYTES],
    out: &mut [u8; OUT_BYTES],
    numbers: &mut [u64; NUMBERS],
    first: &mut [u8; WALK_BYTES],
    second: &mut [u8; WALK_BYTES],
) -> Dialogue
    requires { Kept s state.old }
    ensures { Kept result state.new }
{
    let next = with_room(rt, output, s, out);
    if !next.open {
        return next;
    }
    step(
        rt, input, output, next, state, memory, chunk, line, out, numbers, first, second,
    )
}

// A proved loop has to end, and nothing says that the input does: so the turns are bounded by a number that no run uses up.
fn converse(rt: &impl Eprint, input: &mut impl Read, output: &mut impl Write, form: Form) {
    let created = Controller::new(0, 0);
    let controller = created.controller;
    let mut state = controller.words;
    let mut memory = [0u8; MEMORY_BYTES];
    let mut chunk = [0u8; CHUNK_BYTES];
    let mut line = [0u8; HELD_BYTES];
    let mut out = [0u8; OUT_BYTES];
    let mut numbers = [0u64; NUMBERS];
    let mut addresses = [0u8; WALK_BYTES];
    let mut counts = [0u8; WALK_BYTES];
    let mut s = first(form);
    for _ in 0..u64::MAX {
        if !s.open {
            break;
        }
        s = turn(
            rt,
            input,
            output,
            s,
            &mut state,
            &mut memory,
            &mut chunk,
            &mut line,
            &mut out,
            &mut numbers,
            &mut addresses,
            &mut counts,
        );
    }
}

// Answers each line.
pub fn run(rt: &impl Eprint, input: &mut impl Read, output: &mut impl Write) {
    converse(rt, input, output, Form::Alone);
}

// Answers each line, with what stands behind its `#` as wanted beside it.
pub fn run_beside(rt: &impl Eprint, input: &mut impl Read, output: &mut impl Write) {
    converse(rt, input, output, Form::Beside);
}

// Repeats each line, also one that wants no answer, and answers under it.
pub fn run_under(rt: &impl Eprint, input: &mut impl Read, output: &mut impl Write) {
    converse(rt, input, output, Form::Under);
}
