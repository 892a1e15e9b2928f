// A conversation in the console's language: the lines of a file, each with its number, and their answers, shown in a form.
#![tactic(auto)]

ghost use Rattle.std.specs.Prelude.{[], ◌≡◌, ◌+◌, ◌≤◌, length};
ghost use Rattle.store.specs.Held.{held};
ghost use Rattle.lines.specs.Sizes.{chunk_bytes, held_bytes};
ghost use Rattle.lines.specs.Inside.{Inside};
ghost use Rattle.language.specs.State.{console};
ghost use Rattle.language.specs.Line.{answered};
ghost use Rattle.shell.specs.Leaving.{Ready, Working};
ghost use Rattle.conversation.specs.Sizes.{out_bytes, room_bytes, shown_most};
ghost use Rattle.conversation.specs.Answers.{Shows};
ghost use Rattle.conversation.specs.Steps.{none_read, Kept, Sized, Took, buffers, without_line, Talks};

use form::{Form, indent, put_aside, put_line};
use language::sizes::{ANSWER_BYTES, MEMORY_BYTES, NUMBERS};
use lines::{Found, HELD_BYTES, Lines};
use stateless::speak::Verdict;
use std::io::Read;
use store::WORDS;
use stream::Errno;

// What is written at once.
pub const OUT_BYTES: usize = 65536;

// The room for a line and its answer in any form: 20 bytes more than their own.
pub const ROOM_BYTES: usize = ANSWER_BYTES + HELD_BYTES + 20;

// How many bytes of the memory are lent, and where the lines are read.
#[derive(Clone, Copy)]
pub struct Conversation {
    pub lent: usize,
    pub lines: Lines,
}

// The place after a line's answer, how many bytes of the memory are lent afterwards, and what came of the line.
#[derive(Clone, Copy)]
pub struct Shown {
    pub end: usize,
    pub lent: usize,
    pub verdict: Verdict,
}

// What a step finds: a line of so many bytes, and what came of it; nothing yet; the end of the file; or an error.
#[derive(Clone, Copy)]
pub enum Event {
    Line { length: usize, verdict: Verdict },
    Nothing,
    End,
    Failed(Errno),
}

// The conversation after a step, what the step found, and the place after what it put.
#[derive(Clone, Copy)]
pub struct Step {
    pub conversation: Conversation,
    pub event: Event,
    pub end: usize,
}

// No line is read yet, and all of the memory is lent.
pub fn first() -> Conversation
    ensures { (result ≡ none_read) × Inside result.lines }
{
    let lines = lines::first();
    Conversation {
        lent: MEMORY_BYTES,
        lines,
    }
}

// Answers a line of a number in a form, from `at` on. The last three buffers are to work in.
pub fn answer(
    state: &mut [u64; WORDS],
    memory: &mut [u8],
    lent: usize,
    line: &[u8],
    number: u64,
    form: Form,
    out: &mut [u8],
    at: usize,
    numbers: &mut [u64; NUMBERS],
    first: &mut [u8],
    second: &mut [u8],
) -> Shown
    requires ready { Ready state.old memory.old lent [] out.old × Working first.old second.old }
    requires line_in_bounds { at + shown_most (length line.now) ≤ length out.old }
    ensures { Shows (answered (console (held state.old) memory.old lent) number line.now)
        form line.now out.old at out.new result state.new memory.new }
{
    let to = put_line(form, line, out, at);
    let start = to + indent(form);
    let answered = shell::answer(
        state,
        memory,
        lent,
        line,
        number,
        &mut out[start..],
        numbers,
        first,
        second,
    );
    Shown {
        end: put_aside(form, line, out, to, answered.length),
        lent: answered.lent,
        verdict: answered.verdict,
    }
}

// A step of the reader of lines: in the chunk, or, where that is used up and more may come, by a read.
fn read(input: &mut impl Read, lines: Lines, chunk: &mut [u8], line: &mut [u8]) -> lines::Step
    requires { Inside lines × (length chunk.old ≡ chunk_bytes) × (length line.old ≡ held_bytes) }
    ensures { Took lines chunk.old line.old line.new result }
{
    if lines.more {
        if lines.read == lines.count {
            return lines::filled(lines, stream::read(input, chunk));
        }
    }
    lines::scan(lines, chunk, line)
}

// A step that ends no line.
fn without_line(conversation: Conversation, event: Event, at: usize) -> Step
    ensures { result ≡ without_line conversation event at }
{
    Step {
        conversation,
        event,
        end: at,
    }
}

// Takes a step in a file. A line that ended stands at the start of `line`, and is answered from `at` on. The last three buffers are to work
// in. The buffers go one by one: a struct that has them by value is copied (1,620 KiB of stack, where 1,340 do), and of one that has them
// by reference the check proves nothing yet.
pub fn next(
    s: Conversation,
    input: &mut impl Read,
    form: Form,
    state: &mut [u64; WORDS],
    memory: &mut [u8],
    chunk: &mut [u8],
    line: &mut [u8],
    out: &mut [u8],
    at: usize,
    numbers: &mut [u64; NUMBERS],
    first: &mut [u8],
    second: &mut [u8],
) -> Step
    requires kept { Kept s state.old × Sized memory.old chunk.old line.old out.old × (at + room_bytes ≤ out_bytes) }
    requires working { Working first.old second.old }
    ensures { Talks s form at chunk.old
        (buffers state.old memory.old line.old out.old)
        (buffers state.new memory.new line.new out.new) result }
{
    let step = read(input, s.lines, chunk, line);
    let lines = step.lines;
    let unanswered = Conversation {
        lent: s.lent,
        lines,
    };
    let length = match step.found {
        Found::Line(length) => length,
        Found::Nothing => return without_line(unanswered, Event::Nothing, at),
        Found::End => return without_line(unanswered, Event::End, at),
        Found::Failed(error) => return without_line(unanswered, Event::Failed(error), at),
    };
    let shown = answer(
        state,
        memory,
        s.lent,
        &line[..length],
        lines.ended,
        form,
        out,
        at,
        numbers,
        first,
        second,
    );
    Step {
        conversation: Conversation {
            lent: shown.lent,
            lines,
        },
        event: Event::Line {
            length,
            verdict: shown.verdict,
        },
        end: shown.end,
    }
}
