// The set-up: console lines that make the controller and the memory that a trace is replayed on.
#![tactic(auto)]

ghost use Rattle.std.specs.Prelude.{◌≡◌, ◌≤◌, length, MatchResult};
ghost use Rattle.store.specs.Held.{Reached};
ghost use Rattle.print.specs.Put.{Put};
ghost use Rattle.lines.specs.Sizes.{held_bytes};
ghost use Rattle.language.specs.Vocabulary.{memory_bytes};
ghost use Rattle.conversation.specs.Sizes.{out_bytes};
ghost use Rattle.conversation.specs.Steps.{Kept, Short};
ghost use Rattle.setup.specs.Refused.{refused_line};

use conversation::{Conversation, Event, OUT_BYTES, Step};
use form::Form;
use language::sizes::{MEMORY_BYTES, NUMBERS, WALK_BYTES};
use lines::{CHUNK_BYTES, HELD_BYTES};
use parse::line::next_word;
use stateless::speak::Verdict;
use std::io::{Read, Write};
use store::WORDS;
use stream::Errno;
use transcript::setup_line::put_setup_line;

// Why no set-up is made: the line of a number is bad, or at it the file cannot be read, or the output not be written.
#[derive(Clone, Copy, Debug)]
pub enum Fault {
    Bad(u64),
    Unread { line: u64, error: Errno },
    Unwritten { line: u64, error: Errno },
}

// Where a set-up is stopped: how many bytes of the memory are lent, and why it is.
#[derive(Clone, Copy, Debug)]
pub struct Stopped {
    pub lent: usize,
    pub fault: Fault,
}

// A set-up on its way, and whether its file goes on.
#[derive(Clone, Copy)]
struct Progress {
    conversation: Conversation,
    open: bool,
}

// What is told of a line whose call was refused, at the start of `out`.
fn put_refused(line: &[u8], number: u64, refusal: u64, out: &mut [u8]) -> usize
    requires { (length line.now ≤ held_bytes) × (out_bytes ≡ length out.old) }
    ensures { Put out.old 0 (refused_line line.now number refusal) out.new result
        × (result ≤ length out.old) }
{
    let word = next_word(line, 0);
    let start = word.start;
    let end = word.end;
    put_setup_line(out, 0, number, &line[start..end], refusal)
}

// Tells it.
fn tell(
    output: &mut impl Write,
    line: &[u8],
    number: u64,
    refusal: u64,
    out: &mut [u8],
) -> Result<(), Fault>
    requires { (length line.now ≤ held_bytes) × (out_bytes ≡ length out.old) }
{
    let n = put_refused(line, number, refusal, out);
    match stream::write(output, &out[..n]) {
        Ok(()) => Ok(()),
        Err(error) => Err(Fault::Unwritten {
            line: number,
            error,
        }),
    }
}

// Looks at what came of a line.
fn judge(
    output: &mut impl Write,
    verdict: Verdict,
    line: &[u8],
    number: u64,
    out: &mut [u8],
) -> Result<(), Fault>
    requires { (length line.now ≤ held_bytes) × (out_bytes ≡ length out.old) }
{
    match verdict {
        Verdict::Good => Ok(()),
        Verdict::Bad => Err(Fault::Bad(number)),
        Verdict::Refused(refusal) => tell(output, line, number, refusal, out),
    }
}

// How it stands after a step, by which it may be stopped; a line that ended stands at the start of `line`.
fn after(
    output: &mut impl Write,
    step: Step,
    line: &[u8],
    out: &mut [u8],
) -> Result<Progress, Stopped>
    requires { Short step.event × (length line.now ≡ held_bytes) × (out_bytes ≡ length out.old) }
    ensures { MatchResult result (λ p. p.conversation ≡ step.conversation) (λ s. s.lent ≡ step.conversation.lent) }
{
    let conversation = step.conversation;
    let lent = conversation.lent;
    let ended = conversation.lines.ended;
    let open = match step.event {
        Event::Line { length, verdict } => {
            if let Err(fault) = judge(output, verdict, &line[..length], ended, out) {
                return Err(Stopped { lent, fault });
            }
            true
        }
        Event::Nothing => true,
        Event::End => false,
        Event::Failed(error) => {
            return Err(Stopped {
                lent,
                fault: Fault::Unread {
                    line: ended.wrapping_add(1),
                    error,
                },
            });
        }
    };
    Ok(Progress { conversation, open })
}

// Takes a step in the file. The last two buffers are to work in.
fn next(
    input: &mut impl Read,
    output: &mut impl Write,
    conversation: Conversation,
    state: &mut [u64; WORDS],
    memory: &mut [u8; MEMORY_BYTES],
    chunk: &mut [u8; CHUNK_BYTES],
    line: &mut [u8; HELD_BYTES],
    out: &mut [u8; OUT_BYTES],
    first: &mut [u8; WALK_BYTES],
    second: &mut [u8; WALK_BYTES],
) -> Result<Progress, Stopped>
    requires { Kept conversation state.old }
    ensures { MatchResult result (λ p. Kept p.conversation state.new) (λ s. Reached state.new × (s.lent ≤ memory_bytes)) }
{
    let mut numbers = [0u64; NUMBERS];
    let step = conversation::next(
        conversation,
        input,
        Form::Alone,
        state,
        memory,
        chunk,
        line,
        out,
        0,
        &mut numbers,
        first,
        second,
    );
    after(output, step, line, out)
}

// Answers all lines, or those before one that stops it, and tells how many bytes of the memory are lent then. A proved loop has to end: the
// turns are bounded by a number that no run uses up.
pub fn run(
    input: &mut impl Read,
    output: &mut impl Write,
    state: &mut [u64; WORDS],
    memory: &mut [u8; MEMORY_BYTES],
) -> Result<usize, Stopped>
    requires { Reached state.old }
    ensures reached { Reached state.new }
    ensures lent { MatchResult result (λ n. n ≤ memory_bytes) (λ s. s.lent ≤ memory_bytes) }
{
    let mut chunk = [0u8; CHUNK_BYTES];
    let mut line = [0u8; HELD_BYTES];
    let mut out = [0u8; OUT_BYTES];
    let mut first = [0u8; WALK_BYTES];
    let mut second = [0u8; WALK_BYTES];
    let mut s = Progress {
        conversation: conversation::first(),
        open: true,
    };
    for _ in 0..u64::MAX {
        if !s.open {
            break;
        }
        s = next(
            input,
            output,
            s.conversation,
            state,
            memory,
            &mut chunk,
            &mut line,
            &mut out,
            &mut first,
            &mut second,
        )?;
    }
    Ok(s.conversation.lent)
}
