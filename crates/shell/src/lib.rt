// The console's commands: a line of its language is read, the call that it names is made, and the answer is written.
#![tactic(auto)]

ghost use Rattle.std.specs.Prelude.{◌∷◌, [], ◌≡◌, ◌≤◌, ◌-◌, length, take, drop};
ghost use Rattle.controller.specs.State.{new_controller};
ghost use Rattle.store.specs.Held.{Holds, held};
ghost use Rattle.parse.specs.Line.{words_of};
ghost use Rattle.language.specs.Vocabulary.{memory_bytes};
ghost use Rattle.language.specs.State.{console};
ghost use Rattle.language.specs.Line.{by_words, answered};
ghost use Rattle.shell.specs.Leaving.{Ready, Working, Leaves};

use crate::obey::obey;
use language::command::form_of;
use language::sizes::NUMBERS;
use language::vocabulary::command_of;
use parse::arguments::read;
use parse::line::{MOST_BYTES, next_word};
use stateless::speak::{Answered, Verdict, say_bad};
use store::WORDS;

mod obey;

// A line with a command.
fn execute(
    state: &mut [u64; WORDS],
    memory: &mut [u8],
    lent: usize,
    line: &[u8],
    start: usize,
    end: usize,
    number: u64,
    out: &mut [u8],
    numbers: &mut [u64; NUMBERS],
    first: &mut [u8],
    second: &mut [u8],
) -> Answered
    requires ready { Ready state.old memory.old lent line.now out.old × Working first.old second.old }
    requires start_le_end { (start ≤ end) × (end ≤ length line.now) }
    ensures { Leaves (by_words (console (held state.old) memory.old lent) number
        (take (end - start) (drop start line.now) ∷ words_of (drop end line.now)))
        out.old out.new result state.new memory.new }
{
    let Some(command) = command_of(&line[start..end]) else {
        return say_bad(out, number, lent);
    };
    let form = form_of(command);
    let Ok(given) = read(line, end, form.largest, form.rest, numbers, first) else {
        return say_bad(out, number, lent);
    };
    obey(
        state,
        memory,
        lent,
        command,
        numbers,
        given.numbers,
        first,
        given.bytes,
        second,
        &line[start..end],
        number,
        out,
    )
}

// The answer to a line, which is given without its LF and has a number, at the start of `out`. The last three buffers are to work in: of
// what stands in them afterwards nothing is said.
pub fn answer(
    state: &mut [u64; WORDS],
    memory: &mut [u8],
    lent: usize,
    line: &[u8],
    number: u64,
    out: &mut [u8],
    numbers: &mut [u64; NUMBERS],
    first: &mut [u8],
    second: &mut [u8],
) -> Answered
    requires { Ready state.old memory.old lent [] out.old × Working first.old second.old }
    ensures { Leaves (answered (console (held state.old) memory.old lent) number line.now)
        out.old out.new result state.new memory.new }
{
    if MOST_BYTES < line.len() {
        return say_bad(out, number, lent);
    }
    let word = next_word(line, 0);
    let start = word.start;
    let end = word.end;
    if start == end {
        return Answered {
            length: 0,
            lent,
            verdict: Verdict::Good,
        };
    }
    execute(
        state, memory, lent, line, start, end, number, out, numbers, first, second,
    )
}
