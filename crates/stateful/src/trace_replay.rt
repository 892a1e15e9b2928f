// The replay of a trace that stands on a line.
ghost use Rattle.std.specs.Prelude.{◌≡◌, ◌∷◌, [], ℕ, ◌≤◌, length};
ghost use Rattle.rules.specs.Refusal.{number};
ghost use Rattle.parse.specs.Line.{most_bytes};
ghost use Rattle.store.specs.Held.{held, Reached};
ghost use Rattle.language.specs.Vocabulary.{replay_bytes};
ghost use Rattle.language.specs.Replies as s;
ghost use Rattle.language.specs.Commands.{replayed};
ghost use Rattle.stateless.specs.Leaving.{Printed, answer_bytes};

use replay::replay;
use rules::refusal::Refusal;
use stateless::speak::{Answered, say};
use store::WORDS;

// A good replay: how many answer records there are, and their bytes.
fn say_records(out: &mut [u8], word: &[u8], records: u64, answers: &[u8], lent: usize) -> Answered
    requires { (length answers.now ≤ replay_bytes) × (length word.now ≤ most_bytes) × (answer_bytes ≤ length out.old) }
    ensures { (n : ℕ) → Printed (s.say 0 (0 ∷ records ∷ []) answers.now) word.now n
        out.old out.new lent result }
{
    let numbers = [0, records];
    say(out, word, 0, &numbers, answers, lent)
}

fn say_refused(out: &mut [u8], word: &[u8], refusal: Refusal, lent: usize) -> Answered
    requires { (length word.now ≤ most_bytes) × (answer_bytes ≤ length out.old) }
    ensures { (n : ℕ) → Printed (s.say (number refusal) (number refusal ∷ 0 ∷ []) []) word.now n
        out.old out.new lent result }
{
    let numbers = [refusal.number(), 0];
    say(out, word, refusal.number(), &numbers, b"", lent)
}

// Replays a trace, with a room for its answer records.
pub fn replay_trace(
    state: &mut [u64; WORDS],
    memory: &mut [u8],
    trace: &[u8],
    answers: &mut [u8],
    word: &[u8],
    out: &mut [u8],
) -> Answered
    requires { Reached state.old × (length answers.old ≤ replay_bytes) × (length word.now ≤ most_bytes)
        × (answer_bytes ≤ length out.old) }
    ensures { let e = replayed (held state.old) memory.old (length answers.old)
        trace.now in
        ((n : ℕ) → Printed e.says word.now n out.old out.new (length memory.old) result)
        × (held state.new ≡ e.controller) × (memory.new ≡ e.memory) × Reached state.new }
{
    let lent = memory.len();
    match replay(state, memory, trace, answers) {
        Ok(n) => {
            let end = 16 * n as usize;
            say_records(out, word, n, &answers[..end], lent)
        }
        Err(refusal) => say_refused(out, word, refusal, lent),
    }
}
