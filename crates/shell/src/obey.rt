// The commands, each with its answer, on the memory that is lent.
ghost use Rattle.std.specs.Prelude.{◌∷◌, [], ◌≡◌, ℕ, ◌+◌, ◌*◌, ◌≤◌, ◌<◌, ◌-◌, length, take, drop, get_or};
ghost use Rattle.prp.specs.Pages.{most_pages};
ghost use Rattle.store.specs.Held.{held, Reached};
ghost use Rattle.parse.specs.Line.{most_bytes};
ghost use Rattle.language.specs.declared.command.Command.TheVariants as K;
ghost use Rattle.language.specs.Vocabulary.{form, call_form, on_part_form, look_form, memory_bytes, replay_bytes, walk_bytes};
ghost use Rattle.language.specs.State.{console};
ghost use Rattle.language.specs.Replies as s;
ghost use Rattle.language.specs.Commands.{calls_made, parts_used, looked, poked, peeked, walked, replayed};
ghost use Rattle.language.specs.Line.{on_lent, obeyed};
ghost use Rattle.stateless.specs.Leaving.{Narrow, firsts, numbers_most, answer_bytes, Printed};
ghost use Rattle.shell.specs.Leaving.{Ready, Fitting, Spoke};

use language::command::{Call, Command, Look, OnPart};
use language::sizes::NUMBERS;
use stateful::call::call;
use stateful::look::look;
use stateful::trace_replay::replay_trace;
use stateless::part::in_memory;
use stateless::peek::peek;
use stateless::poke::poke;
use stateless::speak::{Answered, say, say_reply};
use stateless::walk::walk;
use store::WORDS;

fn obey_call(
    state: &mut [u64; WORDS],
    memory: &mut [u8],
    lent: usize,
    k: Call,
    a: &[u64; NUMBERS],
    word: &[u8],
    number: u64,
    out: &mut [u8],
) -> Answered
    requires { Ready state.old memory.old lent word.now out.old × Narrow (call_form k) 0 a.now }
    ensures { Spoke (on_lent (console (held state.old) memory.old lent)
        (λ c m. calls_made c m k (firsts (length (call_form k)) 0 a.now)))
        word.now number out.old out.new result state.new memory.new }
{
    let reply = call(state, &mut memory[..lent], k, a);
    say_reply(out, word, number, Some(reply), lent)
}

fn obey_on_part(
    state: &[u64; WORDS],
    memory: &mut [u8],
    lent: usize,
    k: OnPart,
    a: &[u64; NUMBERS],
    word: &[u8],
    number: u64,
    out: &mut [u8],
) -> Answered
    requires { Ready state.now memory.old lent word.now out.old × Narrow (on_part_form k) 0 a.now }
    ensures { Spoke (on_lent (console (held state.now) memory.old lent)
        (λ c m. parts_used c m k (firsts (length (on_part_form k)) 0 a.now)))
        word.now number out.old out.new result state.now memory.new }
{
    let reply = in_memory(&mut memory[..lent], k, a);
    say_reply(out, word, number, reply, lent)
}

fn obey_look(
    state: &[u64; WORDS],
    memory: &[u8],
    lent: usize,
    k: Look,
    a: &[u64; NUMBERS],
    word: &[u8],
    number: u64,
    out: &mut [u8],
) -> Answered
    requires { Ready state.now memory.now lent word.now out.old × Narrow (look_form k) 0 a.now }
    ensures { Spoke (on_lent (console (held state.now) memory.now lent)
        (λ c m. s.reply (s.told (looked c k (firsts (length (look_form k)) 0 a.now))) c m))
        word.now number out.old out.new result state.now memory.now }
{
    let reply = look(state, k, a);
    say_reply(out, word, number, Some(reply), lent)
}

fn obey_lend(
    state: &[u64; WORDS],
    memory: &[u8],
    lent: usize,
    a: &[u64],
    word: &[u8],
    out: &mut [u8],
) -> Answered
    requires { Ready state.now memory.now lent word.now out.old × Narrow (memory_bytes ∷ []) 0 a.now
        × (1 ≤ length a.now) }
    ensures { (n : ℕ) → Spoke (
      s.told (get_or a.now 0 0 ∷ []),
      console (held state.now) memory.now (get_or a.now 0 0),
    )
        word.now n out.old out.new result state.now memory.now }
{
    let bytes = a[0] as usize;
    say_first(out, word, a, 1, bytes)
}

// Values of so many bytes each.
fn obey_poke(
    state: &[u64; WORDS],
    memory: &mut [u8],
    lent: usize,
    width: usize,
    a: &[u64],
    count: usize,
    word: &[u8],
    number: u64,
    out: &mut [u8],
) -> Answered
    requires { Ready state.now memory.old lent word.now out.old × (0 < width) × (1 ≤ count) × (count ≤ length a.now) }
    ensures { Spoke (on_lent (console (held state.now) memory.old lent)
        (λ c m. poked c m width (get_or (take count a.now) 0 0) (drop 1 (take count a.now))))
        word.now number out.old out.new result state.now memory.new }
{
    let reply = poke(&mut memory[..lent], a[0], &a[1..count], width);
    say_reply(out, word, number, reply, lent)
}

fn obey_peek(
    state: &[u64; WORDS],
    memory: &[u8],
    lent: usize,
    a: &[u64; NUMBERS],
    word: &[u8],
    number: u64,
    out: &mut [u8],
) -> Answered
    requires { Ready state.now memory.now lent word.now out.old × Narrow (form K.Peek).largest 0 a.now }
    ensures { Spoke (on_lent (console (held state.now) memory.now lent)
        (λ c m. s.reply (peeked m (get_or a.now 0 0) (get_or a.now 1 0)) c m))
        word.now number out.old out.new result state.now memory.now }
{
    peek(&memory[..lent], a, word, number, out)
}

fn obey_replay(
    state: &mut [u64; WORDS],
    memory: &mut [u8],
    lent: usize,
    a: &[u64; NUMBERS],
    trace: &[u8],
    answers: &mut [u8],
    word: &[u8],
    out: &mut [u8],
) -> Answered
    requires { Ready state.old memory.old lent word.now out.old × Narrow (replay_bytes ∷ []) 0 a.now
        × (replay_bytes ≤ length answers.old) }
    ensures { (n : ℕ) → Spoke (on_lent (console (held state.old) memory.old lent)
        (λ c m. replayed c m (get_or a.now 0 0) trace.now))
        word.now n out.old out.new result state.new memory.new }
{
    let room = a[0] as usize;
    replay_trace(
        state,
        &mut memory[..lent],
        trace,
        &mut answers[..room],
        word,
        out,
    )
}

// The first numbers of a buffer.
fn say_first(out: &mut [u8], word: &[u8], a: &[u64], count: usize, lent: usize) -> Answered
    requires { (count ≤ 3 + 2 * most_pages) × (count ≤ length a.now) × (length word.now ≤ most_bytes)
        × (answer_bytes ≤ length out.old) }
    ensures { (n : ℕ) → Printed (s.told (take count a.now)) word.now n
        out.old out.new lent result }
{
    say(out, word, 0, &a[..count], b"", lent)
}

fn obey_walk(
    state: &[u64; WORDS],
    memory: &[u8],
    lent: usize,
    a: &mut [u64; NUMBERS],
    addresses: &mut [u8],
    counts: &mut [u8],
    word: &[u8],
    out: &mut [u8],
) -> Answered
    requires { Ready state.now memory.now lent word.now out.old × Narrow (form K.Walk).largest 0 a.old
        × (length a.old ≡ numbers_most) × (walk_bytes ≤ length addresses.old) × (walk_bytes ≤ length counts.old) }
    ensures { (n : ℕ) → Spoke (on_lent (console (held state.now) memory.now lent)
        (λ c m. s.reply (walked m (firsts 6 0 a.old)) c m))
        word.now n out.old out.new result state.now memory.now }
{
    let count = walk(&memory[..lent], a, addresses, counts);
    say_first(out, word, a, count, lent)
}

// A command, given how many numbers stand in their buffer, and how many bytes at the start of the first buffer.
pub(super) fn obey(
    state: &mut [u64; WORDS],
    memory: &mut [u8],
    lent: usize,
    command: Command,
    numbers: &mut [u64; NUMBERS],
    count: usize,
    first: &mut [u8],
    bytes: usize,
    second: &mut [u8],
    word: &[u8],
    number: u64,
    out: &mut [u8],
) -> Answered
    requires ready { Ready state.old memory.old lent word.now out.old × Fitting command numbers.old count }
    requires numbers_len { (length numbers.old ≡ numbers_most) × (walk_bytes ≤ length first.old) × (walk_bytes ≤ length second.old)
        × (bytes ≤ length first.old) }
    ensures { Spoke (obeyed (console (held state.old) memory.old lent) command
        (take count numbers.old) (take bytes first.old))
        word.now number out.old out.new result state.new memory.new }
{
    match command {
        Command::Call(k) => obey_call(state, memory, lent, k, numbers, word, number, out),
        Command::OnPart(k) => obey_on_part(state, memory, lent, k, numbers, word, number, out),
        Command::Look(k) => obey_look(state, memory, lent, k, numbers, word, number, out),
        Command::Lend => obey_lend(state, memory, lent, numbers, word, out),
        Command::Poke => obey_poke(state, memory, lent, 1, numbers, count, word, number, out),
        Command::Poke64 => obey_poke(state, memory, lent, 8, numbers, count, word, number, out),
        Command::Peek => obey_peek(state, memory, lent, numbers, word, number, out),
        Command::Walk => obey_walk(state, memory, lent, numbers, first, second, word, out),
        Command::Replay => obey_replay(
            state,
            memory,
            lent,
            numbers,
            &first[..bytes],
            second,
            word,
            out,
        ),
    }
}
