// The calls of the model.
ghost use Rattle.std.specs.Prelude.{◌≡◌, ◌≤◌, length};
ghost use Rattle.rules.specs.Refusal.{by_number};
ghost use Rattle.controller.specs.Calls.{of_started, of_finished};
ghost use Rattle.store.specs.Held.{held, Reached};
ghost use Rattle.language.specs.Vocabulary.{call_form};
ghost use Rattle.language.specs.Replies as s;
ghost use Rattle.language.specs.Commands.{start_numbers, finish_numbers, calls_made};
ghost use Rattle.stateless.specs.Leaving.{Says, Narrow, firsts, heard};

use controller::{Finished, Started};
use doorbells::{head_write, tail_write};
use finisher::finish;
use language::command::Call;
use language::sizes::NUMBERS;
use queues::create::{create_cq, create_sq};
use queues::delete::{delete_cq, delete_sq};
use rules::refusal::{Refusal, code};
use starter::start;
use stateless::reply::{Reply, changed, told};
use store::{WORDS, reset};

// The refusal, the SQ, how many commands, their tags, the first slot, the verdict and the first start number.
fn started(answer: Result<Started, Refusal>) -> Reply
    ensures { Says (s.changed (start_numbers (of_started (by_number answer)))) result }
{
    match answer {
        Ok(
            Started::One {
                sq,
                tag,
                slot,
                verdict,
                number,
            },
        ) => told(&[
            0,
            sq as u64,
            1,
            tag as u64,
            0,
            slot as u64,
            verdict as u64,
            number,
        ]),
        Ok(
            Started::Pair {
                sq,
                first,
                second,
                slot,
                verdict,
                number,
            },
        ) => told(&[
            0,
            sq as u64,
            2,
            first as u64,
            second as u64,
            slot as u64,
            verdict as u64,
            number,
        ]),
        Err(refusal) => changed(refusal.number(), 8),
    }
}

// The refusal, the slot and the start number.
fn finished(answer: Result<Finished, Refusal>) -> Reply
    ensures { Says (s.changed (finish_numbers (of_finished (by_number answer)))) result }
{
    match answer {
        Ok(Finished { slot, number }) => told(&[0, slot as u64, number]),
        Err(refusal) => changed(refusal.number(), 3),
    }
}

// Makes a call, or a fresh controller.
pub fn call(state: &mut [u64; WORDS], memory: &mut [u8], k: Call, a: &[u64; NUMBERS]) -> Reply
    requires { Reached state.old × Narrow (call_form k) 0 a.now }
    ensures { (s.reply (heard result) (held state.new) memory.new
        ≡ calls_made (held state.old) memory.old k (firsts (length (call_form k)) 0 a.now))
        × Reached state.new × (result.count ≤ 16) }
{
    match k {
        Call::Controller => changed(code(reset(state, a[0], a[1] as u32)), 1),
        Call::CreateCq => changed(code(create_cq(state, memory, a[0], a[1], a[2])), 1),
        Call::CreateSq => changed(
            code(create_sq(state, memory, a[0], a[1], a[2], a[3], a[4])),
            1,
        ),
        Call::DeleteCq => changed(code(delete_cq(state, a[0])), 1),
        Call::DeleteSq => changed(code(delete_sq(state, a[0])), 1),
        Call::Tail => changed(code(tail_write(state, a[0], a[1])), 1),
        Call::Head => changed(code(head_write(state, a[0], a[1])), 1),
        Call::Start => started(start(state, memory)),
        Call::Finish => finished(finish(state, memory, a[0], a[1], a[2] as u32)),
    }
}
