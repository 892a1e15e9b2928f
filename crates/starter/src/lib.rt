// Starting commands.
#![tactic(auto)]

ghost use Rattle.std.specs.Prelude.{◌≡◌};
ghost use Rattle.rules.specs.Refusal.{by_number};
ghost use Rattle.controller.specs.Answers.{outcome};
ghost use Rattle.controller.specs.Calls.{perform, of_started, start as start_call};
ghost use Rattle.store.specs.Held.{held, Sound, Reached};

use crate::candidates::candidates_of;
use crate::head::{first_entry, is_pair, second_entry};
use crate::take::{take_one, take_pair};
use controller::Started;
use queues::rings::rings_outside;
use rules::refusal::Refusal;
use store::{WORDS, arbiter_of, sq_at};

mod candidates;
mod head;
mod take;
mod verdict;

// The next command, or pair of commands, is taken from the queue whose turn it is.
pub fn start(state: &mut [u64; WORDS], memory: &[u8]) -> Result<Started, Refusal>
    requires { Reached state.old }
    ensures { Sound state.new × (outcome (of_started (by_number result)) (held state.new) memory.now
        ≡ perform (held state.old) memory.now start_call) }
{
    if rings_outside(state, memory.len() as u64) {
        return Err(Refusal::RingOutsideMemory);
    }
    let found = candidates_of(state);
    let arbiter = arbiter_of(state);
    let Some((id, next)) = arbiter.choose(found) else {
        return Err(Refusal::NoCandidate);
    };
    let sq = id as u8;
    let q = sq_at(state, id as usize);
    let r = q.ring;
    let first = first_entry(memory, r);
    if is_pair(memory, sq, r) {
        return take_pair(state, sq, next, first, second_entry(memory, r));
    }
    take_one(state, sq, next, first)
}
