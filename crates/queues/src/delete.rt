// Deleting queues. A deleted queue is as one that never was.
ghost use Rattle.std.specs.Prelude.{◌≡◌, ◌<◌};
ghost use Rattle.rules.specs.Rules.{first_match};
ghost use Rattle.rules.specs.Refusal.{number, code};
ghost use Rattle.le.specs.Memory.{Memory};
ghost use Rattle.controller.specs.Answers.{outcome};
ghost use Rattle.controller.specs.Calls.{perform, of_number, delete_cq, delete_sq};
ghost use Rattle.controller.specs.Delete.{taken_from, busy, naming, named, delete_rules};
ghost use Rattle.controller.specs.State.{no_ring};
ghost use Rattle.store.specs.Held.{held, Sound, Reached};

use crate::create::{cq_exists, sq_exists};
use controller::{CompletionQueue, Ring, SubmissionQueue};
use rules::refusal::Refusal;
use store::{Controller, WORDS, command_at, free_of, is_outstanding, put_cq, put_sq, sq_at};

// Whether the command of tag `t` is outstanding and was taken from submission queue `id`.
fn taken_from(state: &[u64; WORDS], id: u64, t: usize) -> bool
    requires { t < 64 }
    ensures { result ≡ taken_from (held state.now) id t }
{
    is_outstanding(free_of(state), t as u64) && command_at(state, t).sq as u64 == id
}

// Whether submission queue `id` has outstanding commands.
fn is_busy(state: &[u64; WORDS], id: u64) -> bool
    ensures { result ≡ busy (held state.now) id }
{
    (0..Controller::TAGS).any(|t| taken_from(state, id, t))
}

// Whether submission queue `i` exists and names completion queue `id`.
fn is_naming(state: &[u64; WORDS], id: u64, i: usize) -> bool
    requires { i < 16 }
    ensures { result ≡ naming (held state.now) id i }
{
    let q = sq_at(state, i);
    q.ring.exists && q.cq as u64 == id
}

// Whether some submission queue names completion queue `id`.
fn is_named(state: &[u64; WORDS], id: u64) -> bool
    ensures { result ≡ named (held state.now) id }
{
    (0..Controller::QUEUES).any(|i| is_naming(state, id, i))
}

fn no_ring() -> Ring
    ensures { result ≡ no_ring }
{
    Ring {
        exists: false,
        base: 0,
        size: 0,
        head: 0,
        tail: 0,
    }
}

// Whether queue `id` may be deleted; `busy` is the refusal where it is in use.
fn may_delete(id: u64, exists: bool, in_use: bool, busy: Refusal) -> Result<(), Refusal>
    ensures { code result ≡ first_match (delete_rules id exists in_use (number busy)) }
{
    if Controller::LAST_QUEUE < id {
        return Err(Refusal::IdTooLarge);
    }
    if id == 0 {
        return Err(Refusal::AdminQueue);
    }
    if !exists {
        return Err(Refusal::NoSuchQueue);
    }
    if in_use {
        return Err(busy);
    }
    Ok(())
}

// Deletes a submission queue.
// Kept apart: the two deletions store queues of different types, and what they have in common is `may_delete` and `no_ring`.
pub fn delete_sq(state: &mut [u64; WORDS], id: u64) -> Result<(), Refusal>
    requires { Reached state.old }
    ensures { Sound state.new × ((m : Memory) → outcome (of_number (code result)) (held state.new) m
        ≡ perform (held state.old) m (delete_sq id)) }
{
    may_delete(
        id,
        sq_exists(state, id),
        is_busy(state, id),
        Refusal::CommandsOutstanding,
    )?;
    let ring = no_ring();
    put_sq(
        state,
        id as usize,
        SubmissionQueue {
            ring,
            marked: false,
            cq: 0,
            class: 0,
        },
    );
    Ok(())
}

// Deletes a completion queue.
pub fn delete_cq(state: &mut [u64; WORDS], id: u64) -> Result<(), Refusal>
    requires { Reached state.old }
    ensures { Sound state.new × ((m : Memory) → outcome (of_number (code result)) (held state.new) m
        ≡ perform (held state.old) m (delete_cq id)) }
{
    may_delete(
        id,
        cq_exists(state, id),
        is_named(state, id),
        Refusal::NamedBySubmissionQueue,
    )?;
    let ring = no_ring();
    put_cq(state, id as usize, CompletionQueue { ring, phase: 0 });
    Ok(())
}
