// Creating queues.
ghost use Rattle.std.specs.Prelude.{◌≡◌, ◌≤◌};
ghost use Rattle.rules.specs.Rules.{first_match};
ghost use Rattle.rules.specs.Refusal.{code};
ghost use Rattle.controller.specs.Answers.{outcome};
ghost use Rattle.controller.specs.Calls.{perform, of_number, create_cq, create_sq};
ghost use Rattle.controller.specs.Create.{ring_rules, wrong_cq, create_cq_refusal, create_sq_refusal, new_ring};
ghost use Rattle.controller.specs.Rings.{share_byte, shares};
ghost use Rattle.controller.specs.State.{sq_at, cq_at};
ghost use Rattle.store.specs.Held.{held, Sound, Reached};

use crate::rings::{ends_past, some_ring};
use controller::{CompletionQueue, Ring, SubmissionQueue};
use ring::slots::wrong_size;
use rules::refusal::Refusal;
use store::{Controller, WORDS, cq_at, put_cq, put_sq, sq_at};

// Whether the k bytes at a and the l bytes at b have a byte in common. No sum is made, so none wraps.
fn share_byte(a: u64, k: u64, b: u64, l: u64) -> bool
    ensures { result ≡ share_byte a k b l }
{
    if a <= b {
        b - a < k && 0 < l
    } else {
        a - b < l && 0 < k
    }
}

// Whether some queue's ring has a byte in common with the k bytes at a.
fn rings_share(state: &[u64; WORDS], a: u64, k: u64) -> bool
    ensures { result ≡ shares (held state.now) a k }
{
    some_ring(state, |base, bytes| share_byte(a, k, base, bytes))
}

// Whether a new ring of `size` entries may lie at `base` in `n` bytes of memory.
fn ring_fits(state: &[u64; WORDS], n: u64, entry: u64, size: u64, base: u64) -> Result<(), Refusal>
    requires { entry ≤ 64 }
    ensures { code result ≡ first_match (ring_rules (held state.now) n entry size base) }
{
    if wrong_size(size) {
        return Err(Refusal::SizeOutOfRange);
    }
    if base % Controller::BASE_UNIT != 0 {
        return Err(Refusal::BaseNotAligned);
    }
    let bytes = entry * size;
    if ends_past(n, base, bytes) {
        return Err(Refusal::RingOutsideMemory);
    }
    if rings_share(state, base, bytes) {
        return Err(Refusal::RingsOverlap);
    }
    Ok(())
}

fn new_ring(size: u64, base: u64) -> Ring
    requires { size ≤ 1024 }
    ensures { result ≡ new_ring size base }
{
    Ring {
        exists: true,
        base,
        size: size as u16,
        head: 0,
        tail: 0,
    }
}

// Whether there is a submission queue of the id, which may be any number.
// Kept apart: of each kind of queue this is one line, with a getter of its own.
pub(crate) fn sq_exists(state: &[u64; WORDS], id: u64) -> bool
    ensures { result ≡ (sq_at (held state.now) id).ring.exists }
{
    id <= Controller::LAST_QUEUE && sq_at(state, id as usize).ring.exists
}

pub(crate) fn cq_exists(state: &[u64; WORDS], id: u64) -> bool
    ensures { result ≡ (cq_at (held state.now) id).ring.exists }
{
    id <= Controller::LAST_QUEUE && cq_at(state, id as usize).ring.exists
}

fn may_create_cq(state: &[u64; WORDS], n: u64, id: u64, size: u64, base: u64) -> Result<(), Refusal>
    ensures { code result ≡ create_cq_refusal (held state.now) n id size base }
{
    if Controller::LAST_QUEUE < id {
        return Err(Refusal::IdTooLarge);
    }
    if cq_exists(state, id) {
        return Err(Refusal::QueueExists);
    }
    ring_fits(state, n, Controller::COMPLETION_BYTES, size, base)
}

// Creates a completion queue.
pub fn create_cq(
    state: &mut [u64; WORDS],
    memory: &[u8],
    id: u64,
    size: u64,
    base: u64,
) -> Result<(), Refusal>
    requires { Reached state.old }
    ensures { Sound state.new × (outcome (of_number (code result)) (held state.new) memory.now
        ≡ perform (held state.old) memory.now (create_cq id size base)) }
{
    may_create_cq(state, memory.len() as u64, id, size, base)?;
    let ring = new_ring(size, base);
    put_cq(state, id as usize, CompletionQueue { ring, phase: 1 });
    Ok(())
}

// Whether submission queue `id` may not name completion queue `cq`.
fn wrong_cq(state: &[u64; WORDS], id: u64, cq: u64) -> bool
    ensures { result ≡ wrong_cq (held state.now) id cq }
{
    !cq_exists(state, cq) || (id == 0) != (cq == 0)
}

fn may_create_sq(
    state: &[u64; WORDS],
    n: u64,
    id: u64,
    size: u64,
    base: u64,
    cq: u64,
    class: u64,
) -> Result<(), Refusal>
    ensures { code result ≡ create_sq_refusal (held state.now) n id size base cq class }
{
    if Controller::LAST_QUEUE < id {
        return Err(Refusal::IdTooLarge);
    }
    if sq_exists(state, id) {
        return Err(Refusal::QueueExists);
    }
    if Controller::LAST_CLASS < class {
        return Err(Refusal::ClassTooLarge);
    }
    if wrong_cq(state, id, cq) {
        return Err(Refusal::WrongCompletionQueue);
    }
    ring_fits(state, n, Controller::SUBMISSION_BYTES, size, base)
}

// Creates a submission queue that posts to completion queue `cq`.
// Kept apart: the two creations store queues of different types, and what they have in common is `ring_fits` and `new_ring`.
pub fn create_sq(
    state: &mut [u64; WORDS],
    memory: &[u8],
    id: u64,
    size: u64,
    base: u64,
    cq: u64,
    class: u64,
) -> Result<(), Refusal>
    requires { Reached state.old }
    ensures { Sound state.new × (outcome (of_number (code result)) (held state.new) memory.now
        ≡ perform (held state.old) memory.now (create_sq id size base cq class)) }
{
    may_create_sq(state, memory.len() as u64, id, size, base, cq, class)?;
    let ring = new_ring(size, base);
    put_sq(
        state,
        id as usize,
        SubmissionQueue {
            ring,
            marked: false,
            cq: cq as u8,
            class: class as u8,
        },
    );
    Ok(())
}
