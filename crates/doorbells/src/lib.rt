// Doorbell writes.
#![tactic(auto)]

ghost use Rattle.std.specs.Prelude.{◌≡◌};
ghost use Rattle.rules.specs.Refusal.{code};
ghost use Rattle.le.specs.Memory.{Memory};
ghost use Rattle.controller.specs.Answers.{outcome};
ghost use Rattle.controller.specs.Calls.{perform, of_number, tail_write, head_write};
ghost use Rattle.controller.specs.Doorbell.{valid_tail, valid_head};
ghost use Rattle.controller.specs.Valid.{RingOk};
ghost use Rattle.store.specs.Held.{held, Sound, Reached};

use controller::Ring;
use rules::refusal::Refusal;
use store::{Controller, WORDS, cq_at, mark_sq, put_cq_head, put_sq_tail, sq_at};

// Kept apart: of each doorbell this is one call, and the two checks mean different things.
fn takes_tail(r: Ring, value: u64) -> bool
    requires { RingOk r }
    ensures { result ≡ valid_tail r value }
{
    ring::doorbell::valid_tail(r.size as u64, r.head as u64, r.tail as u64, value)
}

fn takes_head(r: Ring, value: u64) -> bool
    requires { RingOk r }
    ensures { result ≡ valid_head r value }
{
    ring::doorbell::valid_head(r.size as u64, r.head as u64, r.tail as u64, value)
}

// Writes the tail doorbell of a submission queue.
pub fn tail_write(state: &mut [u64; WORDS], id: u64, value: u64) -> Result<(), Refusal>
    requires { Reached state.old }
    ensures { Sound state.new × ((m : Memory) → outcome (of_number (code result)) (held state.new) m
        ≡ perform (held state.old) m (tail_write id value)) }
{
    if Controller::LAST_QUEUE < id {
        return Err(Refusal::IdTooLarge);
    }
    let i = id as usize;
    let q = sq_at(state, i);
    if !q.ring.exists {
        return Err(Refusal::NoSuchQueue);
    }
    if q.marked {
        return Err(Refusal::QueueMarked);
    }
    if !takes_tail(q.ring, value) {
        mark_sq(state, i);
        return Err(Refusal::InvalidDoorbellValue);
    }
    put_sq_tail(state, i, value as u16);
    Ok(())
}

// Writes the head doorbell of a completion queue.
// Kept apart: a completion queue has no mark, and the two calls store queues of different types.
pub fn head_write(state: &mut [u64; WORDS], id: u64, value: u64) -> Result<(), Refusal>
    requires { Reached state.old }
    ensures { Sound state.new × ((m : Memory) → outcome (of_number (code result)) (held state.new) m
        ≡ perform (held state.old) m (head_write id value)) }
{
    if Controller::LAST_QUEUE < id {
        return Err(Refusal::IdTooLarge);
    }
    let i = id as usize;
    let q = cq_at(state, i);
    if !q.ring.exists {
        return Err(Refusal::NoSuchQueue);
    }
    if !takes_head(q.ring, value) {
        return Err(Refusal::InvalidDoorbellValue);
    }
    put_cq_head(state, i, value as u16);
    Ok(())
}
