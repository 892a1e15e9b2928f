// Taking a command, or a pair, from the queue that was chosen.
ghost use Rattle.std.specs.Prelude.{◌≡◌, ◌+◌, ◌%◌, ◌≤◌, ◌<◌};
ghost use Rattle.le.specs.Memory.{Memory};
ghost use Rattle.rules.specs.Refusal.{by_number};
ghost use Rattle.controller.specs.Answers.{outcome};
ghost use Rattle.controller.specs.Calls.{of_started};
ghost use Rattle.controller.specs.Starting.{passed, command, take_one, take_pair};
ghost use Rattle.controller.specs.State.{sq_at, with_sq, with_commands, with_next_number};
ghost use Rattle.controller.specs.Valid.{RingOk};
ghost use Rattle.store.specs.Held.{held, Sound, Holds};

use crate::verdict::{in_use, verdict_one, verdict_pair};
use arbiter::Arbiter;
use controller::{Command, Ring, Started};
use entry::submission::Submission;
use rules::refusal::Refusal;
use store::{
    Controller, WORDS, free_of, next_number, put_arbiter, put_command, put_free, put_next_number,
    put_sq_head, sq_at,
};

// The head of a ring, moved past n commands.
fn moved(r: Ring, n: u16) -> u16
    requires { RingOk r × (n ≤ 2) }
    ensures { result ≡ (r.head + n) % r.size }
{
    let size = r.size;
    let next = r.head + n;
    if next < size { next } else { next - size }
}

// The head of queue i moves past n commands. The answer is the slot where it stood.
fn pass(state: &mut [u64; WORDS], i: usize, n: u16) -> u16
    requires { (i < 16) × (n ≤ 2) × Sound state.old × RingOk (sq_at (held state.old) i).ring }
    ensures { let c = held state.old in
        (result ≡ (sq_at c i).ring.head) × Holds state.new (with_sq c i (passed (sq_at c i) n)) }
{
    let q = sq_at(state, i);
    let r = q.ring;
    put_sq_head(state, i, moved(r, n));
    r.head
}

// The tags that are left free, whose turn it is then, and the next start number.
fn leave(state: &mut [u64; WORDS], free: u64, arbiter: Arbiter, number: u64)
    requires { Sound state.old }
    ensures { let c = held state.old in
        Holds state.new (with_next_number (with_commands c c.commands free arbiter) number) }
{
    put_free(state, free);
    put_arbiter(state, arbiter);
    put_next_number(state, number);
}

// A command that is linked to no other.
fn command(sq: u8, cid: u16, verdict: u16, number: u64) -> Command
    ensures { result ≡ command sq cid verdict 0 0 number }
{
    Command {
        sq,
        cid,
        verdict,
        first: 0,
        second: 0,
        number,
    }
}

// The entry e at the head of queue id is taken with the lowest free tag.
pub(crate) fn take_one(
    state: &mut [u64; WORDS],
    id: u8,
    next: Arbiter,
    e: Submission,
) -> Result<Started, Refusal>
    requires { (id < 16) × Sound state.old × RingOk (sq_at (held state.old) id).ring }
    ensures { Sound state.new × ((m : Memory) → outcome (of_started (by_number result)) (held state.new) m
        ≡ take_one (held state.old) m id next e) }
{
    let Some((tag, left)) = bits::take_one(free_of(state)) else {
        return Err(Refusal::TooFewTags);
    };
    let number = next_number(state);
    if Controller::LAST_NUMBER < number {
        return Err(Refusal::NumbersUsedUp);
    }
    let t = tag as u8;
    let verdict = verdict_one(id, e, in_use(state, id, e.cid, e.cid));
    let slot = pass(state, id as usize, 1);
    put_command(state, tag as usize, command(id, e.cid, verdict, number));
    leave(state, left, next, number + 1);
    Ok(Started::One {
        sq: id,
        tag: t,
        slot,
        verdict,
        number,
    })
}

// The entries e and f at the head of queue id are taken with the two lowest free tags, each half linked to the other.
pub(crate) fn take_pair(
    state: &mut [u64; WORDS],
    id: u8,
    next: Arbiter,
    e: Submission,
    f: Submission,
) -> Result<Started, Refusal>
    requires { (id < 16) × Sound state.old × RingOk (sq_at (held state.old) id).ring }
    ensures { Sound state.new × ((m : Memory) → outcome (of_started (by_number result)) (held state.new) m
        ≡ take_pair (held state.old) m id next e f) }
{
    let Some((first, second, left)) = bits::take_two(free_of(state)) else {
        return Err(Refusal::TooFewTags);
    };
    let number = next_number(state);
    if Controller::LAST_NUMBER <= number {
        return Err(Refusal::NumbersUsedUp);
    }
    let t = first as u8;
    let u = second as u8;
    let verdict = verdict_pair(e, f, in_use(state, id, e.cid, f.cid));
    let slot = pass(state, id as usize, 2);
    put_command(
        state,
        first as usize,
        Command {
            second: u + 1,
            ..command(id, e.cid, verdict, number)
        },
    );
    put_command(
        state,
        second as usize,
        Command {
            first: t + 1,
            ..command(id, f.cid, verdict, number + 1)
        },
    );
    leave(state, left, next, number + 2);
    Ok(Started::Pair {
        sq: id,
        first: t,
        second: u,
        slot,
        verdict,
        number,
    })
}
