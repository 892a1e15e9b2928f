// Finishing commands.
#![tactic(auto)]

ghost use Rattle.std.specs.Prelude.{◌≡◌, ◌+◌, ◌*◌, ◌≤◌, ◌<◌, length};
ghost use Rattle.rules.specs.Rules.{first_match};
ghost use Rattle.bits.specs.Tags.{given_back};
ghost use Rattle.rules.specs.Refusal.{code, by_number};
ghost use Rattle.le.specs.Memory.{put};
ghost use Rattle.entry.specs.Completion.{completion, completion_bytes};
ghost use Rattle.controller.specs.Answers.{outcome};
ghost use Rattle.controller.specs.Calls.{perform, of_finished, finish as finish_call};
ghost use Rattle.controller.specs.Finishing.{full, call_rules, posting_rules, status_of, released, unlinked, posted};
ghost use Rattle.controller.specs.State.{cq_at, with_cq, with_commands};
ghost use Rattle.controller.specs.Valid.{RingOk};
ghost use Rattle.store.specs.Held.{held, Sound, Holds, Reached};

use controller::{Command, CompletionQueue, Finished, Ring};
use queues::rings::rings_outside;
use ring::slots::{distance_in, next_phase, next_slot};
use rules::refusal::Refusal;
use store::{
    Controller, WORDS, command_at, cq_at, free_of, is_outstanding, put_command, put_cq_tail,
    put_free, sq_at,
};

// Whether the ring has no free slot.
#[tactic(auto, unfolding(controller::specs::Finishing::full))]
fn is_full(r: Ring) -> bool
    requires { RingOk r }
    ensures { result ≡ full r }
{
    distance_in(r.size as u64, r.head as u64, r.tail as u64) == r.size as u64 - 1
}

// Whether a finish may be asked for in `n` bytes of memory, whatever its command is.
fn may_finish(state: &[u64; WORDS], n: u64, tag: u64, status: u64) -> Result<(), Refusal>
    ensures { code result ≡ first_match (call_rules (held state.now) n tag status) }
{
    if rings_outside(state, n) {
        return Err(Refusal::RingOutsideMemory);
    }
    if !is_outstanding(free_of(state), tag) {
        return Err(Refusal::NotOutstanding);
    }
    if Controller::LAST_STATUS < status {
        return Err(Refusal::StatusTooLarge);
    }
    Ok(())
}

// Whether a command can be posted to the ring.
fn may_post(k: Command, r: Ring) -> Result<(), Refusal>
    requires { RingOk r }
    ensures { code result ≡ first_match (posting_rules k r) }
{
    if k.first != 0 {
        return Err(Refusal::FirstHalfOutstanding);
    }
    if is_full(r) {
        return Err(Refusal::NoFreeSlot);
    }
    Ok(())
}

// The verdict if it is not 0, else the status given.
#[tactic(auto, unfolding(controller::specs::Finishing::status_of))]
fn status_of(verdict: u16, given: u64) -> u64
    ensures { result ≡ status_of verdict given }
{
    if verdict == 0 { given } else { verdict as u64 }
}

// Writes the completion into the slot at the queue's tail.
fn post(memory: &mut [u8], q: CompletionQueue, k: Command, sqhd: u16, status: u64, res: u32)
    requires { RingOk q.ring × (q.ring.base + 16 * q.ring.size ≤ length memory.old) × (status ≤ 32767) }
    ensures { memory.new ≡ put memory.old (q.ring.base + 16 * q.ring.tail)
        (completion_bytes (completion res sqhd k.sq k.cid status) q.phase) }
{
    let o = (q.ring.base + Controller::COMPLETION_BYTES * (q.ring.tail as u64)) as usize;
    entry::completion::write(
        &mut memory[o..],
        res,
        sqhd,
        k.sq as u16,
        k.cid,
        status,
        q.phase as u64,
    )
    .unwrap();
}

// The queue with one entry more.
#[tactic(auto, unfolding(controller::specs::Finishing::posted))]
fn with_posted(q: CompletionQueue) -> CompletionQueue
    requires { RingOk q.ring × (q.phase ≤ 1) }
    ensures { result ≡ posted q }
{
    let mut ring = q.ring;
    let size = ring.size as u64;
    let tail = ring.tail as u64;
    ring.tail = next_slot(size, tail) as u16;
    CompletionQueue {
        ring,
        phase: next_phase(size, tail, q.phase as u64) as u8,
    }
}

// A second half whose first half has posted the status.
#[tactic(auto, unfolding(controller::specs::Finishing::released))]
fn release(k: Command, status: u64) -> Command
    ensures { result ≡ released status k }
{
    let mut half = k;
    half.first = 0;
    if status == 0 {
        return half;
    }
    half.verdict = status_of(k.verdict, Controller::FAILED_FUSED as u64) as u16;
    half
}

// Completion queue i, which is y, has one entry more.
fn move_on(state: &mut [u64; WORDS], i: usize, y: CompletionQueue)
    requires { (i < 16) × Sound state.old × RingOk y.ring × (y.phase ≤ 1) × (y ≡ cq_at (held state.old) i) }
    ensures { Holds state.new (with_cq (held state.old) i (posted y)) }
{
    let q = with_posted(y);
    put_cq_tail(state, i, q.ring.tail, q.phase);
}

// The second half of a first half that has posted the status; `second` is its tag plus 1, or 0.
fn unlink(state: &mut [u64; WORDS], second: u8, status: u64)
    requires { (second ≤ 64) × Sound state.old }
    ensures { let c = held state.old in
        Holds state.new (with_commands c (unlinked c.commands second status) c.free c.arbiter) }
{
    if second == 0 {
        return;
    }
    let t = (second - 1) as usize;
    let half = command_at(state, t);
    put_command(state, t, release(half, status));
}

fn give_back(state: &mut [u64; WORDS], tag: u64)
    requires { Sound state.old }
    ensures { let c = held state.old in
        Holds state.new (with_commands c c.commands (given_back c.free tag) c.arbiter) }
{
    let free = free_of(state);
    put_free(state, bits::give_back(free, tag));
}

// Finishes an outstanding command: posts its completion and frees its tag.
pub fn finish(
    state: &mut [u64; WORDS],
    memory: &mut [u8],
    tag: u64,
    status: u64,
    res: u32,
) -> Result<Finished, Refusal>
    requires { Reached state.old }
    ensures { Sound state.new × (outcome (of_finished (by_number result)) (held state.new) memory.new
        ≡ perform (held state.old) memory.old (finish_call tag status res)) }
{
    may_finish(state, memory.len() as u64, tag, status)?;
    let k = command_at(state, tag as usize);
    let x = sq_at(state, k.sq as usize);
    let i = x.cq as usize;
    let y = cq_at(state, i);
    may_post(k, y.ring)?;
    let given = status_of(k.verdict, status);
    post(memory, y, k, x.ring.head, given, res);
    move_on(state, i, y);
    unlink(state, k.second, given);
    give_back(state, tag);
    Ok(Finished {
        slot: y.ring.tail,
        number: k.number,
    })
}
