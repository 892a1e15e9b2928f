// The whole controller, on words that the caller lends: they come from `bellrafter_controller_new`, and these calls alone change them.
ghost use Rattle.std.specs.Prelude.{◌≡◌};
ghost use Rattle.le.specs.Memory.{Memory};
ghost use Rattle.controller.specs.Answers.{number_of};
ghost use Rattle.controller.specs.Calls.{perform, create_cq, create_sq, delete_cq, delete_sq, tail_write, head_write};
ghost use Rattle.controller.specs.Calls.{start as start_call, finish as finish_call};
ghost use Rattle.controller.specs.State.{new_refusal, new_controller};
ghost use Rattle.store.specs.Held.{held, Holds, Reached};
ghost use Rattle.replay.specs.Replay.{replay};
ghost use Rattle.rig.specs.Numbers.{start_numbers, finish_numbers, replay_numbers, no_sq_numbers, sq_numbers, no_cq_numbers, cq_numbers};
ghost use Rattle.rig.specs.Numbers.{command_numbers, arbiter_numbers};

use controller::Started;
use rules::refusal::code;
use store::{Controller, WORDS, arbiter_of, command_at, cq_at, free_of, is_outstanding, sq_at};

#[repr(C)]
#[derive(Clone, Copy)]
pub struct StartNumbers {
    pub refusal: u64,
    pub sq: u64,
    pub count: u64,
    pub first: u64,
    pub second: u64,
    pub slot: u64,
    pub verdict: u64,
    pub number: u64,
}

#[repr(C)]
#[derive(Clone, Copy)]
pub struct FinishNumbers {
    pub refusal: u64,
    pub slot: u64,
    pub number: u64,
}

#[repr(C)]
#[derive(Clone, Copy)]
pub struct ReplayNumbers {
    pub refusal: u64,
    pub records: u64,
}

#[repr(C)]
#[derive(Clone, Copy)]
pub struct SqNumbers {
    pub refusal: u64,
    pub base: u64,
    pub size: u64,
    pub head: u64,
    pub tail: u64,
    pub marked: u64,
    pub cq: u64,
    pub class: u64,
}

#[repr(C)]
#[derive(Clone, Copy)]
pub struct CqNumbers {
    pub refusal: u64,
    pub base: u64,
    pub size: u64,
    pub head: u64,
    pub tail: u64,
    pub phase: u64,
}

#[repr(C)]
#[derive(Clone, Copy)]
pub struct CommandNumbers {
    pub refusal: u64,
    pub sq: u64,
    pub cid: u64,
    pub verdict: u64,
    pub number: u64,
}

// A remainder without limit is the largest number.
#[repr(C)]
#[derive(Clone, Copy)]
pub struct ArbiterNumbers {
    pub mechanism: u64,
    pub word: u64,
    pub holder: u64,
    pub remainder: u64,
    pub high_holder: u64,
    pub high_remainder: u64,
    pub high_credit: u64,
    pub medium_holder: u64,
    pub medium_remainder: u64,
    pub medium_credit: u64,
    pub low_holder: u64,
    pub low_remainder: u64,
    pub low_credit: u64,
}

// Makes any words those of a fresh controller.
pub fn bellrafter_controller_new(state: &mut [u64; WORDS], mechanism: u64, word: u32) -> u64
    ensures { (result ≡ new_refusal mechanism) × Holds state.new (new_controller mechanism word) }
{
    code(store::reset(state, mechanism, word))
}

pub fn bellrafter_create_cq(
    state: &mut [u64; WORDS],
    memory: &[u8],
    id: u64,
    size: u64,
    base: u64,
) -> u64
    requires { Reached state.old }
    ensures { let o = perform (held state.old) memory.now (create_cq id size base) in
        (result ≡ number_of o.answer) × Holds state.new o.controller }
{
    code(queues::create::create_cq(state, memory, id, size, base))
}

pub fn bellrafter_create_sq(
    state: &mut [u64; WORDS],
    memory: &[u8],
    id: u64,
    size: u64,
    base: u64,
    cq: u64,
    class: u64,
) -> u64
    requires { Reached state.old }
    ensures { let o = perform (held state.old) memory.now (create_sq id size base cq class) in
        (result ≡ number_of o.answer) × Holds state.new o.controller }
{
    code(queues::create::create_sq(state, memory, id, size, base, cq, class))
}

pub fn bellrafter_delete_cq(state: &mut [u64; WORDS], id: u64) -> u64
    requires { Reached state.old }
    ensures { (m : Memory) → let o = perform (held state.old) m (delete_cq id) in
        (result ≡ number_of o.answer) × Holds state.new o.controller }
{
    code(queues::delete::delete_cq(state, id))
}

pub fn bellrafter_delete_sq(state: &mut [u64; WORDS], id: u64) -> u64
    requires { Reached state.old }
    ensures { (m : Memory) → let o = perform (held state.old) m (delete_sq id) in
        (result ≡ number_of o.answer) × Holds state.new o.controller }
{
    code(queues::delete::delete_sq(state, id))
}

pub fn bellrafter_tail_write(state: &mut [u64; WORDS], id: u64, value: u64) -> u64
    requires { Reached state.old }
    ensures { (m : Memory) → let o = perform (held state.old) m (tail_write id value) in
        (result ≡ number_of o.answer) × Holds state.new o.controller }
{
    code(doorbells::tail_write(state, id, value))
}

pub fn bellrafter_head_write(state: &mut [u64; WORDS], id: u64, value: u64) -> u64
    requires { Reached state.old }
    ensures { (m : Memory) → let o = perform (held state.old) m (head_write id value) in
        (result ≡ number_of o.answer) × Holds state.new o.controller }
{
    code(doorbells::head_write(state, id, value))
}

pub fn bellrafter_start(state: &mut [u64; WORDS], memory: &[u8]) -> StartNumbers
    requires { Reached state.old }
    ensures { let o = perform (held state.old) memory.now start_call in
        (result ≡ start_numbers o.answer) × Holds state.new o.controller }
{
    match starter::start(state, memory) {
        Ok(
            Started::One {
                sq,
                tag,
                slot,
                verdict,
                number,
            },
        ) => StartNumbers {
            refusal: 0,
            sq: sq as u64,
            count: 1,
            first: tag as u64,
            second: 0,
            slot: slot as u64,
            verdict: verdict as u64,
            number,
        },
        Ok(
            Started::Pair {
                sq,
                first,
                second,
                slot,
                verdict,
                number,
            },
        ) => StartNumbers {
            refusal: 0,
            sq: sq as u64,
            count: 2,
            first: first as u64,
            second: second as u64,
            slot: slot as u64,
            verdict: verdict as u64,
            number,
        },
        Err(refusal) => StartNumbers {
            refusal: refusal.number(),
            sq: 0,
            count: 0,
            first: 0,
            second: 0,
            slot: 0,
            verdict: 0,
            number: 0,
        },
    }
}

pub fn bellrafter_finish(
    state: &mut [u64; WORDS],
    memory: &mut [u8],
    tag: u64,
    status: u64,
    res: u32,
) -> FinishNumbers
    requires { Reached state.old }
    ensures { let o = perform (held state.old) memory.old (finish_call tag status res) in
        (result ≡ finish_numbers o.answer) × Holds state.new o.controller × (memory.new ≡ o.memory) }
{
    match finisher::finish(state, memory, tag, status, res) {
        Ok(finished) => FinishNumbers {
            refusal: 0,
            slot: finished.slot as u64,
            number: finished.number,
        },
        Err(refusal) => FinishNumbers {
            refusal: refusal.number(),
            slot: 0,
            number: 0,
        },
    }
}

// The calls of a plant's trace, with an answer record for each record.
pub fn bellrafter_replay(
    state: &mut [u64; WORDS],
    memory: &mut [u8],
    trace: &[u8],
    answers: &mut [u8],
) -> ReplayNumbers
    requires { Reached state.old }
    ensures { let e = replay (held state.old) memory.old trace.now answers.old in
        (result ≡ replay_numbers e.answer) × Holds state.new e.controller
        × (memory.new ≡ e.memory) × (answers.new ≡ e.room) }
{
    match replay::replay(state, memory, trace, answers) {
        Ok(records) => ReplayNumbers {
            refusal: 0,
            records,
        },
        Err(refusal) => ReplayNumbers {
            refusal: refusal.number(),
            records: 0,
        },
    }
}

fn no_sq(refusal: u64) -> SqNumbers
    ensures { result ≡ no_sq_numbers refusal }
{
    SqNumbers {
        refusal,
        base: 0,
        size: 0,
        head: 0,
        tail: 0,
        marked: 0,
        cq: 0,
        class: 0,
    }
}

// A submission queue, or 1 or 9.
pub fn bellrafter_look_sq(state: &[u64; WORDS], id: u64) -> SqNumbers
    ensures { result ≡ sq_numbers (held state.now) id }
{
    if Controller::LAST_QUEUE < id {
        return no_sq(1);
    }
    let q = sq_at(state, id as usize);
    let r = q.ring;
    if !r.exists {
        return no_sq(9);
    }
    SqNumbers {
        refusal: 0,
        base: r.base,
        size: r.size as u64,
        head: r.head as u64,
        tail: r.tail as u64,
        marked: u64::from(q.marked),
        cq: q.cq as u64,
        class: q.class as u64,
    }
}

fn no_cq(refusal: u64) -> CqNumbers
    ensures { result ≡ no_cq_numbers refusal }
{
    CqNumbers {
        refusal,
        base: 0,
        size: 0,
        head: 0,
        tail: 0,
        phase: 0,
    }
}

// A completion queue, or 1 or 9.
pub fn bellrafter_look_cq(state: &[u64; WORDS], id: u64) -> CqNumbers
    ensures { result ≡ cq_numbers (held state.now) id }
{
    if Controller::LAST_QUEUE < id {
        return no_cq(1);
    }
    let q = cq_at(state, id as usize);
    let r = q.ring;
    if !r.exists {
        return no_cq(9);
    }
    CqNumbers {
        refusal: 0,
        base: r.base,
        size: r.size as u64,
        head: r.head as u64,
        tail: r.tail as u64,
        phase: q.phase as u64,
    }
}

// An outstanding command, or 14.
pub fn bellrafter_look_command(state: &[u64; WORDS], tag: u64) -> CommandNumbers
    ensures { result ≡ command_numbers (held state.now) tag }
{
    if !is_outstanding(free_of(state), tag) {
        return CommandNumbers {
            refusal: 14,
            sq: 0,
            cid: 0,
            verdict: 0,
            number: 0,
        };
    }
    let k = command_at(state, tag as usize);
    CommandNumbers {
        refusal: 0,
        sq: k.sq as u64,
        cid: k.cid as u64,
        verdict: k.verdict as u64,
        number: k.number,
    }
}

// Turn holders, remainders and credits.
pub fn bellrafter_look_arbiter(state: &[u64; WORDS]) -> ArbiterNumbers
    ensures { result ≡ arbiter_numbers (held state.now).arbiter }
{
    let a = arbiter_of(state);
    ArbiterNumbers {
        mechanism: u64::from(a.weighted),
        word: a.word as u64,
        holder: a.group.holder as u64,
        remainder: a.group.remainder.number(),
        high_holder: a.high.group.holder as u64,
        high_remainder: a.high.group.remainder.number(),
        high_credit: a.high.credit as u64,
        medium_holder: a.medium.group.holder as u64,
        medium_remainder: a.medium.group.remainder.number(),
        medium_credit: a.medium.credit as u64,
        low_holder: a.low.group.holder as u64,
        low_remainder: a.low.group.remainder.number(),
        low_credit: a.low.credit as u64,
    }
}
