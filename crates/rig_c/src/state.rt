// The whole controller, on words that the caller lends: they come from `bellrafter_controller_new`, and these calls alone change them.
ghost use Rattle.std.specs.Prelude.{◌≡◌};
ghost use Rattle.le.specs.Memory.{Memory};
ghost use Rattle.controller.specs.Answers.{number_of};
ghost use Rattle.controller.specs.Calls.{perform, create_cq, create_sq, delete_cq, delete_sq, tail_write, head_write};
ghost use Rattle.controller.specs.Calls.{start as start_call, finish as finish_call};
ghost use Rattle.controller.specs.State.{new_refusal, new_controller};
ghost use Rattle.store.specs.Held.{held, Holds, Reached};
ghost use Rattle.replay.specs.Replay.{replay};
ghost use Rattle.rig.specs.Numbers.{start_numbers, finish_numbers, replay_numbers, no_sq_numbers, sq_numbers, no_cq_numbers, cq_numbers};
ghost use Rattle.rig.specs.Numbers.{command_numbers, arbiter_numbers};

use rig::state::{
    ArbiterNumbers, CommandNumbers, CqNumbers, FinishNumbers, ReplayNumbers, SqNumbers,
    StartNumbers,
};
use store::WORDS;

// Makes any words those of a fresh controller.
#[unsafe(no_mangle)]
pub extern "C" fn bellrafter_controller_new(
    state: &mut [u64; WORDS],
    mechanism: u64,
    word: u32,
) -> u64
    ensures { (result ≡ new_refusal mechanism) × Holds state.new (new_controller mechanism word) }
{
    rig::state::bellrafter_controller_new(state, mechanism, word)
}

#[unsafe(no_mangle)]
pub extern "C" fn bellrafter_create_cq(
    state: &mut [u64; WORDS],
    memory: &[u8],
    id: u64,
    size: u64,
    base: u64,
) -> u64
    requires { Reached state.old }
    ensures { let o = perform (held state.old) memory.now (create_cq id size base) in
        (result ≡ number_of o.answer) × Holds state.new o.controller }
{
    rig::state::bellrafter_create_cq(state, memory, id, size, base)
}

#[unsafe(no_mangle)]
pub extern "C" fn bellrafter_create_sq(
    state: &mut [u64; WORDS],
    memory: &[u8],
    id: u64,
    size: u64,
    base: u64,
    cq: u64,
    class: u64,
) -> u64
    requires { Reached state.old }
    ensures { let o = perform (held state.old) memory.now (create_sq id size base cq class) in
        (result ≡ number_of o.answer) × Holds state.new o.controller }
{
    rig::state::bellrafter_create_sq(state, memory, id, size, base, cq, class)
}

#[unsafe(no_mangle)]
pub extern "C" fn bellrafter_delete_cq(state: &mut [u64; WORDS], id: u64) -> u64
    requires { Reached state.old }
    ensures { (m : Memory) → let o = perform (held state.old) m (delete_cq id) in
        (result ≡ number_of o.answer) × Holds state.new o.controller }
{
    rig::state::bellrafter_delete_cq(state, id)
}

#[unsafe(no_mangle)]
pub extern "C" fn bellrafter_delete_sq(state: &mut [u64; WORDS], id: u64) -> u64
    requires { Reached state.old }
    ensures { (m : Memory) → let o = perform (held state.old) m (delete_sq id) in
        (result ≡ number_of o.answer) × Holds state.new o.controller }
{
    rig::state::bellrafter_delete_sq(state, id)
}

#[unsafe(no_mangle)]
pub extern "C" fn bellrafter_tail_write(state: &mut [u64; WORDS], id: u64, value: u64) -> u64
    requires { Reached state.old }
    ensures { (m : Memory) → let o = perform (held state.old) m (tail_write id value) in
        (result ≡ number_of o.answer) × Holds state.new o.controller }
{
    rig::state::bellrafter_tail_write(state, id, value)
}

#[unsafe(no_mangle)]
pub extern "C" fn bellrafter_head_write(state: &mut [u64; WORDS], id: u64, value: u64) -> u64
    requires { Reached state.old }
    ensures { (m : Memory) → let o = perform (held state.old) m (head_write id value) in
        (result ≡ number_of o.answer) × Holds state.new o.controller }
{
    rig::state::bellrafter_head_write(state, id, value)
}

#[unsafe(no_mangle)]
pub extern "C" fn bellrafter_start(state: &mut [u64; WORDS], memory: &[u8]) -> StartNumbers
    requires { Reached state.old }
    ensures { let o = perform (held state.old) memory.now start_call in
        (result ≡ start_numbers o.answer) × Holds state.new o.controller }
{
    rig::state::bellrafter_start(state, memory)
}

#[unsafe(no_mangle)]
pub extern "C" fn bellrafter_finish(
    state: &mut [u64; WORDS],
    memory: &mut [u8],
    tag: u64,
    status: u64,
    res: u32,
) -> FinishNumbers
    requires { Reached state.old }
    ensures { let o = perform (held state.old) memory.old (finish_call tag status res) in
        (result ≡ finish_numbers o.answer) × Holds state.new o.controller × (memory.new ≡ o.memory) }
{
    rig::state::bellrafter_finish(state, memory, tag, status, res)
}

// The calls of a plant's trace, with an answer record for each record.
#[unsafe(no_mangle)]
pub extern "C" fn bellrafter_replay(
    state: &mut [u64; WORDS],
    memory: &mut [u8],
    trace: &[u8],
    answers: &mut [u8],
) -> ReplayNumbers
    requires { Reached state.old }
    ensures { let e = replay (held state.old) memory.old trace.now answers.old in
        (result ≡ replay_numbers e.answer) × Holds state.new e.controller
        × (memory.new ≡ e.memory) × (answers.new ≡ e.room) }
{
    rig::state::bellrafter_replay(state, memory, trace, answers)
}

// A submission queue, or 1 or 9.
#[unsafe(no_mangle)]
pub extern "C" fn bellrafter_look_sq(state: &[u64; WORDS], id: u64) -> SqNumbers
    ensures { result ≡ sq_numbers (held state.now) id }
{
    rig::state::bellrafter_look_sq(state, id)
}

// A completion queue, or 1 or 9.
#[unsafe(no_mangle)]
pub extern "C" fn bellrafter_look_cq(state: &[u64; WORDS], id: u64) -> CqNumbers
    ensures { result ≡ cq_numbers (held state.now) id }
{
    rig::state::bellrafter_look_cq(state, id)
}

// An outstanding command, or 14.
#[unsafe(no_mangle)]
pub extern "C" fn bellrafter_look_command(state: &[u64; WORDS], tag: u64) -> CommandNumbers
    ensures { result ≡ command_numbers (held state.now) tag }
{
    rig::state::bellrafter_look_command(state, tag)
}

// Turn holders, remainders and credits.
#[unsafe(no_mangle)]
pub extern "C" fn bellrafter_look_arbiter(state: &[u64; WORDS]) -> ArbiterNumbers
    ensures { result ≡ arbiter_numbers (held state.now).arbiter }
{
    rig::state::bellrafter_look_arbiter(state)
}
