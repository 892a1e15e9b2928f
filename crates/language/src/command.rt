// The commands, and what stands behind the word of each.
ghost use Rattle.std.specs.Prelude.{◌≡◌};
ghost use Rattle.parse.specs.declared.arguments.Rest.TheVariants.{Nothing};
ghost use Rattle.language.specs.Vocabulary as v;
ghost use Rattle.language.specs.Forms.{Forms};

use crate::sizes::{MEMORY_BYTES, PEEK_BYTES, REPLAY_BYTES, WALK_BYTES};
use parse::arguments::Rest;
use store::Controller;

// A call of the model, or a fresh controller.
#[derive(Clone, Copy)]
pub enum Call {
    Controller,
    CreateCq,
    CreateSq,
    DeleteCq,
    DeleteSq,
    Tail,
    Head,
    Start,
    Finish,
}

// On a part of the memory, whose place and room are the first two numbers.
#[derive(Clone, Copy)]
pub enum OnPart {
    Fill,
    WriteSqe,
    ReadSqe,
    WriteCqe,
    ReadCqe,
    Waiting,
}

// A look at the controller, or a check of plain numbers.
#[derive(Clone, Copy)]
pub enum Look {
    CheckTail,
    CheckHead,
    ShowSq,
    ShowCq,
    ShowTag,
    ShowArbiter,
}

#[derive(Clone, Copy)]
pub enum Command {
    Call(Call),
    OnPart(OnPart),
    Look(Look),
    Lend,
    Poke,
    Poke64,
    Peek,
    Walk,
    Replay,
}

// The largest value of each number behind a word, and what may stand behind these.
#[derive(Clone, Copy)]
pub struct Form {
    pub largest: &'static [u64],
    pub rest: Rest,
}

const ANY: u64 = u64::MAX;

const BITS32: u64 = 4294967295;

const BITS16: u64 = 65535;

const BITS8: u64 = 255;

fn of_call(k: Call) -> &'static [u64]
    ensures { result.now ≡ v.call_form k }
{
    match k {
        Call::Controller => &[ANY, BITS32],
        Call::CreateCq => &[ANY; 3],
        Call::CreateSq => &[ANY; 5],
        Call::DeleteCq => &[ANY],
        Call::DeleteSq => &[ANY],
        Call::Tail => &[ANY; 2],
        Call::Head => &[ANY; 2],
        Call::Start => &[],
        Call::Finish => &[ANY, ANY, BITS32],
    }
}

// The place and the room of the part come first.
fn of_on_part(k: OnPart) -> &'static [u64]
    ensures { result.now ≡ v.on_part_form k }
{
    match k {
        OnPart::Fill => &[ANY, ANY, BITS8],
        // OPC, FUSE, PSDT, CID, NSID; MPTR, PRP1, PRP2, SLBA; NLB, CDW12H, CDW13, CDW14, CDW15.
        OnPart::WriteSqe => &[
            ANY, ANY, BITS8, ANY, ANY, BITS16, BITS32, ANY, ANY, ANY, ANY, BITS16, BITS16, BITS32,
            BITS32, BITS32,
        ],
        OnPart::ReadSqe => &[ANY; 2],
        // RESULT, SQHD, SQID, CID, STATUS, PHASE.
        OnPart::WriteCqe => &[ANY, ANY, BITS32, BITS16, BITS16, BITS16, ANY, ANY],
        OnPart::ReadCqe => &[ANY; 2],
        OnPart::Waiting => &[ANY; 5],
    }
}

fn of_look(k: Look) -> &'static [u64]
    ensures { result.now ≡ v.look_form k }
{
    match k {
        Look::CheckTail => &[ANY; 4],
        Look::CheckHead => &[ANY; 4],
        Look::ShowSq => &[Controller::LAST_QUEUE],
        Look::ShowCq => &[Controller::LAST_QUEUE],
        Look::ShowTag => &[Controller::LAST_TAG],
        Look::ShowArbiter => &[],
    }
}

// No word stands behind the numbers.
fn fixed(largest: &'static [u64]) -> Form
    ensures { (result.largest.now ≡ largest.now) × (result.rest ≡ Nothing) }
{
    Form {
        largest: largest,
        rest: Rest::Nothing,
    }
}

pub fn form_of(command: Command) -> Form
    ensures { Forms result (v.form command) }
{
    match command {
        Command::Call(k) => fixed(of_call(k)),
        Command::OnPart(k) => fixed(of_on_part(k)),
        Command::Look(k) => fixed(of_look(k)),
        Command::Lend => fixed(&[MEMORY_BYTES as u64]),
        // The place, and one value or more.
        Command::Poke => Form {
            largest: &[ANY, BITS8],
            rest: Rest::Numbers(BITS8),
        },
        Command::Poke64 => Form {
            largest: &[ANY, ANY],
            rest: Rest::Numbers(ANY),
        },
        Command::Peek => fixed(&[ANY, PEEK_BYTES as u64]),
        // PRP1, PRP2, LENGTH, PAGE; the room for addresses, and for counts.
        Command::Walk => fixed(&[ANY, ANY, ANY, ANY, WALK_BYTES as u64, WALK_BYTES as u64]),
        // The room, and the bytes of the trace.
        Command::Replay => Form {
            largest: &[REPLAY_BYTES as u64],
            rest: Rest::Bytes,
        },
    }
}
