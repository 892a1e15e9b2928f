// The verdicts on what is taken.
ghost use Rattle.std.specs.Prelude.{◌≡◌, Bool, ◌||◌};
ghost use Rattle.controller.specs.Verdict.{in_use, verdict_one, verdict_pair};
ghost use Rattle.store.specs.Held.{held};

use entry::submission::Submission;
use store::{Controller, WORDS, command_at, free_of};

// The opcodes of a pair.
const COMPARE: u8 = 5;

const WRITE: u8 = 1;

// Whether one of two CIDs is in use by an outstanding command of the queue. Only the tags that are not free are looked at.
pub(crate) fn in_use(state: &[u64; WORDS], sq: u8, a: u16, b: u16) -> bool
    ensures { let c = held state.now in
        result ≡ in_use c.commands c.free sq a || in_use c.commands c.free sq b }
{
    let mut left = u64::MAX - free_of(state);
    while left != 0 {
        let t = u64::trailing_zeros(left);
        let k = command_at(state, t as usize);
        if (k.sq == sq) & ((k.cid == a) | (k.cid == b)) {
            return true;
        }
        left -= 1u64 << t;
    }
    false
}

// The verdict on a command that is taken alone; `used` says whether its CID is in use.
#[tactic(auto, unfolding(controller::specs::Verdict::verdict_one))]
pub(crate) fn verdict_one(id: u8, e: Submission, used: bool) -> u16
    ensures { result ≡ verdict_one id e used }
{
    let fuse = e.fuse;
    let psdt = e.psdt;
    if (id == 0) & (fuse != 0) {
        return Controller::INVALID_FIELD;
    }
    if fuse == 3 {
        return Controller::INVALID_FIELD;
    }
    if fuse == 2 {
        return Controller::MISSING_FUSED;
    }
    if fuse == 1 {
        return Controller::MISSING_FUSED;
    }
    if psdt != 0 {
        return Controller::INVALID_FIELD;
    }
    if used {
        return Controller::COMMAND_ID_CONFLICT;
    }
    0
}

// The verdict on a pair; `used` says whether one of its CIDs is in use.
#[tactic(auto, unfolding(controller::specs::Verdict::verdict_pair))]
pub(crate) fn verdict_pair(a: Submission, b: Submission, used: bool) -> u16
    ensures { (x y : Bool) → used ≡ (x || y) → result ≡ verdict_pair a b x y }
{
    if !((a.opc == COMPARE) & (b.opc == WRITE)) {
        return Controller::INVALID_FIELD;
    }
    if !((a.nsid == b.nsid) & ((a.slba == b.slba) & (a.nlb == b.nlb))) {
        return Controller::INVALID_FIELD;
    }
    if !((a.psdt == 0) & (b.psdt == 0)) {
        return Controller::INVALID_FIELD;
    }
    if used | (a.cid == b.cid) {
        return Controller::COMMAND_ID_CONFLICT;
    }
    0
}
