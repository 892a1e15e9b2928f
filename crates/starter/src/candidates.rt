// Which queues are candidates. One walk over the queues finds the masks of all classes.
ghost use Rattle.std.specs.Prelude.{◌≡◌, ℕ};
ghost use Rattle.controller.specs.Controller.{Controller};
ghost use Rattle.controller.specs.State.{sq_at};
ghost use Rattle.controller.specs.Starting.{candidate_at, candidates};
ghost use Rattle.store.specs.Held.{held, Reached};
ghost use Rattle.starter.specs.Masks.{stacked};

use arbiter::Candidates;
use controller::SubmissionQueue;
use store::{WORDS, sq_at};

// Whether a queue of a controller is a candidate.
#[tactic(auto, unfolding(controller::specs::Starting::candidate_at))]
fn is_candidate(q: SubmissionQueue) -> bool
    ensures { (c : Controller) (i : ℕ) → q ≡ sq_at c i → result ≡ candidate_at c i }
{
    let r = q.ring;
    if r.head == r.tail {
        return false;
    }
    r.exists & !q.marked
}

// The masks of the candidates of classes 0 to 3, 16 bits each, one above another.
fn masks_of(state: &[u64; WORDS]) -> u64
    requires { Reached state.now }
    ensures { result ≡ stacked (held state.now) 16 }
{
    let mut masks: u64 = 0;
    for i in 0..store::Controller::QUEUES {
        let q = sq_at(state, i);
        if is_candidate(q) {
            let place = store::Controller::QUEUES * (q.class as usize) + i;
            masks += 1 << place;
        }
    }
    masks
}

// The candidates among all queues, and among those of each class.
pub(crate) fn candidates_of(state: &[u64; WORDS]) -> Candidates
    requires { Reached state.now }
    ensures { result ≡ candidates (held state.now) }
{
    let masks = masks_of(state);
    let urgent = (masks % 65536) as u16;
    let high = (masks / 65536 % 65536) as u16;
    let medium = (masks / 4294967296 % 65536) as u16;
    let low = (masks / 281474976710656) as u16;
    Candidates {
        all: urgent + high + medium + low,
        urgent,
        high,
        medium,
        low,
    }
}
