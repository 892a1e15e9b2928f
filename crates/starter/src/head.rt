// What stands at the head of a submission ring.
ghost use Rattle.std.specs.Prelude.{◌≡◌, ◌≤◌, ◌<◌, length};
ghost use Rattle.entry.specs.Submission.{submission_at};
ghost use Rattle.ring.specs.Slots.{next};
ghost use Rattle.controller.specs.Starting.{entry_at, is_pair};
ghost use Rattle.starter.specs.Inside.{Inside};

use controller::Ring;
use entry::submission::Submission;
use ring::slots::{distance_in, next_slot};
use store::Controller;

// The entry in slot p of the ring.
fn entry_at(memory: &[u8], r: Ring, p: u64) -> Submission
    requires { (p < r.size) × Inside (length memory.now) r }
    ensures { result ≡ entry_at memory.now r p }
{
    let place = r.base + Controller::SUBMISSION_BYTES * p;
    let from = place as usize;
    let to = (place + Controller::SUBMISSION_BYTES) as usize;
    entry::submission::read(&memory[from..to]).unwrap()
}

// The entry at the head, and the one after it.
pub(crate) fn first_entry(memory: &[u8], r: Ring) -> Submission
    requires { Inside (length memory.now) r }
    ensures { result ≡ entry_at memory.now r r.head }
{
    entry_at(memory, r, r.head as u64)
}

pub(crate) fn second_entry(memory: &[u8], r: Ring) -> Submission
    requires { Inside (length memory.now) r }
    ensures { result ≡ entry_at memory.now r (next r.size r.head) }
{
    let p = next_slot(r.size as u64, r.head as u64);
    entry_at(memory, r, p)
}

// Whether a pair stands at the head of queue id. Nothing at or past the tail is read: the next slot only if at least two entries are
// submitted.
#[tactic(auto, unfolding(controller::specs::Starting::is_pair))]
pub(crate) fn is_pair(memory: &[u8], id: u8, r: Ring) -> bool
    requires { Inside (length memory.now) r }
    ensures { result ≡ is_pair id r memory.now }
{
    let submitted = distance_in(r.size as u64, r.head as u64, r.tail as u64);
    let first = first_entry(memory, r);
    if !((id != 0) & ((first.fuse == 1) & (2 <= submitted))) {
        return false;
    }
    let second = second_entry(memory, r);
    second.fuse == 2
}
