// The plain doorbell checks.
ghost use Rattle.std.specs.Prelude.{◌≡◌, ◌≤◌, ◌<◌};
ghost use Rattle.rules.specs.Refusal.{code};
ghost use Rattle.ring.specs.Doorbell.{valid_tail, valid_head, place_refusal, tail_check, head_check};

use crate::slots::{distance_in, wrong_size};
use rules::refusal::Refusal;

// Whether a tail value is valid on a ring in order: it moves the tail, and not past the head.
pub fn valid_tail(size: u64, head: u64, tail: u64, value: u64) -> bool
    requires { (head < size) × (tail < size) × (size ≤ 1024) }
    ensures { result ≡ valid_tail size head tail value }
{
    if size <= value {
        return false;
    }
    distance_in(size, head, tail) < distance_in(size, head, value)
}

// Whether a head value is valid on a ring in order: it moves the head, and not past the tail.
pub fn valid_head(size: u64, head: u64, tail: u64, value: u64) -> bool
    requires { (head < size) × (tail < size) × (size ≤ 1024) }
    ensures { result ≡ valid_head size head tail value }
{
    if size <= value {
        return false;
    }
    let steps = distance_in(size, head, value);
    (0 < steps) & (steps <= distance_in(size, head, tail))
}

// Whether the numbers of a ring can be its own.
fn places(size: u64, head: u64, tail: u64) -> Result<(), Refusal>
    ensures { code result ≡ place_refusal size head tail }
{
    if wrong_size(size) {
        return Err(Refusal::SizeOutOfRange);
    }
    if size <= head {
        return Err(Refusal::InvalidDoorbellValue);
    }
    if size <= tail {
        return Err(Refusal::InvalidDoorbellValue);
    }
    Ok(())
}

// The check of a tail value for a submission queue. Kept apart from that of a head value: each has one line of its own, and C has both.
pub fn check_tail(size: u64, head: u64, tail: u64, value: u64) -> Result<(), Refusal>
    ensures { code result ≡ tail_check size head tail value }
{
    places(size, head, tail)?;
    if valid_tail(size, head, tail, value) {
        Ok(())
    } else {
        Err(Refusal::InvalidDoorbellValue)
    }
}

// The check of a head value for a completion queue.
pub fn check_head(size: u64, head: u64, tail: u64, value: u64) -> Result<(), Refusal>
    ensures { code result ≡ head_check size head tail value }
{
    places(size, head, tail)?;
    if valid_head(size, head, tail, value) {
        Ok(())
    } else {
        Err(Refusal::InvalidDoorbellValue)
    }
}
