// Where rings lie.
ghost use Rattle.std.specs.Prelude.{ℕ, ◌≡◌, ◌+◌, ◌<◌, ◌≤◌, Bool, ltb};
ghost use Rattle.controller.specs.Rings.{existing, either_ring, some_ring, outside};
ghost use Rattle.queues.specs.Tests.{Tests, by_bytes};
ghost use Rattle.store.specs.Held.{held};

use controller::Ring;
use store::{Controller, WORDS, cq_at, sq_at};

// Whether `bytes` bytes at `base` end past `n` bytes. No sum is made, so none wraps.
pub(crate) fn ends_past(n: u64, base: u64, bytes: u64) -> bool
    ensures { result ≡ ltb n (base + bytes) }
{
    n < bytes || n - bytes < base
}

// Whether the ring exists and passes a test, which is told where the ring begins and how many bytes it has.
fn existing<F: Fn(u64, u64) -> bool>(test: &F, entry: u64, r: Ring) -> bool
    requires callable { F.IsAlwaysCallable test.now }
    requires entry { entry ≤ 64 }
    ensures { (p : ℕ → ℕ → Bool) → Tests (F.post test.now) p → result ≡ existing (by_bytes p) entry r }
{
    r.exists && test(r.base, entry * (r.size as u64))
}

// Whether the ring of SQ i or that of CQ i does.
fn either_ring<F: Fn(u64, u64) -> bool>(state: &[u64; WORDS], test: &F, i: usize) -> bool
    requires callable { F.IsAlwaysCallable test.now }
    requires low { i < 16 }
    ensures { (p : ℕ → ℕ → Bool) → Tests (F.post test.now) p → result ≡ either_ring (held state.now) (by_bytes p) i }
{
    existing(test, Controller::SUBMISSION_BYTES, sq_at(state, i).ring)
        || existing(test, Controller::COMPLETION_BYTES, cq_at(state, i).ring)
}

// Whether the ring of some queue does.
pub(crate) fn some_ring<F: Fn(u64, u64) -> bool>(state: &[u64; WORDS], test: F) -> bool
    requires { F.IsAlwaysCallable test }
    ensures { (p : ℕ → ℕ → Bool) → Tests (F.post test) p → result ≡ some_ring (held state.now) (by_bytes p) }
{
    (0..Controller::QUEUES).any(|i| either_ring(state, &test, i))
}

// Whether some queue's ring does not lie wholly in `n` bytes.
pub fn rings_outside(state: &[u64; WORDS], n: u64) -> bool
    ensures { result ≡ outside (held state.now) n }
{
    some_ring(state, |base, bytes| ends_past(n, base, bytes))
}
