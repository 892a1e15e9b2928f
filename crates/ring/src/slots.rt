// Slots of a ring: the leaves that the checks, the reader and the controller's calls are written with. Each asks for slots
// below the size, which every caller shows.
ghost use Rattle.std.specs.Prelude.{◌≡◌, ◌≤◌, ◌<◌};
ghost use Rattle.ring.specs.Slots.{wrong_size, next, distance, phase_after};

// How many entries a ring has.
const LEAST_SIZE: u64 = 2;

const MOST_SIZE: u64 = 1024;

pub fn wrong_size(size: u64) -> bool
    ensures { result ≡ wrong_size size }
{
    (size < LEAST_SIZE) | (MOST_SIZE < size)
}

// How far b lies after a.
pub fn distance_in(size: u64, a: u64, b: u64) -> u64
    requires { (a < size) × (b < size) × (size ≤ 1024) }
    ensures { result ≡ distance size a b }
{
    if a <= b { b - a } else { b + size - a }
}

// The slot after one.
pub fn next_slot(size: u64, slot: u64) -> u64
    requires { (slot < size) × (size ≤ 1024) }
    ensures { (result ≡ next size slot) × (result < size) }
{
    if slot + 1 == size { 0 } else { slot + 1 }
}

// The phase tag of the slot after one: at the wrap it turns over.
pub fn next_phase(size: u64, slot: u64, phase: u64) -> u64
    requires { (slot < size) × (size ≤ 1024) × (phase < 2) }
    ensures { (result ≡ phase_after size slot phase) × (result < 2) }
{
    if slot + 1 == size { 1 - phase } else { phase }
}
