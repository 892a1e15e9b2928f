// The reader of a completion ring.
ghost use Rattle.std.specs.Prelude.{◌≡◌, ℕ, ◌+◌, ◌*◌, ◌-◌, ◌≤◌, ◌<◌, length};
ghost use Rattle.rules.specs.Refusal.{code, by_number};
ghost use Rattle.ring.specs.Reader.{phase_in, read_count, reader_refusal, waiting_answer, ring_read};

use crate::slots::wrong_size;
use rules::refusal::Refusal;

// The phase tag of the entry in `slot`.
fn phase_in(ring: &[u8], slot: u64) -> u64
    requires { (slot < 1024) × (16 * slot + 16 ≤ length ring.now) }
    ensures { result ≡ phase_in ring.now slot }
{
    le::get::<1>(ring, (16 * slot + 14) as usize) % 2
}

// How many entries in a row, from `slot` on and at most `most`, have the phase tag: none of them lies past the wrap.
fn run(ring: &[u8], slot: u64, most: u64, phase: u64) -> u64
    requires { (slot + most ≤ 1024) × (16 * (slot + most) ≤ length ring.now) }
    ensures { (result ≤ most) × ((size : ℕ) → slot + most ≤ size → result ≡ read_count most ring.now size slot phase) }
{
    for n in 0..most {
        if phase_in(ring, slot + n) != phase {
            return n;
        }
    }
    most
}

// How many entries in a row, from `head` on and at most size - 1, have the phase tag expected: up to the wrap, and from there on.
fn count(ring: &[u8], size: u64, head: u64, phase: u64) -> u64
    requires { (2 ≤ size) × (size ≤ 1024) × (16 * size ≤ length ring.now) × (head < size) × (phase < 2) }
    ensures { result ≡ read_count (size - 1) ring.now size head phase }
{
    if head == 0 {
        return run(ring, 0, size - 1, phase);
    }
    let n = run(ring, head, size - head, phase);
    if n < size - head {
        return n;
    }
    n + run(ring, 0, head - 1, 1 - phase)
}

// Whether a ring of these bytes can be read from `head` on.
fn readable(bytes: usize, size: u64, head: u64) -> Result<(), Refusal>
    ensures { code result ≡ reader_refusal bytes size head }
{
    if wrong_size(size) {
        return Err(Refusal::SizeOutOfRange);
    }
    let needed = 16 * size;
    if (bytes as u64) < needed {
        return Err(Refusal::RingOutsideMemory);
    }
    if size <= head {
        return Err(Refusal::InvalidDoorbellValue);
    }
    Ok(())
}

// How many completions wait in a ring, for a reader that stands at `head` and expects `phase` there.
pub fn read(ring: &[u8], size: u64, head: u64, phase: u64) -> Result<u64, Refusal>
    ensures value { by_number result ≡ ring_read ring.now size head phase }
    ensures refusal { (waiting_answer (by_number result)).0 ≡ reader_refusal (length ring.now) size head }
{
    readable(ring.len(), size, head)?;
    Ok(count(ring, size, head, phase % 2))
}
