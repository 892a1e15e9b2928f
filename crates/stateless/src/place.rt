// Where a part of the memory lies.
ghost use Rattle.std.specs.Prelude.{◌≡◌, ◌+◌, ◌≤◌, true, false, length, MatchOption};
ghost use Rattle.language.specs.Commands.{outside};

// Where so many bytes from a place on begin and end; None where they do not all lie in the memory.
pub(crate) fn part_of(memory: &[u8], place: u64, count: u64) -> Option<(usize, usize)>
    ensures { MatchOption result (outside memory.now place count ≡ true)
        (λ p. (outside memory.now place count ≡ false) × (p.0 ≡ place) × (p.1 ≡ place + count) × (place + count ≤ length memory.now)) }
{
    let n = memory.len() as u64;
    if n < place {
        return None;
    }
    if n - place < count {
        return None;
    }
    let from = place as usize;
    Some((from, from + count as usize))
}
