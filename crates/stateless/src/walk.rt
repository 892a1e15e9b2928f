// The page walk: its numbers in the place of those that asked for it.
ghost use Rattle.std.specs.Prelude.{◌≡◌, ◌∷◌, [], ◌+◌, ◌*◌, ◌≤◌, ◌<◌, length, take};
ghost use Rattle.rules.specs.Refusal.{by_number};
ghost use Rattle.prp.specs.Pages.{most_pages};
ghost use Rattle.prp.specs.Answer.{refusal_of, pages_of, reads_of};
ghost use Rattle.print.specs.Put.{Put};
ghost use Rattle.language.specs.declared.command.Command.TheVariants as K;
ghost use Rattle.language.specs.Vocabulary.{form, walk_bytes};
ghost use Rattle.language.specs.Replies as s;
ghost use Rattle.language.specs.Commands.{in_turn, walked};
ghost use Rattle.stateless.specs.Leaving.{Narrow, firsts, readings, numbers_most};

use language::sizes::NUMBERS;
use prp::Walked;
use rules::refusal::Refusal;

// The refusal, the pages and the list entries read.
fn put_three(numbers: &mut [u64], refusal: u64, pages: u64, reads: u64) -> usize
    requires { 3 ≤ length numbers.old }
    ensures { Put numbers.old 0 (refusal ∷ pages ∷ reads ∷ []) numbers.new result }
{
    numbers[0] = refusal;
    numbers[1] = pages;
    numbers[2] = reads;
    3
}

// The address and the byte count of each page, as the walk left them in its buffers.
fn put_pages(numbers: &mut [u64], at: usize, addresses: &[u8], counts: &[u8], pages: usize) -> usize
    requires { (at + 2 * pages ≤ length numbers.old) × (8 * pages ≤ length addresses.now) × (4 * pages ≤ length counts.now) }
    ensures { Put numbers.old at
        (in_turn (readings 8 0 pages addresses.now) (readings 4 0 pages counts.now)) numbers.new result }
{
    let mut to = at;
    for i in 0..pages {
        numbers[to] = le::get::<8>(addresses, 8 * i);
        numbers[to + 1] = le::get::<4>(counts, 4 * i);
        to += 2;
    }
    to
}

// The answer of a walk: its three numbers, and the pages that it left in its buffers.
fn put_walked(
    numbers: &mut [u64],
    walked: Result<Walked, Refusal>,
    addresses: &[u8],
    counts: &[u8],
) -> usize
    requires { (3 + 2 * pages_of (by_number walked) ≤ length numbers.old) × (8 * pages_of (by_number walked) ≤ length addresses.now)
        × (4 * pages_of (by_number walked) ≤ length counts.now) }
    ensures { Put numbers.old 0 (refusal_of (by_number walked) ∷ pages_of (by_number walked) ∷ reads_of (by_number walked)
        ∷ in_turn (readings 8 0 (pages_of (by_number walked)) addresses.now) (readings 4 0 (pages_of (by_number walked)) counts.now))
        numbers.new result }
{
    match walked {
        Ok(found) => {
            let to = put_three(numbers, 0, found.pages, found.reads);
            put_pages(numbers, to, addresses, counts, found.pages as usize)
        }
        Err(refusal) => put_three(numbers, refusal.number(), 0, 0),
    }
}

// Walks, and answers how many numbers it leaves.
pub fn walk(memory: &[u8], a: &mut [u64; NUMBERS], addresses: &mut [u8], counts: &mut [u8]) -> usize
    requires { Narrow (form K.Walk).largest 0 a.old × (length a.old ≡ numbers_most)
        × (walk_bytes ≤ length addresses.old) × (walk_bytes ≤ length counts.old) }
    ensures { (s.told (take result a.new) ≡ walked memory.now (firsts 6 0 a.old))
        × (result ≤ 3 + 2 * most_pages) × (length a.new ≡ length a.old) }
{
    let address_room = a[4] as usize;
    let count_room = a[5] as usize;
    let walked = prp::walk(
        memory,
        a[0],
        a[1],
        a[2],
        a[3],
        &mut addresses[..address_room],
        &mut counts[..count_room],
    );
    put_walked(a, walked, addresses, counts)
}
