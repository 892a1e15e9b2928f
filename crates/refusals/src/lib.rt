// What refusal numbers mean, in the words of document 01's table, and from 30 on of document 02's tickets. Each function that writes
// does so from `at` on, asks for exactly the room of its text and answers the place after it.
#![tactic(auto)]

ghost use Rattle.std.specs.Prelude.{◌≡◌, ◌+◌, ◌≤◌, length};
ghost use Rattle.print.specs.Put.{Put};
ghost use Rattle.refusals.specs.Meaning.{meaning, is_of_record};
ghost use Rattle.refusals.specs.Named.{refused_text};

use crate::named::put_named;
use print::put;

pub mod named;

// The largest number that any call or record is refused with.
pub const LARGEST: usize = 35;

// What each number that a call of the set-up or a record can have means.
const MEANINGS: [(u64, &str); 25] = [
    (1, "the queue's own id above 15"),
    (2, "queue exists already"),
    (3, "size outside 2 to 1,024 entries"),
    (4, "base not a multiple of 4,096"),
    (5, "a ring does not lie wholly in the memory given"),
    (6, "the new ring shares a byte with an existing ring"),
    (
        7,
        "the SQ names a CQ that does not exist; or SQ 0 a CQ other than 0; or another SQ the CQ 0",
    ),
    (8, "class number above 3"),
    (9, "queue does not exist"),
    (10, "doorbell value invalid"),
    (11, "the SQ is marked"),
    (12, "no SQ is a candidate"),
    (13, "too few free tags"),
    (14, "tag not outstanding"),
    (15, "status above 32,767"),
    (
        16,
        "second half finished while its first half is outstanding",
    ),
    (17, "the CQ has no free slot"),
    (21, "a result or entry buffer too short"),
    (23, "mechanism other than 0 or 1"),
    (30, "an unknown call or a nonzero spare byte"),
    (31, "a last short record"),
    (
        32,
        "the start would need a number above 18,446,744,073,709,551,614",
    ),
    (33, "the SQ has outstanding commands"),
    (34, "an SQ names the CQ"),
    (35, "id 0 is never deleted"),
];

// Whether a number is a record's own, which then asks for no call: 30 an unknown call or a nonzero spare byte, 31 a short record.
pub fn is_of_record(n: u64) -> bool
    ensures { result ≡ is_of_record n }
{
    if n == 30 {
        return true;
    }
    n == 31
}

fn text_of(n: u64) -> &'static str
    ensures { result.now ≡ meaning n }
{
    for row in MEANINGS.iter() {
        if row.0 == n {
            return row.1;
        }
    }
    "see the table of refusals"
}

// What a number means.
pub fn put_meaning(out: &mut [u8], at: usize, n: u64) -> usize
    requires { at + length (meaning n) ≤ length out.old }
    ensures { Put out.old at (meaning n) out.new result }
{
    put(out, at, text_of(n).as_bytes())
}

// A refusal with its meaning.
pub fn put_refused(out: &mut [u8], at: usize, n: u64) -> usize
    requires { at + length (refused_text n) ≤ length out.old }
    ensures { Put out.old at (refused_text n) out.new result }
{
    let number = put_named(out, at, b"refused", n);
    let to = put(out, number, b", ");
    put_meaning(out, to, n)
}
