// Answers, printed at the start of a buffer once it is known what they are.
ghost use Rattle.std.specs.Prelude.{List, [], ℕ, true, ◌≡◌, ◌≤◌, ◌+◌, length, IfSome};
ghost use Rattle.parse.specs.Line.{most_bytes};
ghost use Rattle.print.specs.Put.{Put};
ghost use Rattle.language.specs.Replies as s;
ghost use Rattle.stateless.specs.Leaving.{heard, heard_or_bad, good_of, refused_by, Numbered, Printed, answer_bytes};

use crate::reply::Reply;
use print::{put, put_bad, put_end, put_hex_word, put_numbers};

// What came of a line: it was good; it was bad; or a change that it asked for, of the controller or of an entry, was refused, by a number
// above 0. It is a number and no `Refusal`, since any may be said.
#[derive(Clone, Copy)]
pub enum Verdict {
    Good,
    Bad,
    Refused(u64),
}

impl Verdict {
    // Of a line that is no bad one, by the number by which the change that it asked for was refused, 0 for none.
    fn of(refusal: u64) -> Verdict
        ensures { (good_of result ≡ true) × (refused_by result ≡ refusal) × Numbered result }
    {
        match refusal {
            0 => Verdict::Good,
            _ => Verdict::Refused(refusal),
        }
    }
}

// The length of an answer, 0 where there is none, how many bytes of the memory are lent afterwards, and what came of the line.
#[derive(Clone, Copy)]
pub struct Answered {
    pub length: usize,
    pub lent: usize,
    pub verdict: Verdict,
}

fn put_sentence(out: &mut [u8], word: &[u8], numbers: &[u64], bytes: &[u8]) -> usize
    requires { length (s.sentence word.now numbers.now bytes.now) ≤ length out.old }
    ensures { Put out.old 0 (s.sentence word.now numbers.now bytes.now)
        out.new result }
{
    let first = put(out, 0, word);
    let second = put_numbers(out, first, numbers);
    let third = put_hex_word(out, second, bytes);
    put_end(out, third)
}

// Numbers and bytes.
pub fn say(
    out: &mut [u8],
    word: &[u8],
    refusal: u64,
    numbers: &[u64],
    bytes: &[u8],
    lent: usize,
) -> Answered
    requires { (length (s.sentence word.now numbers.now bytes.now) ≤ answer_bytes) × (answer_bytes ≤ length out.old) }
    ensures { (n : ℕ) → Printed (s.say refusal numbers.now bytes.now) word.now n
        out.old out.new lent result }
{
    Answered {
        length: put_sentence(out, word, numbers, bytes),
        lent,
        verdict: Verdict::of(refusal),
    }
}

// That a line of a number is a bad one.
pub fn say_bad(out: &mut [u8], number: u64, lent: usize) -> Answered
    requires { answer_bytes ≤ length out.old }
    ensures { (word : List ℕ) → Printed s.bad word number out.old out.new lent result }
{
    Answered {
        length: put_bad(out, 0, number),
        lent,
        verdict: Verdict::Bad,
    }
}

// A short reply, which is said alike whatever the line's number is; or, where there is none, that the line of a number is a bad one.
pub fn say_reply(
    out: &mut [u8],
    word: &[u8],
    number: u64,
    reply: Option<Reply>,
    lent: usize,
) -> Answered
    requires { IfSome reply (λ r. r.count ≤ 16) × (length word.now ≤ most_bytes) × (answer_bytes ≤ length out.old) }
    ensures printed { Printed (heard_or_bad reply) word.now number out.old out.new lent result }
    ensures good { IfSome reply (λ r. (n : ℕ) → Printed (heard r) word.now n out.old out.new lent result) }
{
    let Some(reply) = reply else {
        return say_bad(out, number, lent);
    };
    let numbers = reply.numbers;
    let count = reply.count;
    say(out, word, reply.refusal, &numbers[..count], b"", lent)
}
