// The records of a trace, counted.
ghost use Rattle.std.specs.Prelude.{◌≡◌, ◌+◌, ◌≤◌, length};
ghost use Rattle.rules.specs.Rules.{pick};
ghost use Rattle.print.specs.Put.{Put};
ghost use Rattle.refusals.specs.Meaning.{is_of_record};
ghost use Rattle.transcript.specs.Tally.{no_records, one_more, counted};
ghost use Rattle.transcript.specs.Summary.{counts_text, margin_text, row_text, summary_text};

use print::{put, put_end};
use refusals::named::{put_named, put_pair};
use refusals::{LARGEST, is_of_record, put_meaning};

// A place for each refusal number, and for 0.
const NUMBERS: usize = LARGEST + 1;

// How many records there were, how many of them asked for a call, how many were refused, and how many by each number. After the
// largest number of 64 bits a count begins at 0 again.
#[derive(Clone, Copy)]
pub struct Tally {
    pub records: u64,
    pub calls: u64,
    pub refused: u64,
    pub numbers: [u64; NUMBERS],
}

fn plus_one(n: u64) -> u64
    ensures { result ≡ one_more n }
{
    n.wrapping_add(1)
}

// Counts a call, unless the refusal number says that the record asked for none.
fn calls_after(calls: u64, refusal: u64) -> u64
    ensures { result ≡ pick (is_of_record refusal) calls (one_more calls) }
{
    if is_of_record(refusal) {
        return calls;
    }
    plus_one(calls)
}

impl Tally {
    pub fn new() -> Tally
        ensures { result ≡ no_records }
    {
        Tally {
            records: 0,
            calls: 0,
            refused: 0,
            numbers: [0; NUMBERS],
        }
    }

    // Counts a record by its refusal number, 0 for none. A number above the largest counts as refused, and has no count of its own.
    pub(crate) fn count(&mut self, refusal: u64)
        ensures { self.new ≡ counted self.old refusal }
    {
        self.records = plus_one(self.records);
        self.calls = calls_after(self.calls, refusal);
        if refusal == 0 {
            return;
        }
        self.refused = plus_one(self.refused);
        let i = refusal as usize;
        if NUMBERS <= i {
            return;
        }
        self.numbers[i] = plus_one(self.numbers[i]);
    }

    // With such a record counted.
    pub fn with(mut self, refusal: u64) -> Tally
        ensures { result ≡ counted self refusal }
    {
        self.count(refusal);
        self
    }
}

// A number of one digit stands below the second of two.
fn put_margin(out: &mut [u8], at: usize, number: u64) -> usize
    requires { at + length (margin_text number) ≤ length out.old }
    ensures { Put out.old at (margin_text number) out.new result }
{
    if number < 10 {
        return put(out, at, b" ");
    }
    at
}

// A refusal number, how many records it refused, and its meaning; nothing where it refused none.
fn put_row(out: &mut [u8], at: usize, number: u64, count: u64) -> usize
    requires { at + length (row_text number count) ≤ length out.old }
    ensures { Put out.old at (row_text number count) out.new result }
{
    if count == 0 {
        return at;
    }
    let margin = put_margin(out, at, number);
    let to = put_pair(out, margin, b" ", number, b" ", count);
    let before = put(out, to, b"  ");
    let end = put_meaning(out, before, number);
    put_end(out, end)
}

fn put_counts(out: &mut [u8], at: usize, tally: Tally) -> usize
    requires { at + length (counts_text tally) ≤ length out.old }
    ensures { Put out.old at (counts_text tally) out.new result }
{
    let records = put_pair(
        out,
        at,
        b"summary:",
        tally.records,
        b" records,",
        tally.calls,
    );
    let refused = put_named(out, records, b" calls,", tally.refused);
    put(out, refused, b" refused\n")
}

// The counts, and a row for each number that refused a record.
pub fn put_summary(out: &mut [u8], tally: Tally) -> usize
    requires { length (summary_text tally) ≤ length out.old }
    ensures { Put out.old 0 (summary_text tally) out.new result }
{
    let mut to = put_counts(out, 0, tally);
    for i in 1..NUMBERS {
        to = put_row(out, to, i as u64, tally.numbers[i]);
    }
    to
}
