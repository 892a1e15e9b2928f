// Plant traces: a reader stands on the trace and hands out one record after another.
#![tactic(auto)]

ghost use Rattle.std.specs.Prelude.{◌≡◌, ◌+◌, ◌≤◌, length, drop};
ghost use Rattle.rules.specs.Refusal.{by_number};
ghost use Rattle.le.specs.Memory.{part};
ghost use Rattle.trace.specs.Record.{kind_of, first_spare, any_set, record_in, asked, number_in};
ghost use Rattle.trace.specs.Trace.{record_at, refusal_at, next_at};

use rules::refusal::Refusal;

// The bytes of a record.
pub const RECORD_BYTES: usize = 16;

// The kind of call that a record asks for.
#[derive(Clone, Copy)]
pub enum Kind {
    TailWrite,
    HeadWrite,
    Start,
    Finish,
}

impl Kind {
    // The kind that byte 0 of a record or of an answer names.
    pub fn of_byte(byte: u64) -> Option<Kind>
        ensures { result ≡ kind_of byte }
    {
        match byte {
            1 => Some(Kind::TailWrite),
            2 => Some(Kind::HeadWrite),
            3 => Some(Kind::Start),
            4 => Some(Kind::Finish),
            _ => None,
        }
    }
}

// What stands at a place of a trace: a call with its queue or tag and its value; or nothing any more.
#[derive(Clone, Copy)]
pub enum Record {
    TailWrite(u8, u16),
    HeadWrite(u8, u16),
    Start,
    Finish(u8, u16),
    End,
}

// A reader that stands at a place of a trace.
#[derive(Clone, Copy)]
pub struct Reader<'a> {
    pub trace: &'a [u8],
    pub at: usize,
}

// Whether a spare byte of the 16 at a place is not zero: bytes 4 to 15, and in a start bytes 1 to 3 too.
fn has_spare(trace: &[u8], at: usize, kind: Kind) -> bool
    requires { at + 16 ≤ length trace.now }
    ensures { result ≡ any_set (drop (first_spare kind) (part trace.now at 16)) }
{
    if le::get::<4>(trace, at + 4) != 0 {
        return true;
    }
    if le::get::<8>(trace, at + 8) != 0 {
        return true;
    }
    match kind {
        Kind::Start => le::get::<1>(trace, at + 1) != 0 || le::get::<2>(trace, at + 2) != 0,
        Kind::TailWrite | Kind::HeadWrite | Kind::Finish => false,
    }
}

// The record whose 16 bytes stand at a place.
fn whole_at(trace: &[u8], at: usize) -> Result<Record, Refusal>
    requires { at + 16 ≤ length trace.now }
    ensures { by_number result ≡ record_in (part trace.now at 16) }
{
    let Some(kind) = Kind::of_byte(le::get::<1>(trace, at)) else {
        return Err(Refusal::BadRecord);
    };
    if has_spare(trace, at, kind) {
        return Err(Refusal::BadRecord);
    }
    let target = le::get::<1>(trace, at + 1) as u8;
    let value = le::get::<2>(trace, at + 2) as u16;
    Ok(match kind {
        Kind::TailWrite => Record::TailWrite(target, value),
        Kind::HeadWrite => Record::HeadWrite(target, value),
        Kind::Start => Record::Start,
        Kind::Finish => Record::Finish(target, value),
    })
}

// The record that begins at a place.
fn record_at(trace: &[u8], at: usize) -> Result<Record, Refusal>
    ensures value { by_number result ≡ record_at trace.now at }
    ensures refusal { number_in (asked (by_number result)) ≡ refusal_at trace.now at }
{
    if trace.len() <= at {
        return Ok(Record::End);
    }
    if trace.len() - at < RECORD_BYTES {
        return Err(Refusal::ShortRecord);
    }
    whole_at(trace, at)
}

// Where the next record begins.
pub fn next_at(trace: &[u8], at: usize) -> usize
    ensures { result ≡ next_at trace.now at }
{
    if trace.len() <= at {
        return trace.len();
    }
    if trace.len() - at < RECORD_BYTES {
        return trace.len();
    }
    at + RECORD_BYTES
}

// A reader at the start of a trace.
pub(crate) fn new<'a>(trace: &'a [u8]) -> Reader<'a>
    ensures { (result.trace ≡ trace.entry) × (result.at ≡ 0) }
{
    Reader { trace, at: 0 }
}

// The record that a reader stands on.
pub(crate) fn next<'a>(r: Reader<'a>) -> Result<Record, Refusal>
    ensures value { by_number result ≡ record_at r.entry.trace.now r.entry.at }
    ensures refusal { number_in (asked (by_number result)) ≡ refusal_at r.entry.trace.now r.entry.at }
{
    record_at(r.trace, r.at)
}

// The reader, moved on to the next record.
pub(crate) fn moved<'a>(r: Reader<'a>) -> Reader<'a>
    ensures { (result.trace ≡ r.entry.trace) × (result.at ≡ next_at r.entry.trace.now r.entry.at) }
{
    Reader {
        trace: r.trace,
        at: next_at(r.trace, r.at),
    }
}

// The record that a reader hands out at a place.
pub fn read(trace: &[u8], at: usize) -> Result<Record, Refusal>
    ensures value { by_number result ≡ record_at trace.now at }
    ensures refusal { number_in (asked (by_number result)) ≡ refusal_at trace.now at }
{
    next(Reader { trace, at })
}
