// A record and its answer record, on a line.
ghost use Rattle.std.specs.Prelude.{◌≡◌, ◌+◌, ◌<◌, ◌≤◌, true, length, drop};
ghost use Rattle.trace.specs.Record.{sent, any_set};
ghost use Rattle.print.specs.Put.{Put};
ghost use Rattle.transcript.specs.Record.{
  Wrong,
  first_set,
  wrong_byte,
  call_name,
  wrong_text,
  short_text,
  asked_text,
  done_text,
  answer_text,
  titled,
  record_line,
};

use print::{put, put_end};
use refusals::named::{put_named, put_pair};
use refusals::put_refused;
use trace::{Kind, RECORD_BYTES, Record, read};

// The name of a call that is known, before what is wrong with its record.
fn put_name(out: &mut [u8], at: usize, call: u64) -> usize
    requires { at + length (call_name call) ≤ length out.old }
    ensures { Put out.old at (call_name call) out.new result }
{
    match Kind::of_byte(call) {
        Some(Kind::TailWrite) => put(out, at, b"tail write, "),
        Some(Kind::HeadWrite) => put(out, at, b"head write, "),
        Some(Kind::Start) => put(out, at, b"start, "),
        Some(Kind::Finish) => put(out, at, b"finish, "),
        None => at,
    }
}

// The place of the first byte from a place on that is not zero.
fn first_set(bytes: &[u8], from: usize) -> usize
    requires { any_set (drop from bytes.now) ≡ true }
    ensures { (result ≡ from + first_set (drop from bytes.now)) × (result < length bytes.now) }
{
    for i in from..bytes.len() {
        if bytes[i] != 0 {
            return i;
        }
    }
    unreachable!()
}

// The byte that is wrong: byte 0 of an unknown call, else the first spare byte that is not zero.
fn wrong_byte(bytes: &[u8], call: u64) -> usize
    requires { Wrong bytes.now × (call ≡ sent bytes.now) }
    ensures { (result ≡ wrong_byte bytes.now) × (result < length bytes.now) }
{
    match Kind::of_byte(call) {
        None => 0,
        Some(Kind::Start) => first_set(bytes, 1),
        Some(_) => first_set(bytes, 4),
    }
}

// What is wrong with a record that asks for no call.
fn put_wrong(out: &mut [u8], at: usize, bytes: &[u8]) -> usize
    requires { Wrong bytes.now × (at + length (wrong_text bytes.now) ≤ length out.old) }
    ensures { Put out.old at (wrong_text bytes.now) out.new result }
{
    let call = le::get::<1>(bytes, 0);
    let i = wrong_byte(bytes, call);
    let to = put_name(out, at, call);
    put_pair(out, to, b"byte", i as u64, b" is", le::get::<1>(bytes, i))
}

// What is there of a short record.
fn put_short(out: &mut [u8], at: usize, bytes: &[u8]) -> usize
    requires { at + length (short_text bytes.now) ≤ length out.old }
    ensures { Put out.old at (short_text bytes.now) out.new result }
{
    let to = put_named(out, at, b"only", bytes.len() as u64);
    put(out, to, b" of 16 bytes")
}

// What a record asks for.
fn put_asked(out: &mut [u8], at: usize, bytes: &[u8]) -> usize
    requires { (length bytes.now ≤ 16) × (at + length (asked_text bytes.now) ≤ length out.old) }
    ensures { Put out.old at (asked_text bytes.now) out.new result }
{
    if bytes.len() < RECORD_BYTES {
        return put_short(out, at, bytes);
    }
    match read(bytes, 0) {
        Ok(Record::TailWrite(queue, value)) => put_pair(
            out,
            at,
            b"tail write, SQ",
            queue as u64,
            b", value",
            value as u64,
        ),
        Ok(Record::HeadWrite(queue, value)) => put_pair(
            out,
            at,
            b"head write, CQ",
            queue as u64,
            b", value",
            value as u64,
        ),
        Ok(Record::Start) => put(out, at, b"start"),
        Ok(Record::Finish(tag, status)) => put_pair(
            out,
            at,
            b"finish, tag",
            tag as u64,
            b", status",
            status as u64,
        ),
        Err(_) => put_wrong(out, at, bytes),
        Ok(Record::End) => at,
    }
}

// What a call that is done answers.
fn put_done(out: &mut [u8], at: usize, call: u64, res: u64) -> usize
    requires { at + length (done_text call res) ≤ length out.old }
    ensures { Put out.old at (done_text call res) out.new result }
{
    match Kind::of_byte(call) {
        Some(Kind::Start) => put_named(out, at, b"done, tag", res),
        Some(Kind::Finish) => put_named(out, at, b"done, slot", res),
        _ => put(out, at, b"done"),
    }
}

// What came of a record.
fn put_answer(out: &mut [u8], at: usize, answer: &[u8]) -> usize
    requires { (4 ≤ length answer.now) × (at + length (answer_text answer.now) ≤ length out.old) }
    ensures { Put out.old at (answer_text answer.now) out.new result }
{
    let refusal = le::get::<1>(answer, 1);
    if refusal == 0 {
        return put_done(out, at, le::get::<1>(answer, 0), le::get::<2>(answer, 2));
    }
    put_refused(out, at, refusal)
}

// A name and a number, of which something is said.
pub(super) fn put_title(out: &mut [u8], at: usize, name: &[u8], n: u64) -> usize
    requires { at + length (titled name.now n) ≤ length out.old }
    ensures { Put out.old at (titled name.now n) out.new result }
{
    let to = put_named(out, at, name, n);
    put(out, to, b": ")
}

// A record of a number, and its answer record.
pub(super) fn put_record(
    out: &mut [u8],
    at: usize,
    number: u64,
    bytes: &[u8],
    answer: &[u8],
) -> usize
    requires bytes_len_bound { (length bytes.now ≤ 16) × (4 ≤ length answer.now) }
    requires answer_in_bounds { at + length (record_line number bytes.now answer.now) ≤ length out.old }
    ensures { Put out.old at (record_line number bytes.now answer.now) out.new result }
{
    let title = put_title(out, at, b"record", number);
    let asked = put_asked(out, title, bytes);
    let to = put(out, asked, b": ");
    let end = put_answer(out, to, answer);
    put_end(out, end)
}
