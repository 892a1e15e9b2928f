// Reading from an input and writing to an output. A call that a signal interrupted, or that a non-blocking stream could not make
// yet, is made again.
#![tactic(auto)]

ghost use Rattle.std.specs.Prelude.{◌≡◌, ◌^◌, ◌≤◌, ◌<◌, length, take, true, IfOk, IfErr, OnOk, IsOk, IfSome, IfNone};
ghost use Rattle.std.specs.Io.KnownBytes.{Appends, Consumes, IsAtEnd, ReadConsumes};
ghost use Rattle.stream.specs.Stops.{number_of, passes, Stops};

use std::io;
use std::io::{ErrorKind, Read, Write};

// Numbers of errors, as the system has them: a call that was interrupted, an input or an output that failed, and a call that
// cannot be made yet.
const EINTR: u64 = 4;

const EIO: u64 = 5;

const EAGAIN: u64 = 11;

// An error by the system's number, 0 where that has none.
#[derive(Clone, Copy, Debug, PartialEq, Eq)]
pub struct Errno {
    pub number: u64,
}

// What was read before the buffer was full or the input ended, and the error that stopped it, if one did.
#[derive(Clone, Copy, Debug)]
pub struct Filled {
    pub count: usize,
    pub error: Option<Errno>,
}

// The number of an error, 0 for none.
fn number(error: i32) -> u64
    ensures number { result ≡ number_of error }
    ensures small { result < 2 ^ 31 }
{
    if error > 0 {
        return error as u64;
    }
    0
}

// The number that the system gave an error. A reader or a writer that is none of the system's may fail without one.
fn number_in(error: io::Error) -> u64
    ensures { result < 2 ^ 31 }
{
    if let Some(code) = error.raw_os_error() {
        return number(code);
    }
    match error.kind() {
        ErrorKind::Interrupted => EINTR,
        ErrorKind::WouldBlock => EAGAIN,
        _ => EIO,
    }
}

impl From<io::Error> for Errno {
    ghost from_gives = { λ _ e. e.number < 2 ^ 31 };

    fn from(error: io::Error) -> Errno {
        Errno {
            number: number_in(error),
        }
    }
}

impl Errno {
    // Of a call that cannot be made yet.
    fn not_yet() -> Errno
        ensures { Stops result }
    {
        Errno { number: EAGAIN }
    }

    // Whether a call that failed by it is to be made again.
    fn passes(self) -> bool
        ensures { result ≡ passes self.number }
    {
        self.number == 0 || self.number == EINTR || self.number == EAGAIN
    }
}

// Reads once: 0 bytes at the end of the input. A proved loop has to end: the tries are bounded by a number that no run uses up.
pub fn read<R: Read>(input: &mut R, buf: &mut [u8]) -> Result<usize, Errno>
    ensures prefix_len { IfOk result (λ n. (n ≤ length buf.new) × (n ≡ length (take n buf.new))) }
    ensures stops { IfErr result Stops }
    ensures bytes { ReadConsumes (R.remaining input.old) (R.remaining input.new) result buf.new }
{
    for _ in 0..u64::MAX {
        match input.read(buf) {
            Ok(count) => return Ok(count),
            Err(failed) => {
                let error = Errno::from(failed);
                if !error.passes() {
                    return Err(error);
                }
            }
        }
    }
    Err(Errno::not_yet())
}

// Reads until the buffer is full, the input ends or an error stops it, which may be after some bytes.
pub fn fill<R: Read>(input: &mut R, buf: &mut [u8]) -> Filled
    ensures count_in_bounds { result.count ≤ length buf.new }
    ensures stops { IfSome result.error (λ e. Stops e × (result.count < length buf.new)) }
    ensures bytes { Consumes (R.remaining input.old) (R.remaining input.new) (take result.count buf.new) }
    ensures end { IfNone result.error (result.count < length buf.new → IsAtEnd (R.remaining input.new)) }
{
    let mut done: usize = 0;
    while done < buf.len() {
        match read(input, &mut buf[done..]) {
            Ok(0) => break,
            Ok(count) => done += count,
            Err(error) => {
                return Filled {
                    count: done,
                    error: Some(error),
                };
            }
        }
    }
    Filled {
        count: done,
        error: None,
    }
}

// Writes a text out, however many calls that takes.
pub fn write<W: Write>(output: &mut W, text: &[u8]) -> Result<(), Errno>
    ensures stops { IfErr result Stops }
    ensures none { length text.now ≡ 0 → IsOk result }
    ensures bytes { OnOk result (Appends (W.contents output.old) (W.contents output.new) text.now) }
{
    let mut done: usize = 0;
    for _ in 0..u64::MAX {
        if done == text.len() {
            break;
        }
        match output.write(&text[done..]) {
            Ok(count) => done += count,
            Err(failed) => {
                let error = Errno::from(failed);
                if !error.passes() {
                    return Err(error);
                }
            }
        }
    }
    if done < text.len() {
        return Err(Errno::not_yet());
    }
    Ok(())
}
