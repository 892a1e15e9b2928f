// What is said on standard error.
ghost use Rattle.std.specs.Prelude.{◌≤◌, length};

use std::fmt::Display;
use std::io::{Cursor, Error, Write};
use stream::Errno;

// The room for the system's words for an error, and for its number behind them.
const REASON_BYTES: usize = 320;

// How many bytes stand before the last `(`, and the space before it, by which std sets an error's number off.
fn without_number(text: &[u8]) -> usize
    ensures { result ≤ length text.now }
{
    match text.iter().rposition(|byte| *byte == b'(') {
        Some(i) if i > 0 => i - 1,
        _ => text.len(),
    }
}

// Of a call that failed: what it was, and the system's words for the reason.
fn say(rt: &impl Eprint, what: impl Display + Drop, error: Error) {
    let mut text = [0u8; REASON_BYTES];
    let mut room = Cursor::new(&mut text[..]);
    let _ = write!(room, "{error}");
    let written = room.position().min(REASON_BYTES as u64) as usize;
    let n = without_number(&text[..written]);
    if let Ok(reason) = std::str::from_utf8(&text[..n]) {
        let _ = eprintln!(rt; "{what}: {reason}");
    }
}

// Of a file that cannot be opened.
pub(super) fn say_path(rt: &impl Eprint, path: &str, error: Error) {
    say(rt, format_args!("playback: {path}"), error);
}

// Of a path that cannot be taken from the arguments.
pub(super) fn say_argument(rt: &impl Eprint, error: Error) {
    say(rt, "playback: path", error);
}

// Of a read or a write that failed: what it was, the line or the record that it failed at, and the error.
pub(super) fn say_at(rt: &impl Eprint, what: &str, number: u64, error: Errno) {
    let code = i32::try_from(error.number).unwrap_or(i32::MAX);
    say(
        rt,
        format_args!("{what} {number}"),
        Error::from_raw_os_error(code),
    );
}

// Of a bad line of the set-up.
pub(super) fn say_bad(rt: &impl Eprint, line: u64) {
    let _ = eprintln!(rt; "playback: setup, line {line}: a bad line; nothing is replayed");
}
