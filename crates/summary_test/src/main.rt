// The summary of made-up answers: some of their numbers no trace of a test reaches.
#![tactic(auto)]

use print::put_end;
use refusals::{LARGEST, put_meaning};
use std::io;
use std::io::Write;
use transcript::piece::ROOM_BYTES;
use transcript::summary::{Tally, put_summary};

// Two records done, and one refused with each number named.
fn tally() -> Tally {
    Tally::new()
        .with(0)
        .with(0)
        .with(12)
        .with(30)
        .with(31)
        .with(32)
        .with(35)
        .with(LARGEST as u64)
}

// The summary, and what is said of the number above the largest, which has no meaning of its own.
fn main(rt: HostRuntime) -> io::Result<()> {
    let mut out = [0u8; ROOM_BYTES];
    let rows = put_summary(&mut out, tally());
    let above = put_meaning(&mut out, rows, LARGEST as u64 + 1);
    let end = put_end(&mut out, above);
    rt.stdout().write_all(&out[..end])
}
