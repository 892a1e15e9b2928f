// A line of the set-up whose call was refused.
ghost use Rattle.std.specs.Prelude.{◌+◌, ◌≤◌, length};
ghost use Rattle.print.specs.Put.{Put};
ghost use Rattle.transcript.specs.Setup.{setup_line};

use crate::record::put_title;
use print::{put, put_end};
use refusals::put_refused;

// The line's number, its command's word and the refusal.
pub fn put_setup_line(out: &mut [u8], at: usize, number: u64, word: &[u8], refusal: u64) -> usize
    requires { at + length (setup_line number word.now refusal) ≤ length out.old }
    ensures { Put out.old at (setup_line number word.now refusal) out.new result }
{
    let title = put_title(out, at, b"setup line", number);
    let after = put(out, title, word);
    let to = put(out, after, b": ");
    let end = put_refused(out, to, refusal);
    put_end(out, end)
}
