// The forms in which the answer to a line is shown. The line is put first, then the answer is written where it is to stand, and then what
// stands beside it is put. Each function that puts asks for exactly the room of its text and answers the place after it.
#![tactic(auto)]

ghost use Rattle.std.specs.Prelude.{◌≡◌, ◌+◌, ◌-◌, ◌≤◌, length, take, drop};
ghost use Rattle.print.specs.Put.{Put};
ghost use Rattle.form.specs.Shown.{mark, above, wanted, verdict, compared, standing, aside};

use parse::line::{find, is_same};
use print::{put, put_end};

// An answer alone; beside what is wanted, the text behind the `#` of its line; or under its line, which is repeated.
#[derive(Clone, Copy)]
pub enum Form {
    Alone,
    Beside,
    Under,
}

// The line, where its answer stands under it.
pub fn put_line(form: Form, line: &[u8], out: &mut [u8], at: usize) -> usize
    requires { at + length (above form line.now) ≤ length out.old }
    ensures { Put out.old at (above form line.now) out.new result }
{
    match form {
        Form::Alone => at,
        Form::Beside => at,
        Form::Under => {
            let to = put(out, at, line);
            put_end(out, to)
        }
    }
}

// How far behind the place given to `put_aside` the answer is to be written: the room of its mark.
pub fn indent(form: Form) -> usize
    ensures { result ≡ length (mark form) }
{
    match form {
        Form::Alone => 0,
        Form::Beside => 0,
        Form::Under => 3,
    }
}

// The place where the wanted text begins; the line's end where there is none.
fn wanted_at(line: &[u8]) -> usize
    ensures { (result ≤ length line.now) × (drop result line.now ≡ wanted line.now) }
{
    let comment = find(line, 0, b'#');
    if line.len() - comment < 2 {
        return line.len();
    }
    comment + 2
}

fn put_verdict(out: &mut [u8], at: usize, same: bool) -> usize
    requires { at + length (verdict same) ≤ length out.old }
    ensures { Put out.old at (verdict same) out.new result }
{
    if same {
        return put(out, at, b" | same\n");
    }
    put(out, at, b" | DIFFERS\n")
}

// What is wanted, behind what was said, which stands from `at` to `end`.
fn put_wanted(line: &[u8], out: &mut [u8], at: usize, end: usize) -> usize
    requires { (at ≤ end) × (end ≤ length out.old)
        × (at + length (compared (take (end - at) (drop at out.old)) (wanted line.now)) ≤ length out.old) }
    ensures { Put out.old at (compared (take (end - at) (drop at out.old)) (wanted line.now))
        out.new result }
{
    let from = wanted_at(line);
    let same = is_same(&out[at..end], &line[from..]);
    let bar = put(out, end, b" | wanted ");
    let to = put(out, bar, &line[from..]);
    put_verdict(out, to, same)
}

// What is shown of an answer of `n` bytes, none where the line wants none, which stands behind the room of its mark.
pub fn put_aside(form: Form, line: &[u8], out: &mut [u8], at: usize, n: usize) -> usize
    requires { (at + length (mark form) + n ≤ length out.old)
        × (at + length (aside form line.now (standing form out.old at n)) ≤ length out.old) }
    ensures { Put out.old at (aside form line.now (standing form out.old at n))
        out.new result }
{
    if n == 0 {
        return at;
    }
    match form {
        Form::Alone => at + n,
        Form::Beside => put_wanted(line, out, at, at + n - 1),
        Form::Under => put(out, at, b"-> ") + n,
    }
}
