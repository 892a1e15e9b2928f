// Words with numbers.
ghost use Rattle.std.specs.Prelude.{◌+◌, ◌≤◌, length};
ghost use Rattle.print.specs.Put.{Put};
ghost use Rattle.refusals.specs.Named.{named, pair};

use print::{put, put_next};

// A text, a space and a number.
pub fn put_named(out: &mut [u8], at: usize, name: &[u8], n: u64) -> usize
    requires { at + length (named name.now n) ≤ length out.old }
    ensures { Put out.old at (named name.now n) out.new result }
{
    let to = put(out, at, name);
    put_next(out, to, n)
}

// Two of them.
pub fn put_pair(out: &mut [u8], at: usize, a: &[u8], x: u64, b: &[u8], y: u64) -> usize
    requires { at + length (pair a.now x b.now y) ≤ length out.old }
    ensures { Put out.old at (pair a.now x b.now y) out.new result }
{
    let to = put_named(out, at, a, x);
    put_named(out, to, b, y)
}
