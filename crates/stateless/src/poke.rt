// Values put into the memory.
ghost use Rattle.std.specs.Prelude.{◌≡◌, ◌+◌, ◌*◌, ◌≤◌, ◌<◌, length, IfSome};
ghost use Rattle.le.specs.Le.{le};
ghost use Rattle.controller.specs.Controller.{Controller};
ghost use Rattle.print.specs.Text.{each};
ghost use Rattle.print.specs.Put.{Put};
ghost use Rattle.language.specs.Replies as s;
ghost use Rattle.language.specs.Commands.{poked};
ghost use Rattle.stateless.specs.Leaving.{heard_or_bad};

use crate::reply::{Reply, told};

// One value of so many bytes.
fn put_value(memory: &mut [u8], at: usize, n: u64, width: usize) -> usize
    requires { at + width ≤ length memory.old }
    ensures { Put memory.old at (le width n) memory.new result }
{
    let mut rest = n;
    for i in 0..width {
        le::put::<1>(memory, at + i, rest);
        rest /= 256;
    }
    at + width
}

// Values of so many bytes each, one behind the other.
fn put_values(memory: &mut [u8], at: usize, values: &[u64], width: usize) -> usize
    requires { at + length (each (le width) values.now) ≤ length memory.old }
    ensures { Put memory.old at (each (le width) values.now) memory.new result }
{
    let mut to = at;
    for value in values {
        to = put_value(memory, to, *value, width);
    }
    to
}

// None where the line is a bad one.
pub fn poke(memory: &mut [u8], place: u64, values: &[u64], width: usize) -> Option<Reply>
    requires { 0 < width }
    ensures { ((c : Controller) → s.reply (heard_or_bad result) c memory.new
        ≡ poked c memory.old width place values.now) × IfSome result (λ r. r.count ≤ 16) }
{
    let n = memory.len() as u64;
    if n < place {
        return None;
    }
    let at = place as usize;
    if (memory.len() - at) / width < values.len() {
        return None;
    }
    put_values(memory, at, values, width);
    Some(told(&[values.len() as u64]))
}
