// A part of the memory, printed.
ghost use Rattle.std.specs.Prelude.{◌≤◌, length, get_or};
ghost use Rattle.parse.specs.Line.{most_bytes};
ghost use Rattle.language.specs.declared.command.Command.TheVariants as K;
ghost use Rattle.language.specs.Vocabulary.{form};
ghost use Rattle.language.specs.Commands.{peeked};
ghost use Rattle.stateless.specs.Leaving.{Narrow, Printed, answer_bytes};

use crate::place::part_of;
use crate::speak::{Answered, say, say_bad};
use language::sizes::NUMBERS;

// The bytes of a part of the memory.
pub fn peek(memory: &[u8], a: &[u64; NUMBERS], word: &[u8], number: u64, out: &mut [u8]) -> Answered
    requires { Narrow (form K.Peek).largest 0 a.now × (length word.now ≤ most_bytes) × (answer_bytes ≤ length out.old) }
    ensures { Printed (peeked memory.now (get_or a.now 0 0) (get_or a.now 1 0))
        word.now number out.old out.new (length memory.now) result }
{
    let Some((from, to)) = part_of(memory, a[0], a[1]) else {
        return say_bad(out, number, memory.len());
    };
    say(out, word, 0, &[], &memory[from..to], memory.len())
}
