// The words of the commands.
ghost use Rattle.std.specs.Prelude.{◌≡◌};
ghost use Rattle.language.specs.Vocabulary as v;

use crate::command::{Call, Command, Look, OnPart};
use parse::line::is_same;

// The word of each command.
const WORDS: [(&str, Command); 27] = [
    ("tail", Command::Call(Call::Tail)),
    ("head", Command::Call(Call::Head)),
    ("start", Command::Call(Call::Start)),
    ("finish", Command::Call(Call::Finish)),
    ("replay", Command::Replay),
    ("poke", Command::Poke),
    ("poke64", Command::Poke64),
    ("fill", Command::OnPart(OnPart::Fill)),
    ("peek", Command::Peek),
    ("write-sqe", Command::OnPart(OnPart::WriteSqe)),
    ("read-sqe", Command::OnPart(OnPart::ReadSqe)),
    ("write-cqe", Command::OnPart(OnPart::WriteCqe)),
    ("read-cqe", Command::OnPart(OnPart::ReadCqe)),
    ("waiting", Command::OnPart(OnPart::Waiting)),
    ("check-tail", Command::Look(Look::CheckTail)),
    ("check-head", Command::Look(Look::CheckHead)),
    ("walk", Command::Walk),
    ("show-sq", Command::Look(Look::ShowSq)),
    ("show-cq", Command::Look(Look::ShowCq)),
    ("show-tag", Command::Look(Look::ShowTag)),
    ("show-arbiter", Command::Look(Look::ShowArbiter)),
    ("create-cq", Command::Call(Call::CreateCq)),
    ("create-sq", Command::Call(Call::CreateSq)),
    ("delete-cq", Command::Call(Call::DeleteCq)),
    ("delete-sq", Command::Call(Call::DeleteSq)),
    ("controller", Command::Call(Call::Controller)),
    ("lend", Command::Lend),
];

// The command that a word names.
pub fn command_of(word: &[u8]) -> Option<Command>
    ensures { result ≡ v.named word.now }
{
    for row in WORDS.iter() {
        if is_same(word, row.0.as_bytes()) {
            return Some(row.1);
        }
    }
    None
}
