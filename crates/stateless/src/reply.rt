// What a command says behind its word, where that is a few numbers.
ghost use Rattle.std.specs.Prelude.{◌≡◌, min, take, length};
ghost use Rattle.rules.specs.Refusal.{number};
ghost use Rattle.language.specs.Replies as s;
ghost use Rattle.stateless.specs.Leaving.{Says, told_reply, changed_reply, refusal_reply};

use rules::refusal::Refusal;

// The first `count` of the numbers, and the number by which a change that was asked for was refused, 0 for none: any number may be said.
#[derive(Clone, Copy)]
pub struct Reply {
    pub refusal: u64,
    pub count: usize,
    pub numbers: [u64; 16],
}

// The refusal of a change, 0 for none, and zeros behind it that make so many numbers.
pub fn changed(refusal: u64, count: usize) -> Reply
    ensures { result ≡ changed_reply refusal count }
{
    let mut numbers = [0u64; 16];
    numbers[0] = refusal;
    Reply {
        refusal,
        count,
        numbers,
    }
}

// A number by which no change was refused, and zeros behind it that make so many numbers.
pub(crate) fn told_number(refusal: u64, count: usize) -> Reply
    ensures { result ≡ refusal_reply refusal count }
{
    let mut numbers = [0u64; 16];
    numbers[0] = refusal;
    Reply {
        refusal: 0,
        count,
        numbers,
    }
}

// A refusal by which no change was refused: its number, told so.
pub fn told_refusal(refusal: Refusal, count: usize) -> Reply
    ensures { result ≡ refusal_reply (number refusal) count }
{
    told_number(refusal.number(), count)
}

// Numbers, as they are, and zeros behind them; of more than 16 the first 16.
pub fn told(said: &[u64]) -> Reply
    ensures whole { result ≡ told_reply said.now }
    ensures says { Says (s.told (take (min (length said.now) 16) said.now)) result }
{
    let mut numbers = [0u64; 16];
    let count = said.len().min(16);
    numbers[..count].copy_from_slice(&said[..count]);
    Reply {
        refusal: 0,
        count,
        numbers,
    }
}

#[cfg(test)]
mod tests {
    use super::*;

    // 11 is the papers' number of a marked queue.
    #[test]
    fn tells_a_refusal() -> Result<(), &'static str> {
        let mut numbers = [0u64; 16];
        numbers[0] = 11;
        for count in [0, 1, 8, 17] {
            let told = told_refusal(Refusal::QueueMarked, count);
            let said = told.numbers;
            if (told.refusal, told.count, said) != (0, count, numbers) {
                return Err("its number, zeros behind it, and no change refused");
            }
        }
        Ok(())
    }
}
