// The words after a command: numbers, each up to a largest value, and bytes.
ghost use Rattle.std.specs.Prelude.{◌+◌, ◌*◌, ◌≤◌, length, drop};
ghost use Rattle.parse.specs.Line.{words_of};
ghost use Rattle.parse.specs.Values.{numbers_in, Stored};
ghost use Rattle.parse.specs.Arguments.{arguments_in, Fixed, Read};

use crate::bytes::store;
use crate::line::next_word;
use crate::number::value_up_to;

// What may stand behind the fixed numbers: no word; any number of numbers up to a largest; or words of bytes.
#[derive(Clone, Copy)]
pub enum Rest {
    Nothing,
    Numbers(u64),
    Bytes,
}

// How many numbers and bytes were read.
#[derive(Clone, Copy)]
pub struct Arguments {
    pub numbers: usize,
    pub bytes: usize,
}

// Stores a number for each largest value, from the word at `at` on; answers the place after the last word in the line where none is bad
// or missing, and else how many are stored.
fn store_fixed(line: &[u8], at: usize, largest: &[u64], numbers: &mut [u64]) -> Result<usize, usize>
    requires { (at ≤ length line.now) × (length largest.now ≤ length numbers.old) }
    ensures { Fixed largest.now line.now at numbers.old numbers.new result }
{
    let mut from = at;
    for i in 0..largest.len() {
        let w = next_word(line, from);
        let start = w.start;
        let end = w.end;
        if start == end {
            return Err(i);
        }
        let n = value_up_to(&line[start..end], largest[i]).ok_or(i)?;
        numbers[i] = n;
        from = end;
    }
    Ok(from)
}

// Stores the numbers of all words from `at` on behind the first `count`, each up to a largest value; answers how many there are then, and
// by `Err` where a word is bad.
fn store_numbers(
    line: &[u8],
    at: usize,
    largest: u64,
    numbers: &mut [u64],
    count: usize,
) -> Result<usize, usize>
    requires { (at ≤ length line.now) × (count + length (words_of (drop at line.now)) ≤ length numbers.old) }
    ensures { Stored (numbers_in largest (words_of (drop at line.now))) numbers.old count numbers.new result }
{
    let mut end = count;
    let mut from = at;
    loop {
        let w = next_word(line, from);
        let start = w.start;
        let stop = w.end;
        if start == stop {
            return Ok(end);
        }
        let n = value_up_to(&line[start..stop], largest).ok_or(end)?;
        numbers[end] = n;
        end += 1;
        from = stop;
    }
}

// Reads the words of a line from `at` on: a number for each largest value, and what may stand behind them. Numbers and bytes are stored
// from the start of their buffers on, up to the first word that is bad. Answers how many there are, and by `Err` where a word is bad,
// missing or left.
pub fn read(
    line: &[u8],
    at: usize,
    largest: &[u64],
    rest: Rest,
    numbers: &mut [u64],
    bytes: &mut [u8],
) -> Result<Arguments, Arguments>
    requires { (at ≤ length line.now) × (length largest.now ≤ length numbers.old) × (length line.now ≤ 2 * length numbers.old)
        × (length line.now ≤ 2 * length bytes.old) }
    ensures { Read (arguments_in largest.now rest (words_of (drop at line.now))) result
        numbers.old numbers.new bytes.old bytes.new }
{
    let end = match store_fixed(line, at, largest, numbers) {
        Ok(end) => end,
        Err(stored) => {
            return Err(Arguments {
                numbers: stored,
                bytes: 0,
            });
        }
    };
    let count = largest.len();
    match rest {
        Rest::Nothing => {
            let stored = Arguments {
                numbers: count,
                bytes: 0,
            };
            let w = next_word(line, end);
            if w.start != w.end {
                return Err(stored);
            }
            Ok(stored)
        }
        Rest::Numbers(most) => match store_numbers(line, end, most, numbers, count) {
            Ok(all) => Ok(Arguments {
                numbers: all,
                bytes: 0,
            }),
            Err(stored) => Err(Arguments {
                numbers: stored,
                bytes: 0,
            }),
        },
        Rest::Bytes => match store(line, end, bytes) {
            Ok(all) => Ok(Arguments {
                numbers: count,
                bytes: all,
            }),
            Err(stored) => Err(Arguments {
                numbers: count,
                bytes: stored,
            }),
        },
    }
}
