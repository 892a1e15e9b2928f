// Bytes as a line writes them: words of hexadecimal digits, two for each byte.
ghost use Rattle.std.specs.Prelude.{◌≡◌, ◌+◌, ◌*◌, ◌≤◌, length, drop};
ghost use Rattle.parse.specs.Line.{words_of};
ghost use Rattle.parse.specs.Values.{byte_of, bytes_of, bytes_in, Stored};

use crate::line::next_word;

// The byte that two digits write.
fn byte_of(high: u8, low: u8) -> Option<u8>
    ensures { result ≡ byte_of high low }
{
    let h = (high as char).to_digit(16)?;
    let l = (low as char).to_digit(16)?;
    Some((16 * h + l) as u8)
}

// Stores the bytes of a word, from a place on; answers the place after them, and by `Err` where one is bad.
fn store_word(out: &mut [u8], at: usize, word: &[u8]) -> Result<usize, usize>
    requires { 2 * at + length word.now ≤ 2 * length out.old }
    ensures { Stored (bytes_of word.now) out.old at out.new result }
{
    let mut end = at;
    let mut rest = word;
    while let [high, low, after @ ..] = rest {
        let b = byte_of(*high, *low).ok_or(end)?;
        out[end] = b;
        end += 1;
        rest = after;
    }
    if rest.len() != 0 {
        return Err(end);
    }
    Ok(end)
}

// Stores the bytes of all words of a line from `at` on, one behind the other; answers the place after them, and by `Err` where a word is
// bad.
pub(crate) fn store(line: &[u8], at: usize, out: &mut [u8]) -> Result<usize, usize>
    requires { (at ≤ length line.now) × (length line.now ≤ 2 * length out.old) }
    ensures { Stored (bytes_in (words_of (drop at line.now))) out.old 0 out.new result }
{
    let mut end: usize = 0;
    let mut from = at;
    loop {
        let w = next_word(line, from);
        let start = w.start;
        let stop = w.end;
        if start == stop {
            return Ok(end);
        }
        end = store_word(out, end, &line[start..stop])?;
        from = stop;
    }
}
