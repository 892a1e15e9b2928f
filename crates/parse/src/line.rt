// A line and its words.
ghost use Rattle.std.specs.Prelude.{ℕ, Bool, ◌≡◌, ◌+◌, ◌≤◌, length, drop};
ghost use Rattle.parse.specs.Line.{is_blank, in_word, lead, before, NextWord, without_cr, same};

// The longest line, without its LF.
pub const MOST_BYTES: usize = 4096;

// Where a word stands in a line; it is empty where there is no word left. No Option: who reads on needs `end` then too, and the clause
// NextWord tells it.
#[derive(Clone, Copy)]
pub struct Word {
    pub start: usize,
    pub end: usize,
}

fn is_blank(b: u8) -> bool
    ensures { result ≡ is_blank b }
{
    (b == b' ') | (b == b'\t')
}

fn is_in_word(b: u8) -> bool
    ensures { result ≡ in_word b }
{
    !is_blank(b) & (b != b'#')
}

// The place of the first byte of a text, from `at` on, that does not pass a test; the text's end where each of them does.
fn past<F: Fn(u8) -> bool>(text: &[u8], at: usize, passes: F) -> usize
    requires inside { at ≤ length text.now }
    requires test { F.IsAlwaysCallable passes }
    ensures value { (p : ℕ → Bool) → ((b : ℕ) (t : Bool) → F.post passes b t → t ≡ p b) → result ≡ at + lead p (drop at text.now) }
    ensures within { result ≤ length text.now }
{
    for i in at..text.len() {
        if !passes(text[i]) {
            return i;
        }
    }
    text.len()
}

// The next word of a line, from `at` on.
pub fn next_word(line: &[u8], at: usize) -> Word
    requires { at ≤ length line.now }
    ensures { NextWord line.now at result.start result.end }
{
    let start = past(line, at, is_blank);
    Word {
        start: start,
        end: past(line, start, is_in_word),
    }
}

// The place of the next byte `b` of a text, from `at` on; the text's end where there is none.
pub fn find(text: &[u8], at: usize, b: u8) -> usize
    requires { at ≤ length text.now }
    ensures { (result ≡ at + before b (drop at text.now)) × (result ≤ length text.now) }
{
    past(text, at, |x| x != b)
}

// How many bytes of a line that ended in LF count: not the one CR that may stand before it.
pub fn without_cr(line: &[u8]) -> usize
    ensures { result ≡ without_cr line.now }
{
    let n = line.len();
    if n == 0 {
        return 0;
    }
    if MOST_BYTES < n {
        return n;
    }
    if line[n - 1] != b'\r' {
        return n;
    }
    n - 1
}

// Whether two texts are the same. A name for `==`, which docs/MAP.md has.
pub fn is_same(a: &[u8], b: &[u8]) -> bool
    ensures { result ≡ same a.now b.now }
{
    a == b
}
