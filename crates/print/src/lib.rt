// Texts, written into a buffer that is lent. Each function writes its text from `at` on, leaves every other byte as it was, asks for
// exactly the room of the text and answers the place after it. No `Display`: the clause of each, `Put`, tells every byte that is left.
#![tactic(auto)]

ghost use Rattle.std.specs.Prelude.{◌≡◌, ◌∷◌, [], ◌+◌, ◌/◌, ◌%◌, ◌≤◌, ◌<◌, length};
ghost use Rattle.print.specs.Text.{decimal_in, decimal, next, numbers, hex_digit, hex_byte, hex, hex_word, line_end, bad_line};
ghost use Rattle.print.specs.Put.{Put};

// One byte.
pub fn put_one(out: &mut [u8], at: usize, b: u8) -> usize
    requires { at + 1 ≤ length out.old }
    ensures { Put out.old at (b ∷ []) out.new result }
{
    out[at] = b;
    at + 1
}

// A text that is given.
pub fn put(out: &mut [u8], at: usize, text: &[u8]) -> usize
    requires { at + length text.now ≤ length out.old }
    ensures { Put out.old at text.now out.new result }
{
    let end = at + text.len();
    out[at..end].copy_from_slice(text);
    end
}

// The last digits of a number in decimal, at most so many.
fn put_digits(out: &mut [u8], at: usize, n: u64, most: usize) -> usize
    requires { at + length (decimal_in most n) ≤ length out.old }
    ensures { Put out.old at (decimal_in most n) out.new result }
{
    if most == 0 {
        return at;
    }
    if n < 10 {
        return put_one(out, at, b'0' + n as u8);
    }
    let to = put_digits(out, at, n / 10, most - 1);
    put_one(out, to, b'0' + (n % 10) as u8)
}

// A number in decimal.
pub fn put_number(out: &mut [u8], at: usize, n: u64) -> usize
    requires { at + length (decimal n) ≤ length out.old }
    ensures { Put out.old at (decimal n) out.new result }
{
    put_digits(out, at, n, 20)
}

// A space and a number.
pub fn put_next(out: &mut [u8], at: usize, n: u64) -> usize
    requires { at + length (next n) ≤ length out.old }
    ensures { Put out.old at (next n) out.new result }
{
    let to = put_one(out, at, b' ');
    put_number(out, to, n)
}

// Numbers, a space before each.
pub fn put_numbers(out: &mut [u8], at: usize, values: &[u64]) -> usize
    requires { at + length (numbers values.now) ≤ length out.old }
    ensures { Put out.old at (numbers values.now) out.new result }
{
    let mut to = at;
    for value in values {
        to = put_next(out, to, *value);
    }
    to
}

const HEX: [u8; 16] = [
    b'0', b'1', b'2', b'3', b'4', b'5', b'6', b'7', b'8', b'9', b'a', b'b', b'c', b'd', b'e', b'f',
];

fn hex_digit(n: u8) -> u8
    requires { n < 16 }
    ensures { result ≡ hex_digit n }
{
    let i = n as usize;
    HEX[i]
}

fn put_hex_byte(out: &mut [u8], at: usize, b: u8) -> usize
    requires { at + 2 ≤ length out.old }
    ensures { Put out.old at (hex_byte b) out.new result }
{
    let to = put_one(out, at, hex_digit(b / 16));
    put_one(out, to, hex_digit(b % 16))
}

// Bytes in hexadecimal, two digits each. Kept apart from `put_numbers`: one for both would be longer than the two.
pub fn put_hex(out: &mut [u8], at: usize, bytes: &[u8]) -> usize
    requires { at + length (hex bytes.now) ≤ length out.old }
    ensures { Put out.old at (hex bytes.now) out.new result }
{
    let mut to = at;
    for byte in bytes {
        to = put_hex_byte(out, to, *byte);
    }
    to
}

// A space and bytes in hexadecimal; nothing where there are none.
pub fn put_hex_word(out: &mut [u8], at: usize, bytes: &[u8]) -> usize
    requires { at + length (hex_word bytes.now) ≤ length out.old }
    ensures { Put out.old at (hex_word bytes.now) out.new result }
{
    if bytes.len() == 0 {
        return at;
    }
    let to = put_one(out, at, b' ');
    put_hex(out, to, bytes)
}

// The end of a line.
pub fn put_end(out: &mut [u8], at: usize) -> usize
    requires { at + 1 ≤ length out.old }
    ensures { Put out.old at line_end out.new result }
{
    put_one(out, at, b'\n')
}

// The answer to a bad line, given its number.
pub fn put_bad(out: &mut [u8], at: usize, number: u64) -> usize
    requires { at + length (bad_line number) ≤ length out.old }
    ensures { Put out.old at (bad_line number) out.new result }
{
    let mark = put_one(out, at, b'?');
    let to = put_next(out, mark, number);
    put_end(out, to)
}
