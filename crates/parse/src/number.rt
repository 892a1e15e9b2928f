// Numbers as a line writes them.
ghost use Rattle.std.specs.Prelude.{◌≡◌, ◌≤◌};
ghost use Rattle.parse.specs.Numeral.{number_on, is_hex, number_in, up_to};

// The number that digits of a base write, where it is below 2^64.
fn digits(word: &[u8], base: u32) -> Option<u64>
    requires { (2 ≤ base) × (base ≤ 16) }
    ensures { result ≡ number_on base 0 word.now }
{
    let mut value: u64 = 0;
    for b in word {
        let digit = (*b as char).to_digit(base)?;
        let shifted = value.checked_mul(base as u64)?;
        value = shifted.checked_add(digit as u64)?;
    }
    Some(value)
}

fn is_hex(word: &[u8]) -> bool
    ensures { result ≡ is_hex word.now }
{
    if word.len() < 3 {
        return false;
    }
    (word[0] == b'0') & (word[1] == b'x')
}

// The number that a word writes: decimal digits, or 0x and hexadecimal digits.
pub fn value_of(word: &[u8]) -> Option<u64>
    ensures { result ≡ number_in word.now }
{
    if word.len() == 0 {
        return None;
    }
    if is_hex(word) {
        return digits(&word[2..], 16);
    }
    digits(word, 10)
}

// The same, where it is not above a largest.
pub fn value_up_to(word: &[u8], largest: u64) -> Option<u64>
    ensures { result ≡ up_to largest (number_in word.now) }
{
    let n = value_of(word)?;
    if largest < n {
        return None;
    }
    Some(n)
}
