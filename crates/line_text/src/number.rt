ghost use Rattle.std.specs.Prelude.{◌≡◌, ◌<◌, ◌≤◌, ◌+◌, ◌-◌, ◌*◌, ◌^◌, IfSome, IfNone};
ghost use Rattle.line_text.specs.Number.{decimal_of, number_of, number_in};

/// The number from `least` to `most` that a word is. None comes exactly where the word is no such
/// number: a number is one or more decimal digits, with no zero in front of others. A word of any
/// length is read, and no value wraps.
pub fn read_number(word: &[u8], least: u64, most: u64) -> Option<u64>
    ensures { result ≡ number_in word.now least most }
{
    let number = number(word)?;
    if least <= number && number <= most {
        Some(number)
    } else {
        None
    }
}

fn number(word: &[u8]) -> Option<u64>
    ensures { result ≡ number_of word.now }
{
    match word {
        [] | [b'0', _, ..] => None,
        digits => decimal(digits),
    }
}

fn decimal(digits: &[u8]) -> Option<u64>
    ensures { result ≡ decimal_of digits.now }
{
    let mut value: u64 = 0;
    for digit in digits {
        if !digit.is_ascii_digit() {
            return None;
        }
        value = with_digit(value, *digit)?;
    }
    Some(value)
}

/// The number with one digit more at its end, if it fits.
fn with_digit(number: u64, digit: u8) -> Option<u64>
    requires { 48 ≤ digit }
    ensures some { IfSome result (λ more. more ≡ number * 10 + (digit - 48)) }
    ensures fits { IfSome result (λ more. more < 2 ^ 64) }
    ensures none { IfNone result (2 ^ 64 ≤ number * 10 + (digit - 48)) }
{
    number.checked_mul(10)?.checked_add(u64::from(digit - b'0'))
}
