ghost use Rattle.std.specs.Prelude.{◌≡◌, ◌<◌, ◌-◌, ◌^◌, ◌+◌, ◌*◌, min, option_and_then, true};
ghost use Rattle.std.specs.List.{list_all};
ghost use Rattle.std.specs.Char.{is_ascii_digit, is_ascii_hexdigit};
ghost use Rattle.cypher_syntax.specs.Numerals.{digit_of, value_in, is_decimal, is_hexadecimal, numeral_of, integer_of};

use crate::What;

fn all_digits(word: &[u8]) -> bool
    ensures { result ≡ list_all is_ascii_digit word.now }
{
    word.iter().all(|c| c.is_ascii_digit())
}

/// Whether there are only hexadecimal digits.
pub(super) fn all_hexadecimal(word: &[u8]) -> bool
    ensures { result ≡ list_all is_ascii_hexdigit word.now }
{
    word.iter().all(|c| c.is_ascii_hexdigit())
}

/// Whether a word is digits without a leading zero; `0` alone is.
fn is_decimal(word: &[u8]) -> bool
    ensures { result ≡ is_decimal word.now }
{
    match word {
        [] | [b'0', _, ..] => false,
        _ => all_digits(word),
    }
}

/// Whether a word is `0x` and hexadecimal digits, at least one.
fn is_hexadecimal(word: &[u8]) -> bool
    ensures { result ≡ is_hexadecimal word.now }
{
    match word {
        [_, _] => false,
        [b'0', b'x', digits @ ..] => all_hexadecimal(digits),
        _ => false,
    }
}

fn digit_of(b: u8) -> u64
    requires { is_ascii_hexdigit b ≡ true }
    ensures { result ≡ digit_of b }
{
    match b {
        ..b':' => b as u64 - 48,
        b':'..b'G' => b as u64 - 55,
        _ => b as u64 - 87,
    }
}

/// The number that digits stand for in a base, or the greatest number of 64 bits where it is no less.
pub(super) fn value_in(base: u64, digits: &[u8]) -> u64
    requires base { 0 < base }
    requires digits { list_all is_ascii_hexdigit digits.now ≡ true }
    ensures { result ≡ min (value_in base digits.now) (2 ^ 64 - 1) }
{
    let mut value: u64 = 0;
    for b in digits {
        value = value.saturating_mul(base).saturating_add(digit_of(*b));
    }
    value
}

/// The token of an integer that is spelled so, or `None` where none is, or where it is out of range.
pub(super) fn integer(word: &[u8]) -> Option<What>
    ensures { result ≡ option_and_then integer_of (numeral_of word.now) }
{
    if is_hexadecimal(word) {
        ranged(value_in(16, &word[2..]))
    } else if is_decimal(word) {
        ranged(value_in(10, word))
    } else {
        None
    }
}

/// The token of a number.
fn ranged(n: u64) -> Option<What>
    ensures { result ≡ integer_of n }
{
    if n < 1 << 63 {
        Some(What::Int(n as i64))
    } else if n == 1 << 63 {
        Some(What::IntMin)
    } else {
        None
    }
}
