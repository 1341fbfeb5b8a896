//! The parts of lines, scripts and requests: cutting a text at a byte, and decimal numbers.

ghost use Rattle.std.specs.Prelude.{◌≡◌, option_map};
ghost use Rattle.std.specs.Char.{is_ascii_digit};
ghost use Rattle.std.specs.List.{list_all};
ghost use Rattle.rr_text.specs.Text.{cut_at, is_digits, unsigned, number_at, integer_at};
ghost use Rattle.rr_text.specs.Digits.{with_digit};

use crate::bytes::{MINUS, begins};
use memchr::memchr;

/// The bytes before the first `delimiter`, and those after it. The cost is linear in the former.
pub fn cut(delimiter: u8, text: &[u8]) -> Option<(&[u8], &[u8])>
    ensures { option_map (λ parts. (parts.0.now, parts.1.now)) result ≡ cut_at delimiter text.now }
{
    match memchr(delimiter, text) {
        Some(at) => Some((&text[..at], &text[at + 1..])),
        None => None,
    }
}

/// Whether the text is one or more decimal digits.
pub fn is_digits(text: &[u8]) -> bool
    ensures { result ≡ is_digits text.now }
{
    !text.is_empty() && has_only_digits(text)
}

fn has_only_digits(text: &[u8]) -> bool
    ensures { result ≡ list_all is_ascii_digit text.now }
{
    text.iter().all(|byte| byte.is_ascii_digit())
}

/// The number that decimal digits write, leading zeros allowed, if it fits in `u64`. One pass.
pub fn number(text: &[u8]) -> Option<u64>
    ensures { result ≡ number_at text.now }
{
    if text.is_empty() {
        return None;
    }
    let mut number = 0;
    let mut left = text;
    while let [digit, rest @ ..] = left {
        number = with_digit(number, *digit)?;
        left = rest;
    }
    Some(number)
}

/// A number below this one fits in `u64` with any digit after it.
const FITS_A_DIGIT: u64 = u64::MAX / 10;

/// The number with one more digit, if the byte is a digit and the result fits in `u64`.
fn with_digit(number: u64, digit: u8) -> Option<u64>
    ensures { result ≡ with_digit number digit }
{
    if !digit.is_ascii_digit() {
        return None;
    }
    let value = u64::from(digit - b'0');
    if number < FITS_A_DIGIT {
        return Some(number * 10 + value);
    }
    number.checked_mul(10)?.checked_add(value)
}

/// The number that decimal digits after an optional minus write, if it fits in `i64`. One pass.
pub fn integer(text: &[u8]) -> Option<i64>
    ensures { result ≡ integer_at text.now }
{
    let size = number(unsigned(text))?;
    if begins(MINUS, text) {
        0i64.checked_sub_unsigned(size)
    } else {
        i64::try_from(size).ok()
    }
}

/// The text without a leading minus.
pub fn unsigned(text: &[u8]) -> &[u8]
    ensures { result.now ≡ unsigned text.now }
{
    match text {
        [MINUS, digits @ ..] => digits,
        _ => text,
    }
}
