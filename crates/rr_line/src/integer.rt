//! Integer values, each read in one pass.

ghost use Rattle.std.specs.Prelude.{◌≡◌, IfSome, Some};
ghost use Rattle.std.specs.Bool.{OnTrue};
ghost use Rattle.rr_text.specs.Text.{unsigned, number_at, integer_at};
ghost use Rattle.rr_line.specs.Integer.{IsNumber, IsDigit};
ghost use Rattle.rr_line.specs.Value.{IsValue, EndsValue};

use crate::mark::INTEGER_MARK;
use rr_text::bytes::{COMMA, MINUS, SPACE, begins, strip};
use rr_text::text::unsigned;

/// The integer at the beginning, with its mark, and what follows it; `None` if `read_value` refuses
/// it.
pub(crate) fn read_integer(text: &[u8]) -> Option<(i64, &[u8])>
    ensures { IfSome result (λ value. IsValue text.now value.0 value.1.now) }
{
    let (size, marked) = read_number(unsigned(text))?;
    let rest = strip(INTEGER_MARK, marked)?;
    if !ends_value(rest) {
        return None;
    }
    let digits = &text[..text.len() - marked.len()];
    let number = with_sign(digits, size)?;
    Some((number, rest))
}

/// The number that the leading digits write, and what follows them.
fn read_number(text: &[u8]) -> Option<(u64, &[u8])>
    ensures { IfSome result (λ number. IsNumber text.now number.0 number.1.now) }
{
    let mut number = 0u64;
    let mut left = text;
    while let Some((digit, rest)) = first_digit(left) {
        number = number.checked_mul(10)?.checked_add(digit)?;
        left = rest;
    }
    if left.len() == text.len() {
        return None;
    }
    Some((number, left))
}

/// The value of the leading digit, and what follows it.
fn first_digit(text: &[u8]) -> Option<(u64, &[u8])>
    ensures { IfSome result (λ digit. IsDigit text.now digit.0 digit.1.now) }
{
    match text {
        [byte, rest @ ..] if byte.is_ascii_digit() => Some((u64::from(*byte - b'0'), rest)),
        _ => None,
    }
}

/// Whether what follows a value is nothing, or begins with a byte that ends it.
fn ends_value(text: &[u8]) -> bool
    ensures { OnTrue result (EndsValue text.now) }
{
    match text {
        [] => true,
        [first, ..] => *first == COMMA || *first == SPACE,
    }
}

/// The integer of digits, with or without a minus, that write this number, if it fits in `i64`.
fn with_sign(text: &[u8], number: u64) -> Option<i64>
    requires { number_at (unsigned text.now) ≡ Some number }
    ensures { result ≡ integer_at text.now }
{
    if begins(MINUS, text) {
        0i64.checked_sub_unsigned(number)
    } else {
        i64::try_from(number).ok()
    }
}
