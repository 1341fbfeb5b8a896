//! Values of fields.

ghost use Rattle.std.specs.Prelude.{◌≡◌, ◌≤◌, ◌++◌, length, option_map};
ghost use Rattle.rr_text.specs.Results.{Gives};
ghost use Rattle.rr_text.specs.Text.{is_digits};
ghost use Rattle.rr_line.specs.Part.{IsPrefixLen};
ghost use Rattle.rr_line.specs.Reading.{value_at};
ghost use Rattle.rr_line.specs.Value.{is_boolean, is_one_of, trues, falses, is_integer, is_unsigned, is_float, is_mantissa, is_exponent, mantissa_len, kind_fault, value_of, value_len, after_quote, after_unit, is_text, quoted_fault, without_sign};

use crate::fault::LineFault;
use crate::mark::{
    EXPONENT_MARK, GREAT_EXPONENT_MARK, INTEGER_MARK, PLUS, POINT, QUOTE, UNSIGNED_MARK,
};
use crate::part::before_last;
use memchr::memchr2;
use rr_text::bytes::{BACKSLASH, COMMA, MINUS, SPACE, begins};
use rr_text::text::{cut, integer, is_digits, unsigned};

/// An integer and what follows it. A value of another kind is refused by its kind.
pub(crate) fn read_value(text: &[u8]) -> Result<(i64, &[u8]), LineFault>
    ensures { Gives (λ value. (value.0, value.1.now)) result (value_at text.now) }
{
    if begins(QUOTE, text) {
        return Err(quoted_fault(text));
    }
    let (value, rest) = text.split_at(value_len(text));
    let number = value_of(value)?;
    Ok((number, rest))
}

/// How many bytes precede the first comma or space, or all if there is neither.
fn value_len(text: &[u8]) -> usize
    ensures { IsPrefixLen (value_len text.now) text.now result }
{
    match memchr2(COMMA, SPACE, text) {
        Some(at) => at,
        None => text.len(),
    }
}

/// The integer of a value that is not quoted.
fn value_of(text: &[u8]) -> Result<i64, LineFault>
    ensures { result ≡ value_of text.now }
{
    let Some(digits) = before_last(INTEGER_MARK, text) else {
        return Err(kind_fault(text));
    };
    match integer(digits) {
        Some(number) => Ok(number),
        None if is_digits(unsigned(digits)) => Err(LineFault::IntegerRange),
        None => Err(kind_fault(text)),
    }
}

/// Why a value that is not an integer is refused.
fn kind_fault(text: &[u8]) -> LineFault
    ensures { result ≡ kind_fault text.now }
{
    if text.is_empty() {
        LineFault::MissingFieldValue
    } else if is_boolean(text) {
        LineFault::BooleanField
    } else if is_unsigned(text) {
        LineFault::UnsignedField
    } else if is_float(text) {
        LineFault::FloatField
    } else {
        LineFault::BadField
    }
}

/// Whether the text is true or false.
fn is_boolean(text: &[u8]) -> bool
    ensures { result ≡ is_boolean text.now }
{
    is_true(text) || is_false(text)
}

fn is_true(text: &[u8]) -> bool
    ensures { result ≡ is_one_of trues text.now }
{
    text == b"t".as_slice()
        || text == b"T".as_slice()
        || text == b"true".as_slice()
        || text == b"True".as_slice()
        || text == b"TRUE".as_slice()
}

fn is_false(text: &[u8]) -> bool
    ensures { result ≡ is_one_of falses text.now }
{
    text == b"f".as_slice()
        || text == b"F".as_slice()
        || text == b"false".as_slice()
        || text == b"False".as_slice()
        || text == b"FALSE".as_slice()
}

/// Whether the text is digits and the mark of an unsigned integer.
fn is_unsigned(text: &[u8]) -> bool
    ensures { result ≡ is_unsigned text.now }
{
    match before_last(UNSIGNED_MARK, text) {
        Some(digits) => is_digits(digits),
        None => false,
    }
}

/// Whether the text is a float: an optional minus, a mantissa, and an optional exponent.
fn is_float(text: &[u8]) -> bool
    ensures { result ≡ is_float text.now }
{
    let (mantissa, exponent) = text.split_at(mantissa_len(text));
    is_mantissa(unsigned(mantissa)) && is_exponent(exponent)
}

/// How many bytes precede the mark of an exponent, or all if there is none.
fn mantissa_len(text: &[u8]) -> usize
    ensures { IsPrefixLen (mantissa_len text.now) text.now result }
{
    match memchr2(EXPONENT_MARK, GREAT_EXPONENT_MARK, text) {
        Some(at) => at,
        None => text.len(),
    }
}

/// Whether the text is digits, or digits on one or both sides of a point.
fn is_mantissa(text: &[u8]) -> bool
    ensures { result ≡ is_mantissa text.now }
{
    match cut(POINT, text) {
        None => is_digits(text),
        Some((whole, part)) => are_digits(whole, part),
    }
}

/// Whether two texts together are digits.
fn are_digits(whole: &[u8], part: &[u8]) -> bool
    ensures { result ≡ is_digits (whole.now ++ part.now) }
{
    if whole.is_empty() {
        is_digits(part)
    } else {
        is_digits(whole) && (part.is_empty() || is_digits(part))
    }
}

/// Whether the text is nothing, or a mark, an optional sign, and digits.
fn is_exponent(text: &[u8]) -> bool
    ensures { result ≡ is_exponent text.now }
{
    match text {
        [] => true,
        [_, digits @ ..] => is_digits(without_sign(digits)),
    }
}

/// The text without a leading sign.
fn without_sign(text: &[u8]) -> &[u8]
    ensures { result.now ≡ without_sign text.now }
{
    match text {
        [PLUS | MINUS, digits @ ..] => digits,
        _ => text,
    }
}

/// Why a value that begins with a quote is refused.
fn quoted_fault(text: &[u8]) -> LineFault
    ensures { result ≡ quoted_fault text.now }
{
    if is_text(text) {
        LineFault::TextField
    } else {
        LineFault::BadField
    }
}

/// Whether a quote ends the text value, and a comma, a space or the end follows.
fn is_text(text: &[u8]) -> bool
    ensures { result ≡ is_text text.now }
{
    match text {
        [_, inner @ ..] => match after_quote(inner) {
            Some(rest) => value_len(rest) == 0,
            None => false,
        },
        [] => false,
    }
}

/// What follows the quote that ends a text.
fn after_quote(text: &[u8]) -> Option<&[u8]>
    ensures { option_map (λ rest. rest.now) result ≡ after_quote text.now }
{
    let mut left = text;
    while let [first, rest @ ..] = left {
        if *first == QUOTE {
            return Some(rest);
        }
        left = after_unit(*first, rest);
    }
    None
}

/// What follows a byte of a text, or a backslash with the quote or the backslash that it takes.
fn after_unit(first: u8, rest: &[u8]) -> &[u8]
    ensures value { result.now ≡ after_unit first rest.now }
    ensures shorter { length result.now ≤ length rest.now }
{
    match rest {
        [QUOTE | BACKSLASH, after @ ..] if first == BACKSLASH => after,
        _ => rest,
    }
}
