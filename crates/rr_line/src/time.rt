//! The time of a line, and its end.

ghost use Rattle.std.specs.Prelude.{◌≡◌};
ghost use Rattle.rr_line.specs.Part.{IsPrefixLen, skip_spaces};
ghost use Rattle.rr_line.specs.Reading.{word_time, ending_at};
ghost use Rattle.rr_line.specs.Time.{time_of, word_len};

use crate::fault::LineFault;
use crate::part::skip_spaces;
use crate::precision::Precision;
use memchr::memchr;
use rr_text::bytes::SPACE;
use rr_text::text::{integer, is_digits, unsigned};

/// The time after the fields, in nanoseconds, if there is one.
pub(crate) fn read_ending(precision: Precision, ending: &[u8]) -> Result<Option<i64>, LineFault>
    ensures { result ≡ ending_at precision (skip_spaces ending.now) }
{
    let text = skip_spaces(ending);
    if text.is_empty() {
        return Ok(None);
    }
    let (word, rest) = text.split_at(word_len(text));
    let time = read_time(precision, word, rest)?;
    Ok(Some(time))
}

/// How many bytes precede the first space, or all if there is none.
fn word_len(text: &[u8]) -> usize
    ensures { IsPrefixLen (word_len text.now) text.now result }
{
    match memchr(SPACE, text) {
        Some(at) => at,
        None => text.len(),
    }
}

/// The time of a word that only spaces may follow.
fn read_time(precision: Precision, word: &[u8], rest: &[u8]) -> Result<i64, LineFault>
    ensures { result ≡ word_time precision word.now rest.now }
{
    if !skip_spaces(rest).is_empty() {
        return Err(LineFault::BadTime);
    }
    match nanoseconds(precision, word) {
        Some(time) => Ok(time),
        None if is_digits(unsigned(word)) => Err(LineFault::TimeRange),
        None => Err(LineFault::BadTime),
    }
}

/// The nanoseconds that an integer writes, if they fit in `i64`.
fn nanoseconds(precision: Precision, word: &[u8]) -> Option<i64>
    ensures { result ≡ time_of precision word.now }
{
    let number = integer(word)?;
    number.checked_mul(precision.nanoseconds())
}
