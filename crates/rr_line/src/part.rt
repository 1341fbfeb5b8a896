//! The parts of a line: what is at the beginning of a text, and what follows it.

ghost use Rattle.std.specs.Prelude.{◌≡◌, ◌≤◌, length, option_map};
ghost use Rattle.rr_text.specs.Bytes.{strip, begins};
ghost use Rattle.rr_text.specs.Results.{Gives};
ghost use Rattle.rr_line.specs.Part.{skip_spaces, before_last, content};
ghost use Rattle.rr_line.specs.Reading.{name_at};

use crate::fault::LineFault;
use rr_key::{Class, name_len};
use rr_text::bytes::{RETURN, SPACE};

/// The text without the spaces at its beginning.
pub(crate) fn skip_spaces(text: &[u8]) -> &[u8]
    ensures { result.now ≡ skip_spaces text.now }
{
    let mut left = text;
    while let [SPACE, rest @ ..] = left {
        left = rest;
    }
    left
}

/// The text before its last byte, if that is this one.
pub(crate) fn before_last(byte: u8, text: &[u8]) -> Option<&[u8]>
    ensures { option_map (λ prefix. prefix.now) result ≡ before_last byte text.now }
{
    match text {
        [prefix @ .., last] => { if *last == byte { Some(prefix) } else { None } }
        [] => None,
    }
}

/// A line without the carriage return at its end and the spaces at its beginning.
pub(crate) fn content(line: &[u8]) -> &[u8]
    ensures { result.now ≡ content line.now }
{
    match before_last(RETURN, line) {
        Some(prefix) => skip_spaces(prefix),
        None => skip_spaces(line),
    }
}

/// The name at the beginning, and what follows it; if there is none, the line is refused.
pub(crate) fn read_name(
    class: Class,
    missing: LineFault,
    text: &[u8],
) -> Result<(&[u8], &[u8]), LineFault>
    ensures { Gives (λ name. (name.0.now, name.1.now)) result (name_at class missing text.now) }
{
    match name_len(class, text) {
        0 => Err(missing),
        len => Ok(text.split_at(len)),
    }
}
