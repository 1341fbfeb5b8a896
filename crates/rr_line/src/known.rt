//! Lines of a known series.

ghost use Rattle.std.specs.Prelude.{◌≡◌, false, [], ◌∷◌, ◌++◌, IfSome, OnSome, Ok};
ghost use Rattle.rr_text.specs.Bytes.{begins};
ghost use Rattle.rr_text.specs.declared.bytes.TheConstants.{COMMA, EQUALS};
ghost use Rattle.rr_line.specs.Beginning.{HasFirst};
ghost use Rattle.rr_line.specs.Known.{SaysSamples};
ghost use Rattle.rr_line.specs.Part.{skip_spaces};
ghost use Rattle.rr_line.specs.Reading.{ending_at};

use crate::integer::read_integer;
use crate::last_time::LastTime;
use crate::parse::is_nothing;
use crate::part::content;
use crate::precision::Precision;
use rr_key::SeriesKey;
use rr_text::bytes::{COMMA, EQUALS, begins, strip};

/// The value and the time, in nanoseconds, of a line that says one sample of the series of this
/// key.
///
/// What is returned is what [`parse_line`](crate::parse_line) reads from the line. `None` says
/// nothing: the line may be of another series, have further fields, spell its names differently
/// from the key text, say nothing, or be refused.
///
/// The cost is that of comparing the key text and of reading the value; the time is read only if
/// the line ends in other bytes than the previous one, whose time is in `last`. No memory is taken.
pub fn read_known(
    line: &[u8],
    key: &SeriesKey,
    precision: Precision,
    last: &mut LastTime,
) -> Option<(i64, Option<i64>)>
    ensures { IfSome result (λ parsed.
        SaysSamples precision line.now ((key.now, parsed.0) ∷ []) parsed.1) }
{
    let (value, rest) = first_value(line, key.text())?;
    let time = time_after(rest, precision, last)?;
    Some((value, time))
}

/// The value of the first field, and what follows it, if the line begins with the key text.
pub(crate) fn first_value<'a>(line: &'a [u8], key: &[u8]) -> Option<(i64, &'a [u8])>
    ensures { IfSome result (λ value. HasFirst line.now key.now value.0 value.1.now) }
{
    let text = content(line);
    if is_nothing(text) {
        return None;
    }
    let value_text = after_key(text, key)?;
    read_integer(value_text)
}

/// What follows a key and an equals at the beginning.
pub(crate) fn after_key<'a>(text: &'a [u8], key: &[u8]) -> Option<&'a [u8]>
    ensures { IfSome result (λ rest. text.now ≡ key.now ++ EQUALS ∷ rest.now) }
{
    if text.len() < key.len() {
        return None;
    }
    let (prefix, rest) = text.split_at(key.len());
    if prefix == key {
        strip(EQUALS, rest)
    } else {
        None
    }
}

/// The time in what follows a field, if that is the last one.
pub(crate) fn time_after(
    rest: &[u8],
    precision: Precision,
    last: &mut LastTime,
) -> Option<Option<i64>>
    ensures ended { OnSome result (begins COMMA rest.now ≡ false) }
    ensures time { IfSome result (λ time. ending_at precision (skip_spaces rest.now) ≡ Ok time) }
{
    if begins(COMMA, rest) {
        return None;
    }
    last.read(precision, rest)
}
