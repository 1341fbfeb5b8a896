//! A line, read from left to right.

ghost use Rattle.std.specs.Prelude.{◌≡◌, ◌+◌, true, false, length, nat_lt, Result, IfOk, IsOk, Ok};
ghost use Rattle.std.specs.List.{list_any};
ghost use Rattle.rr_text.specs.Bytes.{HasNoLineFeed};
ghost use Rattle.rr_text.specs.Results.{Gives, GivesUnless, AnswersUnless, NeedsMemoryAfter};
ghost use Rattle.rr_text.specs.declared.limits.TheConstants.{MAX_KEY_TEXT};
ghost use Rattle.rr_line.specs.Grammar.{is_nothing, IsLineOf};
ghost use Rattle.rr_line.specs.Key.{LineHasKeys, LineHasFewFields};
ghost use Rattle.rr_point.specs.Point.{point_view, fields_view};
ghost use Rattle.rr_line.specs.Line.{LineView, line_view};
ghost use Rattle.rr_line.specs.Part.{content};
ghost use Rattle.rr_line.specs.Reading.{body_at, fields_text_of, name_at, point_at, reading};
ghost use Rattle.rr_key.specs.declared.class.Class.TheVariants.{Measurement};
ghost use Rattle.rr_line.specs.declared.fault.LineFault.TheVariants.{NoMeasurement};

use crate::fault::LineFault;
use crate::fields::read_fields;
use crate::line::Line;
use crate::part::{content, read_name, skip_spaces};
use crate::precision::Precision;
use crate::prefix::key_prefix;
use crate::tags::read_tags;
use crate::time::read_ending;
use rr_key::Class;
use rr_point::{Field, Point};
use rr_text::bytes::HASH;
use rr_text::limits::MAX_KEY_TEXT;
use std::alloc::Global;

/// Reads one line, without the line feed that ended it.
///
/// The line's time is in the unit of `precision`, the point's in nanoseconds. The rules are those
/// of the "InfluxDB line protocol reference" and of the crate's page; of a line's faults, the first
/// one as it is read is returned. `Memory` is returned exactly when memory runs out.
///
/// The cost is that of a few passes over the line, and of comparing the keys of its tags, and those
/// of its fields, pair by pair; more than 16 are sorted instead. Memory is taken for the fields,
/// and for the tags if there are more than four.
pub fn parse_line<'a>(
    alloc: Global,
    line: &'a [u8],
    precision: Precision,
) -> Result<Line<'a>, LineFault>
    requires { HasNoLineFeed line.now }

    // The result is what the reading says, unless memory runs out.
    ensures read { GivesUnless LineFault.Memory line_view result (reading precision line.now) }

    // What is returned is of the grammar, and what is of the grammar is returned.
    ensures found { AnswersUnless LineFault.Memory line_view result (IsLineOf precision line.now) }
    ensures only { (parsed : Result LineView LineFault) → IsLineOf precision line.now parsed
        → GivesUnless LineFault.Memory line_view result parsed }

    // Memory is taken only for a line that says something and begins with a measurement.
    ensures nothing { is_nothing (content line.now) ≡ true → IsOk result }
    ensures memory { NeedsMemoryAfter LineFault.Memory
        (name_at Measurement NoMeasurement (content line.now)) result }

    // Each field of a point has a key, and they are few.
    ensures keyed { IfOk result (λ parsed. LineHasKeys (line_view parsed)) }
    ensures fields_fit { IfOk result (λ parsed. LineHasFewFields (line_view parsed)) }
{
    let text = content(line);
    if is_nothing(text) {
        return Ok(Line::Nothing);
    }
    let point = read_point(alloc, text, precision)?;
    Ok(Line::Point(point))
}

/// Whether nothing is left, or a comment.
pub(crate) fn is_nothing(text: &[u8]) -> bool
    ensures { result ≡ is_nothing text.now }
{
    match text {
        [] => true,
        [first, ..] => *first == HASH,
    }
}

/// Reads a point from the measurement on.
#[tactic(auto, unfolding(crate::specs::Reading::point_at))]
fn read_point<'a>(
    alloc: Global,
    text: &'a [u8],
    precision: Precision,
) -> Result<Point<'a>, LineFault>
    requires one_line { HasNoLineFeed text.now }
    requires says_something { is_nothing text.now ≡ false }
    ensures read { GivesUnless LineFault.Memory point_view result (point_at precision text.now) }
    ensures memory { NeedsMemoryAfter LineFault.Memory
        (name_at Measurement NoMeasurement text.now) result }
{
    let (measurement, rest) = read_name(Class::Measurement, LineFault::NoMeasurement, text)?;
    let (tags, gap) = read_tags(alloc, rest)?;
    let prefix = &text[..text.len() - gap.len()];
    let (fields, time) = read_body(alloc, prefix, gap, precision)?;
    let prefix = key_prefix(prefix, tags.as_slice());
    Ok(Point::new(measurement, tags, fields, time, prefix))
}

/// The fields after what precedes them, and the time.
#[tactic(auto, unfolding(crate::specs::Reading::body_at))]
fn read_body<'a>(
    alloc: Global,
    prefix: &[u8],
    gap: &'a [u8],
    precision: Precision,
) -> Result<(Vec<Field<'a>>, Option<i64>), LineFault>
    ensures { GivesUnless LineFault.Memory (λ body. (fields_view body.0.items, body.1))
        result (body_at precision (length prefix.now) gap.now) }
{
    let text = skip_gap(gap)?;
    let (fields, ending) = read_fields(alloc, text)?;
    let time = read_ending(precision, ending)?;
    if has_long_key(prefix, &fields) {
        return Err(LineFault::KeyTooLong);
    }
    Ok((fields, time))
}

/// The text of the fields, after the spaces that precede them.
fn skip_gap(gap: &[u8]) -> Result<&[u8], LineFault>
    ensures { Gives (λ text. text.now) result (fields_text_of gap.now) }
{
    let text = skip_spaces(gap);
    if text.is_empty() {
        return Err(LineFault::NoFields);
    }
    Ok(text)
}

/// Whether a key text is too long: its length is that of what precedes the fields in the line, a
/// space and the field's key.
fn has_long_key(prefix: &[u8], fields: &[Field<'_>]) -> bool
    ensures { result ≡ list_any
        (λ field. nat_lt MAX_KEY_TEXT (length prefix.now + 1 + length field.0))
        (fields_view fields.now) }
{
    for field in fields {
        if prefix.len() + 1 + field.key.len() > MAX_KEY_TEXT {
            return true;
        }
    }
    false
}
