//! The fields of a line.

ghost use Rattle.std.specs.Prelude.{◌≡◌, ◌≤◌, length, IfOk};
ghost use Rattle.rr_text.specs.Results.{Gives, GivesUnless};
ghost use Rattle.rr_text.specs.declared.limits.TheConstants.{MAX_FIELDS};
ghost use Rattle.rr_line.specs.Answer.{rest_view};
ghost use Rattle.rr_line.specs.Gathering.{all_gathered_fields};
ghost use Rattle.rr_point.specs.Point.{field_view, fields_view};
ghost use Rattle.rr_line.specs.Reading.{field_at, all_fields_at};

use crate::fault::LineFault;
use crate::part::read_name;
use crate::repeat::has_repeat;
use crate::value::read_value;
use rr_key::Class;
use rr_point::Field;
use rr_text::bytes::{COMMA, EQUALS, strip};
use rr_text::limits::MAX_FIELDS;
use std::alloc::{AllocError, Global};

/// The fields at the beginning, and what follows them.
pub(crate) fn read_fields<'a>(
    alloc: Global,
    text: &'a [u8],
) -> Result<(Vec<Field<'a>>, &'a [u8]), LineFault>
    ensures { GivesUnless LineFault.Memory (λ fields.
        (fields_view fields.0.items, fields.1.now)) result (all_fields_at text.now) }
{
    let (fields, rest) = gather_fields(alloc, text)?;
    if has_repeat(&fields) {
        return Err(LineFault::DuplicateField);
    }
    let rest = rest?;
    Ok((fields, rest))
}

/// The fields at the beginning, up to the first that is refused, and what follows them or why it is
/// refused.
fn gather_fields<'a>(
    alloc: Global,
    text: &'a [u8],
) -> Result<(Vec<Field<'a>>, Result<&'a [u8], LineFault>), AllocError>
    ensures gathered { IfOk result (λ fields. (fields_view fields.0.items, rest_view fields.1)
        ≡ all_gathered_fields text.now) }
    ensures fields_fit { IfOk result (λ fields. length fields.0.items ≤ MAX_FIELDS) }
{
    let mut fields = Vec::new(alloc);
    let mut left = text;
    loop {
        let (field, rest) = match read_field(left) {
            Ok(read) => read,
            Err(fault) => return Ok((fields, Err(fault))),
        };
        if fields.len() == MAX_FIELDS {
            return Ok((fields, Err(LineFault::TooManyFields)));
        }
        fields.push(field)?;
        match strip(COMMA, rest) {
            Some(next) => left = next,
            None => return Ok((fields, Ok(rest))),
        }
    }
}

/// A field, and what follows it.
#[tactic(auto, unfolding(crate::specs::Reading::field_at))]
fn read_field(text: &[u8]) -> Result<(Field<'_>, &[u8]), LineFault>
    ensures { Gives (λ field. (field_view field.0, field.1.now)) result (field_at text.now) }
{
    let (key, rest) = read_name(Class::Other, LineFault::MissingFieldKey, text)?;
    let value = strip(EQUALS, rest).ok_or(LineFault::MissingFieldValue)?;
    let (value, rest) = read_value(value)?;
    Ok((Field { key, value }, rest))
}
