//! The tags of a line.

ghost use Rattle.std.specs.Prelude.{◌≡◌, ◌≤◌, length, IfOk};
ghost use Rattle.rr_text.specs.Results.{Gives, GivesUnless};
ghost use Rattle.rr_text.specs.declared.limits.TheConstants.{MAX_TAGS};
ghost use Rattle.rr_line.specs.Answer.{rest_view};
ghost use Rattle.rr_line.specs.Gathering.{all_gathered_tags};
ghost use Rattle.rr_point.specs.Point.{tag_view, tags_view};
ghost use Rattle.rr_line.specs.Reading.{tag_at, all_tags_at};

use crate::fault::LineFault;
use crate::part::read_name;
use crate::repeat::has_repeat;
use rr_key::{Class, MAX_TAGS};
use rr_point::{Tag, Tags};
use rr_text::bytes::{COMMA, EQUALS, begins, strip};
use smallvec::SmallVec;
use std::alloc::{AllocError, Global};

/// The tags after a measurement, and what follows them.
pub(crate) fn read_tags<'a>(
    alloc: Global,
    text: &'a [u8],
) -> Result<(Tags<'a>, &'a [u8]), LineFault>
    ensures { GivesUnless LineFault.Memory (λ tags. (tags_view tags.0.items, tags.1.now))
        result (all_tags_at text.now) }
{
    let (tags, rest) = gather_tags(alloc, text)?;
    if has_repeat(tags.as_slice()) {
        return Err(LineFault::DuplicateTag);
    }
    let rest = rest?;
    Ok((tags, rest))
}

/// The tags at the beginning, up to the first that is refused, and what follows them or why it is
/// refused.
fn gather_tags<'a>(
    alloc: Global,
    text: &'a [u8],
) -> Result<(Tags<'a>, Result<&'a [u8], LineFault>), AllocError>
    ensures gathered { IfOk result (λ tags. (tags_view tags.0.items, rest_view tags.1)
        ≡ all_gathered_tags text.now) }
    ensures tags_fit { IfOk result (λ tags. length tags.0.items ≤ MAX_TAGS) }
{
    let mut tags = SmallVec::new(alloc);
    let mut left = text;
    while let Some(text) = strip(COMMA, left) {
        let (tag, rest) = match read_tag(text) {
            Ok(read) => read,
            Err(fault) => return Ok((tags, Err(fault))),
        };
        if tags.len() == MAX_TAGS {
            return Ok((tags, Err(LineFault::TooManyTags)));
        }
        tags.push(tag)?;
        left = rest;
    }
    Ok((tags, Ok(left)))
}

/// A tag after its comma, and what follows it.
#[tactic(auto, unfolding(crate::specs::Reading::tag_at))]
fn read_tag(text: &[u8]) -> Result<(Tag<'_>, &[u8]), LineFault>
    ensures { Gives (λ tag. (tag_view tag.0, tag.1.now)) result (tag_at text.now) }
{
    let (key, rest) = read_name(Class::Other, LineFault::MissingTagKey, text)?;
    let value = strip(EQUALS, rest).ok_or(LineFault::MissingTagValue)?;
    let (value, rest) = read_name(Class::Other, LineFault::MissingTagValue, value)?;
    if begins(EQUALS, rest) {
        return Err(LineFault::MissingTagValue);
    }
    Ok((Tag { key, value }, rest))
}
