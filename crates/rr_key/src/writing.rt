//! How a key text is written.

ghost use Rattle.std.specs.Prelude.{◌≡◌, ◌++◌, OnOk, IfOk};
ghost use Rattle.std.specs.List.{flat_map};
ghost use Rattle.rr_key.specs.declared.class.Class.TheVariants.{Measurement};
ghost use Rattle.rr_key.specs.Making.{tags_of};
ghost use Rattle.rr_key.specs.Series.{tag_text, tail_text};
ghost use Rattle.rr_key.specs.Unit.{escape};

use crate::class::Class;
use crate::escapes::push_escaped;
use rr_text::bytes::{COMMA, EQUALS, SPACE};
use std::alloc::{AllocError, Global};

/// The bytes taken at once for a key text; most have fewer.
const ROOM: usize = 128;

/// The key text of names whose tags are in the order of their keys.
pub(crate) fn write_key(
    alloc: Global,
    measurement: &[u8],
    tags: &[(&[u8], &[u8])],
    field: &[u8],
) -> Result<Vec<u8>, AllocError>
    ensures { IfOk result (λ text. text.items ≡ escape Measurement measurement.now
        ++ tail_text (tags_of tags.now) field.now) }
{
    let mut text = Vec::with_capacity(alloc, ROOM)?;
    push_escaped(&mut text, Class::Measurement, measurement)?;
    push_tags(&mut text, tags)?;
    text.push(SPACE)?;
    push_escaped(&mut text, Class::Other, field)?;
    Ok(text)
}

fn push_tags(text: &mut Vec<u8>, tags: &[(&[u8], &[u8])]) -> Result<(), AllocError>
    ensures { OnOk result (text.new.items ≡ text.old.items
        ++ flat_map tag_text (tags_of tags.now)) }
{
    for tag in tags {
        push_tag(text, tag.0, tag.1)?;
    }
    Ok(())
}

fn push_tag(text: &mut Vec<u8>, key: &[u8], value: &[u8]) -> Result<(), AllocError>
    ensures { OnOk result (text.new.items ≡ text.old.items ++ tag_text (key.now, value.now)) }
{
    text.push(COMMA)?;
    push_escaped(text, Class::Other, key)?;
    text.push(EQUALS)?;
    push_escaped(text, Class::Other, value)
}
