//! The series of a point's fields.

ghost use Rattle.std.specs.Prelude.{◌≡◌, ◌++◌, ◌∷◌, None, IfOk, OnOk, map};
ghost use Rattle.rr_text.specs.declared.bytes.TheConstants.{SPACE};
ghost use Rattle.rr_key.specs.declared.class.Class.TheVariants.{Other};
ghost use Rattle.rr_key.specs.Making.{making_fault, tags_of};
ghost use Rattle.rr_key.specs.Series.{IsKeyText};
ghost use Rattle.rr_key.specs.Unit.{unescape};
ghost use Rattle.rr_point.specs.Key.{names_of, key_text, tags_unescaped, tag_names};
ghost use Rattle.rr_point.specs.Point.{point_view, tags_view};

use crate::point::{Point, Tag};
use rr_key::{Class, SeriesKey, name_len, unescape};
use rr_text::bytes::SPACE;
use std::alloc::{AllocError, Global};

impl<'a> Point<'a> {
    /// Replaces `text`, whose memory is reused, with the key text of the series of one of the
    /// point's fields: its names, unescaped, as [`SeriesKey::new`] writes them.
    ///
    /// If the line has the measurement and the tags as a key text has them, the cost is that of
    /// copying them and of one pass over the field's key. Otherwise it is that of one pass over the
    /// names, of a copy of each and of sorting the tags.
    pub fn write_key(
        &self,
        alloc: Global,
        text: &mut Vec<u8>,
        field: &[u8],
    ) -> Result<(), AllocError>
        requires { making_fault (names_of (point_view self.now) field.now) ≡ None }
        ensures written { OnOk result (text.new.items ≡ key_text (point_view self.now) field.now) }
        ensures grammar { OnOk result (IsKeyText text.new.items) }
    {
        match self.prefix {
            Some(prefix) if name_len(Class::Other, field) == field.len() => {
                write_parts(text, prefix, field)
            }
            _ => {
                let key = self.key_of_names(alloc, field)?;
                text.clear();
                text.extend_from_slice(key.text())
            }
        }
    }

    /// The key of the series of one of the point's fields, from its names one by one.
    fn key_of_names(&self, alloc: Global, field: &[u8]) -> Result<SeriesKey, AllocError>
        requires { making_fault (names_of (point_view self.now) field.now) ≡ None }
        ensures { IfOk result (λ key. key ≡ key_text (point_view self.now) field.now) }
    {
        let measurement = unescape(alloc, Class::Measurement, self.measurement)?;
        let tags = unescape_tags(alloc, self.tags.as_slice())?;
        let field = unescape(alloc, Class::Other, field)?;
        let slices = slices_of(alloc, &tags)?;
        match SeriesKey::new(alloc, &measurement, &slices, &field) {
            Ok(key) => Ok(key),
            Err(_) => Err(AllocError),
        }
    }
}

/// Replaces a text with what precedes a field, a space and the field.
fn write_parts(text: &mut Vec<u8>, prefix: &[u8], field: &[u8]) -> Result<(), AllocError>
    ensures { OnOk result (text.new.items ≡ prefix.now ++ SPACE ∷ field.now) }
{
    text.clear();
    text.extend_from_slice(prefix)?;
    text.push(SPACE)?;
    text.extend_from_slice(field)
}

/// The names of tags, unescaped.
fn unescape_tags(alloc: Global, tags: &[Tag<'_>]) -> Result<Vec<(Vec<u8>, Vec<u8>)>, AllocError>
    ensures { IfOk result (λ names. tag_names names.items ≡ tags_unescaped (tags_view tags.now)) }
{
    let mut names = Vec::with_capacity(alloc, tags.len())?;
    for tag in tags {
        let key = unescape(alloc, Class::Other, tag.key)?;
        let value = unescape(alloc, Class::Other, tag.value)?;
        names.push((key, value))?;
    }
    Ok(names)
}

/// Names as slices.
fn slices_of<'a>(
    alloc: Global,
    names: &'a [(Vec<u8>, Vec<u8>)],
) -> Result<Vec<(&'a [u8], &'a [u8])>, AllocError>
    ensures { IfOk result (λ slices. tags_of slices.items ≡ tag_names names.now) }
{
    let mut slices = Vec::with_capacity(alloc, names.len())?;
    for name in names {
        slices.push((name.0.as_slice(), name.1.as_slice()))?;
    }
    Ok(slices)
}
