//! Whether a key text is short enough, before memory is taken for it.

ghost use Rattle.std.specs.Prelude.{◌≡◌, ◌++◌, [], ◌∷◌, length};
ghost use Rattle.std.specs.List.{flat_map};
ghost use Rattle.rr_text.specs.declared.limits.TheConstants.{MAX_KEY_TEXT};
ghost use Rattle.rr_key.specs.declared.class.Class.TheVariants.{Measurement};
ghost use Rattle.rr_key.specs.Making.{tags_of};
ghost use Rattle.rr_key.specs.Room.{IsRoomAfter};
ghost use Rattle.rr_key.specs.Series.{tag_text, tail_text};
ghost use Rattle.rr_key.specs.Unit.{escape};

use crate::class::{Class, is_special};
use rr_text::limits::MAX_KEY_TEXT;

/// The room that is left after the key text of names, if they fit into a key text.
pub(crate) fn room_after_key(
    measurement: &[u8],
    tags: &[(&[u8], &[u8])],
    field: &[u8],
) -> Option<usize>
    ensures { IsRoomAfter (escape Measurement measurement.now
        ++ tail_text (tags_of tags.now) field.now) MAX_KEY_TEXT result }
{
    let room = room_after_name(MAX_KEY_TEXT, Class::Measurement, measurement)?;
    let room = room_after_tags(room, tags)?;
    let room = room.checked_sub(1)?;
    room_after_name(room, Class::Other, field)
}

/// The room that is left after tags, if they fit.
fn room_after_tags(room: usize, tags: &[(&[u8], &[u8])]) -> Option<usize>
    ensures { IsRoomAfter (flat_map tag_text (tags_of tags.now)) room result }
{
    let mut left = room;
    for tag in tags {
        left = room_after_tag(left, tag.0, tag.1)?;
    }
    Some(left)
}

/// The room that is left after a tag, its comma and its equals, if it fits.
fn room_after_tag(room: usize, key: &[u8], value: &[u8]) -> Option<usize>
    ensures { IsRoomAfter (tag_text (key.now, value.now)) room result }
{
    let room = room.checked_sub(1)?;
    let room = room_after_name(room, Class::Other, key)?;
    let room = room.checked_sub(1)?;
    room_after_name(room, Class::Other, value)
}

/// The room that is left after a written name, if it fits.
fn room_after_name(room: usize, class: Class, name: &[u8]) -> Option<usize>
    ensures { IsRoomAfter (escape class name.now) room result }
{
    let mut left = room;
    for byte in name {
        let len = unit_len(class, *byte);
        if left < len {
            return None;
        }
        left -= len;
    }
    Some(left)
}

/// How many bytes a byte of a name takes when written.
fn unit_len(class: Class, byte: u8) -> usize
    ensures { result ≡ length (escape class (byte ∷ [])) }
{
    if is_special(class, byte) { 2 } else { 1 }
}
