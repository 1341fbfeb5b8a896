//! Which bytes are a key text.

ghost use Rattle.std.specs.Prelude.{◌≡◌, ◌↔◌, IsTrue, option_map, []};
ghost use Rattle.std.specs.Ordering.{is_lt};
ghost use Rattle.rr_text.specs.Bytes.{bytes_cmp};
ghost use Rattle.rr_key.specs.Series.{IsKeyText};
ghost use Rattle.rr_key.specs.Reading.{tag_at, IsTail, IsLast};
ghost use Rattle.rr_key.specs.declared.class.Class.TheVariants.{Other};
ghost use Rattle.rr_key.specs.Unit.{unescape};

use crate::class::Class;
use crate::escapes::first_unit;
use crate::names::split_name;
use rr_text::bytes::{COMMA, EQUALS, SPACE, strip};
use rr_text::limits::{MAX_KEY_TEXT, MAX_TAGS};

/// Whether the bytes are a key text. One pass, and no memory.
pub fn is_key_text(text: &[u8]) -> bool
    ensures { IsTrue result ↔ IsKeyText text.now }
{
    if text.len() > MAX_KEY_TEXT {
        return false;
    }
    match split_name(Class::Measurement, text) {
        Some((_, tail)) => is_tail(tail),
        None => false,
    }
}

/// Whether the bytes are tags with ascending keys, a space and a field key.
fn is_tail(tail: &[u8]) -> bool
    ensures { IsTrue result ↔ IsTail [] 0 tail.now }
{
    // No key is empty, so each is above this one.
    let mut before: &[u8] = b"";
    let mut count = 0;
    let mut left = tail;
    while let Some(tag) = strip(COMMA, left) {
        let Some((key, rest)) = split_tag(tag) else {
            return false;
        };
        if count == MAX_TAGS || !is_below(before, key) {
            return false;
        }
        before = key;
        left = rest;
        count += 1;
    }
    is_last(left)
}

/// Whether the bytes are a space and a field key.
fn is_last(left: &[u8]) -> bool
    ensures { IsTrue result ↔ IsLast left.now }
{
    let Some(field) = strip(SPACE, left) else {
        return false;
    };
    match split_name(Class::Other, field) {
        Some((_, rest)) => rest.is_empty(),
        None => false,
    }
}

/// The written key of the tag at the beginning, and the bytes after the tag.
fn split_tag(text: &[u8]) -> Option<(&[u8], &[u8])>
    ensures { option_map (λ parts. (parts.0.now, parts.1.now)) result ≡ tag_at text.now }
{
    let (key, rest) = split_name(Class::Other, text)?;
    let value = strip(EQUALS, rest)?;
    let (_, rest) = split_name(Class::Other, value)?;
    Some((key, rest))
}

/// Whether one written key, unescaped, is below another.
fn is_below(left: &[u8], right: &[u8]) -> bool
    ensures { result ≡ is_lt (bytes_cmp (unescape Other left.now) (unescape Other right.now)) }
{
    let mut left = left;
    let mut right = right;
    while let Some((byte, left_rest)) = first_unit(Class::Other, left) {
        match first_unit(Class::Other, right) {
            Some((other, right_rest)) if byte == other => {
                left = left_rest;
                right = right_rest;
            }
            Some((other, _)) => return byte < other,
            None => return false,
        }
    }
    !right.is_empty()
}
