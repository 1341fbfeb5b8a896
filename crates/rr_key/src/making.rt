//! Which names make a key, and the order of its tags.

ghost use Rattle.std.specs.Prelude.{◌≡◌, ◌≤◌, length, false, Err, None, [], if◌then◌else◌};
ghost use Rattle.rr_key.specs.declared.fault.KeyFault.TheVariants.{DuplicateTag, TooManyTags};
ghost use Rattle.rr_key.specs.Making.{names_of, tags_of, any_tag, any_name, making_fault, key_of};
ghost use Rattle.rr_key.specs.Name.{is_empty, is_bad};
ghost use Rattle.rr_key.specs.Reading.{rises};
ghost use Rattle.rr_text.specs.Bytes.{has_repeat};
ghost use Rattle.rr_text.specs.Results.{GivesUnless};
ghost use Rattle.rr_text.specs.declared.limits.TheConstants.{MAX_TAGS};
ghost use Rattle.std.specs.Map.{keys_of};

use crate::fault::KeyFault;
use crate::names::is_bad;
use crate::room::room_after_key;
use crate::writing::write_key;
use rr_text::bytes::has_repeat;
use rr_text::limits::MAX_TAGS;
use std::alloc::Global;

/// The key text of names.
pub(crate) fn make_text(
    alloc: Global,
    measurement: &[u8],
    tags: &[(&[u8], &[u8])],
    field: &[u8],
) -> Result<Vec<u8>, KeyFault>
    ensures made { GivesUnless KeyFault.Memory (λ text. text.items) result
        (key_of (names_of measurement.now tags.now field.now)) }
    ensures memory { result ≡ Err KeyFault.Memory
        → making_fault (names_of measurement.now tags.now field.now) ≡ None }
{
    if has_empty(measurement, tags, field) {
        return Err(KeyFault::EmptyName);
    }
    if has_bad(measurement, tags, field) {
        return Err(KeyFault::BadName);
    }
    if tags.len() > MAX_TAGS {
        return Err(fault_of_many(tags));
    }
    let none: &[u8] = b"";
    let mut room = [(none, none); MAX_TAGS];
    let sorted = &mut room[..tags.len()];
    sorted.copy_from_slice(tags);
    sort_and_write(alloc, measurement, sorted, field)
}

/// Why more tags than a key may have are refused.
fn fault_of_many(tags: &[(&[u8], &[u8])]) -> KeyFault
    ensures { result
        ≡ (if has_repeat (keys_of (tags_of tags.now)) then DuplicateTag else TooManyTags) }
{
    if has_repeat(tags) {
        KeyFault::DuplicateTag
    } else {
        KeyFault::TooManyTags
    }
}

/// The key text of names that a key may have, with no more tags than a key may have.
fn sort_and_write(
    alloc: Global,
    measurement: &[u8],
    tags: &mut [(&[u8], &[u8])],
    field: &[u8],
) -> Result<Vec<u8>, KeyFault>
    requires filled { any_name is_empty (names_of measurement.now tags.old field.now) ≡ false }
    requires good { any_name is_bad (names_of measurement.now tags.old field.now) ≡ false }
    requires tags_fit { length tags.old ≤ MAX_TAGS }
    ensures made { GivesUnless KeyFault.Memory (λ text. text.items) result
        (key_of (names_of measurement.now tags.old field.now)) }
    ensures memory { result ≡ Err KeyFault.Memory
        → making_fault (names_of measurement.now tags.old field.now) ≡ None }
{
    tags.sort_unstable();
    if !rises(tags) {
        return Err(KeyFault::DuplicateTag);
    }
    if room_after_key(measurement, tags, field).is_none() {
        return Err(KeyFault::KeyTooLong);
    }
    let text = write_key(alloc, measurement, tags, field)?;
    Ok(text)
}

/// Whether one of the names is empty.
fn has_empty(measurement: &[u8], tags: &[(&[u8], &[u8])], field: &[u8]) -> bool
    ensures { result ≡ any_name is_empty (names_of measurement.now tags.now field.now) }
{
    measurement.is_empty() || has_empty_tag(tags) || field.is_empty()
}

fn has_empty_tag(tags: &[(&[u8], &[u8])]) -> bool
    ensures { result ≡ any_tag is_empty (tags_of tags.now) }
{
    for tag in tags {
        if tag.0.is_empty() || tag.1.is_empty() {
            return true;
        }
    }
    false
}

/// Whether one of the names is bad.
fn has_bad(measurement: &[u8], tags: &[(&[u8], &[u8])], field: &[u8]) -> bool
    ensures { result ≡ any_name is_bad (names_of measurement.now tags.now field.now) }
{
    is_bad(measurement) || has_bad_tag(tags) || is_bad(field)
}

fn has_bad_tag(tags: &[(&[u8], &[u8])]) -> bool
    ensures { result ≡ any_tag is_bad (tags_of tags.now) }
{
    for tag in tags {
        if is_bad(tag.0) || is_bad(tag.1) {
            return true;
        }
    }
    false
}

/// Whether the keys rise.
fn rises(tags: &[(&[u8], &[u8])]) -> bool
    ensures { result ≡ rises [] (tags_of tags.now) }
{
    // No key is empty, so each is above this one.
    let mut before: &[u8] = b"";
    for tag in tags {
        if before.cmp(tag.0).is_ge() {
            return false;
        }
        before = tag.0;
    }
    true
}
