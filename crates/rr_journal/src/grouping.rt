//! Groups of packed cells, read from a body.
ghost use Rattle.std.specs.Prelude.{◌≡◌, ◌<◌, IfOk, IsOk, OnOk, length, map};
ghost use Rattle.rr_text.specs.Results.{GivesUnless, NeedsMemoryAfter};
ghost use Rattle.rr_key.specs.Series.{IsKeyText};
ghost use Rattle.rr_codec.specs.Reading.{checked_count};
ghost use Rattle.rr_journal.specs.Fault.{Finds, Refuses};
ghost use Rattle.rr_journal.specs.Body.{archive_at, as_packed, group_at, groups_of, key_at, packed_at, packed_cells};
ghost use Rattle.rr_journal.specs.Groups.{TakesGroup, found_cells, rest_of};

use crate::fault::JournalFault;
use crate::fields::{bytes_at, u8_at, u16_at, u32_at};
use crate::group::Group;
use rr_codec::check;
use rr_key::{SeriesKey, is_key_text};
use rr_schema::Schema;
use rr_text::limits::MAX_KEY_TEXT;
use std::alloc::{AllocError, Global};

/// A group still in the bytes it was read from.
#[derive(Clone, Copy)]
struct FoundGroup<'a> {
    key: &'a [u8],
    archive: u8,
    packed: &'a [u8],
}

/// A key text after its length, and what follows it.
#[tactic(auto, unfolding(crate::specs::Body::key_at))]
fn key_text_at(bytes: &[u8]) -> Result<(&[u8], &[u8]), JournalFault>
    ensures found { Finds (λ x. (x.0.now, x.1.now)) result (key_at bytes.now) }
    ensures grammar { IfOk result (λ x. IsKeyText x.0.now) }
{
    let (len, rest) = u16_at(bytes)?;
    let len = len as usize;
    if len == 0 || len > MAX_KEY_TEXT {
        return Err(JournalFault::BadKey);
    }
    let (text, rest) = bytes_at(rest, len)?;
    if !is_key_text(text) {
        return Err(JournalFault::BadKey);
    }
    Ok((text, rest))
}

/// The number of one of the schema's archives, and what follows it.
#[tactic(auto, unfolding(crate::specs::Body::archive_at))]
fn archive_at<'a>(bytes: &'a [u8], schema: &Schema) -> Result<(u8, &'a [u8]), JournalFault>
    ensures found { Finds (λ x. (x.0, x.1.now)) result (archive_at schema.now bytes.now) }
    ensures within { IfOk result (λ x. x.0 < length schema.now.archives) }
{
    let (archive, rest) = u8_at(bytes)?;
    if archive as usize >= schema.archives().len() {
        return Err(JournalFault::BadArchive);
    }
    Ok((archive, rest))
}

/// Refuses bytes that aren't packed cells of an archive.
fn check_packed(bytes: &[u8], schema: &Schema, archive: u8) -> Result<(), JournalFault>
    requires { archive < length schema.now.archives }
    ensures good { OnOk result (IsOk (checked_count schema.now archive bytes.now)) }
    ensures checks { Refuses result (as_packed (checked_count schema.now archive bytes.now)) }
{
    match check(bytes, schema, archive) {
        Ok(_) => Ok(()),
        Err(fault) => Err(JournalFault::Packed(fault)),
    }
}

/// Packed cells that an archive may have, after their length, and what follows them.
#[tactic(auto, unfolding(crate::specs::Body::packed_at))]
fn packed_at<'a>(
    bytes: &'a [u8],
    schema: &Schema,
    archive: u8,
) -> Result<(&'a [u8], &'a [u8]), JournalFault>
    requires { archive < length schema.now.archives }
    ensures { Finds (λ x. (x.0.now, x.1.now)) result (packed_at schema.now archive bytes.now) }
{
    let (len, rest) = u32_at(bytes)?;
    let (packed, rest) = bytes_at(rest, len as usize)?;
    check_packed(packed, schema, archive)?;
    Ok((packed, rest))
}

/// A group at the beginning of the bytes, and what follows it. No memory is taken.
#[tactic(auto, unfolding(crate::specs::Body::group_at))]
fn group_at<'a>(
    bytes: &'a [u8],
    schema: &Schema,
) -> Result<(FoundGroup<'a>, &'a [u8]), JournalFault>
    ensures found { Finds (λ x. (found_cells x.0, x.1.now)) result (group_at schema.now bytes.now) }
    ensures grammar { IfOk result (λ x. IsKeyText x.0.key.now) }
{
    let (key, rest) = key_text_at(bytes)?;
    let (archive, rest) = archive_at(rest, schema)?;
    let (packed, rest) = packed_at(rest, schema, archive)?;
    let found = FoundGroup {
        key,
        archive,
        packed,
    };
    Ok((found, rest))
}

impl FoundGroup<'_> {
    /// The group, with a key and bytes of its own.
    fn to_group(&self, alloc: Global) -> Result<Group, AllocError>
        requires { IsKeyText self.now.key.now }
        ensures { IfOk result (λ group. packed_cells group ≡ found_cells self.now) }
    {
        let key = SeriesKey::of_text(alloc, self.key)?;
        let packed = Vec::from_slice(alloc, self.packed)?;
        Ok(Group {
            key,
            archive: self.archive,
            packed,
        })
    }
}

/// Takes a group at the beginning of the bytes, and returns what follows it.
fn take_group<'a>(
    alloc: Global,
    groups: &mut Vec<Group>,
    bytes: &'a [u8],
    schema: &Schema,
) -> Result<&'a [u8], JournalFault>
    ensures { TakesGroup (map packed_cells groups.old.items) (map packed_cells groups.new.items)
        (group_at schema.now bytes.now) (λ rest. rest.now) result }
{
    let (found, rest) = match group_at(bytes, schema) {
        Ok(found) => found,
        Err(fault) => return Err(fault),
    };
    groups.push(found.to_group(alloc)?)?;
    Ok(rest)
}

/// The groups that the bytes hold, each copied as it is read.
fn copied_groups(alloc: Global, bytes: &[u8], schema: &Schema) -> Result<Vec<Group>, JournalFault>
    ensures { GivesUnless JournalFault.Memory (λ groups. map packed_cells groups.items) result
        (groups_of schema.now bytes.now) }
{
    let mut groups = Vec::new(alloc);
    let mut rest = take_group(alloc, &mut groups, bytes, schema)?;
    while !rest.is_empty() {
        rest = take_group(alloc, &mut groups, rest, schema)?;
    }
    Ok(groups)
}

/// Refuses bytes that don't begin with a group, and returns what follows the group.
fn skip_group<'a>(bytes: &'a [u8], schema: &Schema) -> Result<&'a [u8], JournalFault>
    ensures { Finds (λ rest. rest.now) result (rest_of (group_at schema.now bytes.now)) }
{
    match group_at(bytes, schema) {
        Ok((_, rest)) => Ok(rest),
        Err(fault) => Err(fault),
    }
}

/// Refuses bytes that aren't groups. No memory is taken.
fn check_groups(bytes: &[u8], schema: &Schema) -> Result<(), JournalFault>
    ensures good { OnOk result (IsOk (groups_of schema.now bytes.now)) }
    ensures checks { Refuses result (groups_of schema.now bytes.now) }
{
    let mut rest = skip_group(bytes, schema)?;
    while !rest.is_empty() {
        rest = skip_group(rest, schema)?;
    }
    Ok(())
}

/// The groups that the bytes hold. If memory runs out, the rest is still checked, so that `Memory`
/// hides no other fault.
pub(crate) fn groups_of(
    alloc: Global,
    bytes: &[u8],
    schema: &Schema,
) -> Result<Vec<Group>, JournalFault>
    ensures read { GivesUnless JournalFault.Memory (λ groups. map packed_cells groups.items) result
        (groups_of schema.now bytes.now) }
    ensures memory { NeedsMemoryAfter JournalFault.Memory (groups_of schema.now bytes.now) result }
{
    match copied_groups(alloc, bytes, schema) {
        Ok(groups) => Ok(groups),
        Err(fault) => {
            if fault == JournalFault::Memory {
                check_groups(bytes, schema)?;
            }
            Err(fault)
        }
    }
}
