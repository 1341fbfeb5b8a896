//! A cell from its bytes.
ghost use Rattle.std.specs.Prelude.{◌≡◌, ◌++◌, ◌<◌, Some, length, drop, IfOk};
ghost use Rattle.rr_schema.specs.Schema.{IsLayout};
ghost use Rattle.rr_text.specs.Results.{GivesUnless, NeedsMemoryAfter};
ghost use Rattle.rr_key.specs.Series.{IsKeyText};
ghost use Rattle.rr_page.specs.CellText.{cell_text};
ghost use Rattle.rr_page.specs.Reading.{number_at, key_at, archive_at, contribution_at, cell_at};
ghost use Rattle.rr_page.specs.Found.{Finds, ReadsCell, found_cell};
ghost use Rattle.rr_page.specs.PageReading.{is_after};
ghost use Rattle.rr_page.specs.Version.{mask_width};
ghost use Rattle.rr_cells.specs.CellBounds.{IsCellOf};
ghost use Rattle.rr_cells.specs.Listing.{owned_cell};

use crate::fault::PageFault;
use crate::fields::{bytes_at, i64_at, i128_at, u8_at, u16_at, u64_at, u128_at};
use crate::version::Version;
use rr_cells::Cell;
use rr_contrib::{Contribution, Mask};
use rr_key::{SeriesKey, is_key_text};
use rr_schema::{Origin, Schema};
use rr_text::limits::MAX_KEY_TEXT;
use std::alloc::{AllocError, Global};

/// A cell whose key text is still in the bytes that it was read from.
#[derive(Clone, Copy)]
pub(crate) struct FoundCell<'a> {
    key: &'a [u8],
    archive: u8,
    slot: i64,
    origin: Origin,
    contribution: Contribution,
}

/// The key text at the beginning of the bytes, after its length, and what follows it. No memory is
/// taken.
#[tactic(auto, unfolding(crate::specs::Reading::key_at))]
fn key_text_of(bytes: &[u8]) -> Result<(&[u8], &[u8]), PageFault>
    ensures found { Finds (λ x. (x.0.now, x.1.now)) result (key_at bytes.now) }
    ensures grammar { IfOk result (λ x. IsKeyText x.0.now) }
{
    let (len, rest) = u16_at(bytes)?;
    let len = len as usize;
    if len == 0 || len > MAX_KEY_TEXT {
        return Err(PageFault::BadKey);
    }
    let (text, rest) = bytes_at(rest, len)?;
    if !is_key_text(text) {
        return Err(PageFault::BadKey);
    }
    Ok((text, rest))
}

/// The key at the beginning of the bytes, as a length and a text, and what follows it.
pub fn key_of(alloc: Global, bytes: &[u8]) -> Result<(SeriesKey, &[u8]), PageFault>
    ensures read { GivesUnless PageFault.Memory (λ x. (x.0, x.1.now)) result (key_at bytes.now) }
    ensures memory { NeedsMemoryAfter PageFault.Memory (key_at bytes.now) result }
{
    let (text, rest) = key_text_of(bytes)?;
    let key = SeriesKey::of_text(alloc, text)?;
    Ok((key, rest))
}

/// The number of one of the schema's archives, and what follows it.
#[tactic(auto, unfolding(crate::specs::Reading::archive_at))]
pub fn archive_of<'a>(bytes: &'a [u8], schema: &Schema) -> Result<(u8, &'a [u8]), PageFault>
    ensures found { Finds (λ x. (x.0, x.1.now)) result (archive_at schema.now bytes.now) }
    ensures within { IfOk result (λ x. x.0 < length schema.now.archives) }
{
    let (archive, rest) = u8_at(bytes)?;
    if archive as usize >= schema.archives().len() {
        return Err(PageFault::BadArchive);
    }
    Ok((archive, rest))
}

/// A mask, and what follows it. Masks of version 1 have the places below 64.
fn mask_of(bytes: &[u8], version: Version) -> Result<(Mask, &[u8]), PageFault>
    ensures { Finds (λ x. (x.0, x.1.now)) result
        (number_at (mask_width version) bytes.now) }
{
    match version {
        Version::One => {
            let (mask, rest) = u64_at(bytes)?;
            Ok((Mask::from(mask), rest))
        }
        Version::Two => u128_at(bytes),
    }
}

/// The fields of a contribution, and what follows them.
#[tactic(auto, unfolding(crate::specs::Reading::contribution_at))]
fn contribution_of(bytes: &[u8], format: Version) -> Result<(Contribution, &[u8]), PageFault>
    ensures { Finds (λ x. (x.0, x.1.now)) result (contribution_at format bytes.now) }
{
    let (version, rest) = u64_at(bytes)?;
    let (count, rest) = u64_at(rest)?;
    let (sum, rest) = i128_at(rest)?;
    let (min, rest) = i64_at(rest)?;
    let (max, rest) = i64_at(rest)?;
    let (last_time, rest) = i64_at(rest)?;
    let (last_value, rest) = i64_at(rest)?;
    let (mask, rest) = mask_of(rest, format)?;
    let contribution = Contribution {
        version,
        count,
        sum,
        min,
        max,
        last_time,
        last_value,
        mask,
    };
    Ok((contribution, rest))
}

/// The cell at the beginning of the bytes, in this version and valid in the schema, and what
/// follows it. No memory is taken. Refusals are those of [`read_cell`].
#[tactic(auto, unfolding(crate::specs::Reading::cell_at))]
pub(crate) fn find_cell<'a>(
    bytes: &'a [u8],
    schema: &Schema,
    version: Version,
) -> Result<(FoundCell<'a>, &'a [u8]), PageFault>
    ensures found { Finds (λ x. (found_cell x.0, x.1.now)) result
        (cell_at version schema.now bytes.now) }
    ensures cell { IfOk result (λ x. IsCellOf schema.now (found_cell x.0)) }
{
    let (key, rest) = key_text_of(bytes)?;
    let (archive, rest) = archive_of(rest, schema)?;
    let (slot, rest) = i64_at(rest)?;
    let (origin, rest) = u16_at(rest)?;
    let (contribution, rest) = contribution_of(rest, version)?;
    let origin = match Origin::new(origin) {
        Ok(origin) => origin,
        Err(_) => return Err(PageFault::BadContribution),
    };
    if !contribution.is_valid(schema, archive, slot) {
        return Err(PageFault::BadContribution);
    }
    let found = FoundCell {
        key,
        archive,
        slot,
        origin,
        contribution,
    };
    Ok((found, rest))
}

impl FoundCell<'_> {
    /// The cell, with a key of its own.
    fn to_cell(&self, alloc: Global) -> Result<Cell, AllocError>
        requires { IsKeyText self.now.key.now }
        ensures { IfOk result (λ cell. owned_cell cell ≡ found_cell self.now) }
    {
        let key = SeriesKey::of_text(alloc, self.key)?;
        Ok(Cell {
            key,
            archive: self.archive,
            slot: self.slot,
            origin: self.origin,
            contribution: self.contribution,
        })
    }

    /// Whether its name is greater than another's, so that it may follow it.
    pub(crate) fn is_after(&self, before: &FoundCell) -> bool
        ensures { result ≡ is_after (Some (found_cell before.now).0) (found_cell self.now).0 }
    {
        let slot = before
            .slot
            .cmp(&self.slot)
            .then(before.origin.cmp(&self.origin));
        let name = before
            .key
            .cmp(self.key)
            .then(before.archive.cmp(&self.archive).then(slot));
        name.is_lt()
    }
}

/// The cell at the beginning of the bytes, in this version and valid in the schema, and what
/// follows it. Refusals and the cost are those of [`read_cell`].
pub fn read_cell_in<'a>(
    alloc: Global,
    bytes: &'a [u8],
    schema: &Schema,
    version: Version,
) -> Result<(Cell, &'a [u8]), PageFault>
    ensures { ReadsCell version schema.now bytes.now (λ x. (owned_cell x.0, x.1.now)) result }
{
    match find_cell(bytes, schema, version) {
        Ok((found, rest)) => {
            let cell = found.to_cell(alloc)?;
            Ok((cell, rest))
        }
        Err(fault) => Err(fault),
    }
}

/// The cell at the beginning of the bytes, in this version and valid in the schema, and how many
/// bytes it takes. Bytes may follow it.
///
/// Refusals are those of the first bad field: `Short` if fewer bytes are left than the field has;
/// `BadKey` if the length of the key is 0 or above 1,024, before its text is read, or if the text
/// is not a key text; `BadArchive`; and after the last field `BadContribution`, also for the origin
/// 0. The key is copied last, so `Memory` comes only if there is a cell. The cost is linear in the
/// key text.
pub fn read_cell(
    alloc: Global,
    bytes: &[u8],
    schema: &Schema,
    version: Version,
) -> Result<(Cell, usize), PageFault>
    ensures reads { ReadsCell version schema.now bytes.now
        (λ x. (owned_cell x.0, drop x.1 bytes.now)) result }
    ensures text { IfOk result (λ x.
        bytes.now ≡ cell_text version (owned_cell x.0) ++ drop x.1 bytes.now) }
    ensures len { IfOk result (λ x. x.1 ≡ length (cell_text version (owned_cell x.0))) }
{
    let (cell, rest) = read_cell_in(alloc, bytes, schema, version)?;
    let len = bytes.len() - rest.len();
    Ok((cell, len))
}
