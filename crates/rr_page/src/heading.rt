//! The head of a page, before its cells.
ghost use Rattle.std.specs.Prelude.{◌≡◌, ◌++◌, OnOk};
ghost use Rattle.rr_page.specs.Found.{Finds};
ghost use Rattle.rr_page.specs.Page.{head_text};
ghost use Rattle.rr_page.specs.PageReading.{version_at, start_at, schema_at, head_at};
ghost use Rattle.rr_page.specs.Version.{latest};

use crate::fault::PageFault;
use crate::fields::{bytes_at, u8_at, u16_at};
use crate::version::{LATEST, Version};
use rr_schema::Schema;
use rr_text::limits::MAX_PAGE_CELLS;
use std::alloc::{AllocError, Global};

/// The bytes that every page begins with.
const MAGIC: [u8; 4] = *b"RRPG";

/// The version that the first byte names, and what follows it. `Short` if there is no byte, and
/// `BadVersion` if it names no version.
#[tactic(auto, unfolding(crate::specs::PageReading::version_at))]
pub fn version_of(bytes: &[u8]) -> Result<(Version, &[u8]), PageFault>
    ensures { Finds (λ x. (x.0, x.1.now)) result (version_at bytes.now) }
{
    let (byte, rest) = u8_at(bytes)?;
    match byte {
        1 => Ok((Version::One, rest)),
        2 => Ok((Version::Two, rest)),
        _ => Err(PageFault::BadVersion),
    }
}

/// The version, after the bytes that every page begins with, and what follows it.
#[tactic(auto, unfolding(crate::specs::PageReading::start_at))]
fn start_of(bytes: &[u8]) -> Result<(Version, &[u8]), PageFault>
    ensures { Finds (λ x. (x.0, x.1.now)) result (start_at bytes.now) }
{
    let (start, rest) = bytes_at(bytes, MAGIC.len())?;
    if start != MAGIC.as_slice() {
        return Err(PageFault::BadMagic);
    }
    version_of(rest)
}

/// The version, as many bytes as the schema has, and what follows them.
#[tactic(auto, unfolding(crate::specs::PageReading::schema_at))]
fn schema_of<'a>(
    bytes: &'a [u8],
    schema: &Schema,
) -> Result<(Version, &'a [u8], &'a [u8]), PageFault>
    ensures { Finds (λ x. ((x.0, x.1.now), x.2.now)) result (schema_at schema.now bytes.now) }
{
    let (version, rest) = start_of(bytes)?;
    let (field, rest) = bytes_at(rest, schema.byte_len())?;
    Ok((version, field, rest))
}

/// The version and the number of cells, and what follows them. No memory is taken.
#[tactic(auto, unfolding(crate::specs::PageReading::head_at))]
pub(crate) fn head_of<'a>(
    bytes: &'a [u8],
    schema: &Schema,
) -> Result<(Version, u16, &'a [u8]), PageFault>
    ensures { Finds (λ x. ((x.0, x.1), x.2.now)) result (head_at schema.now bytes.now) }
{
    let (version, field, rest) = schema_of(bytes, schema)?;
    if !version.has_masks_for(schema) || !schema.has_bytes(field) {
        return Err(PageFault::SchemaDiffers);
    }
    let (count, rest) = u16_at(rest)?;
    if count as usize > MAX_PAGE_CELLS {
        return Err(PageFault::TooManyCells);
    }
    Ok((version, count, rest))
}

/// Adds the head of a page of the latest version.
#[tactic(auto, unfolding(crate::specs::Page::head_text))]
pub(crate) fn push_head(
    alloc: Global,
    bytes: &mut Vec<u8>,
    schema: &Schema,
    count: u16,
) -> Result<(), AllocError>
    ensures { OnOk result
        (bytes.new.items ≡ bytes.old.items ++ head_text latest schema.now count) }
{
    let own = schema.bytes(alloc)?;
    bytes.extend_from_slice(&MAGIC)?;
    bytes.push(LATEST.byte())?;
    bytes.extend_from_slice(&own)?;
    bytes.extend_from_slice(&count.to_be_bytes())?;
    Ok(())
}
