//! A cell as bytes.
ghost use Rattle.std.specs.Prelude.{◌≡◌, ◌+◌, ◌++◌, length, IfOk, OnOk};
ghost use Rattle.rr_page.specs.CellText.{sums_text, values_text, name_text, cell_text};
ghost use Rattle.rr_page.specs.Version.{fields_len, latest};
ghost use Rattle.rr_archive.specs.CellSlots.{cell_slot};
ghost use Rattle.rr_cells.specs.Cells.{name_at};
ghost use Rattle.rr_cells.specs.Listing.{seen_cell};

use rr_cells::CellRef;
use rr_contrib::Contribution;
use rr_key::SeriesKey;
use rr_schema::Origin;
use std::alloc::{AllocError, Global};

/// How many bytes a cell of the latest version has besides its key text.
pub const FIELDS_LEN: usize = 93;

const _: () = prove!(FIELDS_LEN == 93);

/// Adds the version of a contribution, and the count and the sum of its samples.
#[tactic(auto, unfolding(crate::specs::CellText::sums_text))]
fn push_sums(bytes: &mut Vec<u8>, contribution: &Contribution) -> Result<(), AllocError>
    ensures { OnOk result (bytes.new.items ≡ bytes.old.items ++ sums_text contribution.now) }
{
    bytes.extend_from_slice(&contribution.version.to_be_bytes())?;
    bytes.extend_from_slice(&contribution.count.to_be_bytes())?;
    bytes.extend_from_slice(&contribution.sum.to_be_bytes())?;
    Ok(())
}

/// Adds the least, the greatest and the last value of a contribution, with its last time, and its
/// places.
#[tactic(auto, unfolding(crate::specs::CellText::values_text))]
fn push_values(bytes: &mut Vec<u8>, contribution: &Contribution) -> Result<(), AllocError>
    ensures { OnOk result
        (bytes.new.items ≡ bytes.old.items ++ values_text latest contribution.now) }
{
    bytes.extend_from_slice(&contribution.min.to_be_bytes())?;
    bytes.extend_from_slice(&contribution.max.to_be_bytes())?;
    bytes.extend_from_slice(&contribution.last_time.to_be_bytes())?;
    bytes.extend_from_slice(&contribution.last_value.to_be_bytes())?;
    bytes.extend_from_slice(&contribution.mask.to_be_bytes())?;
    Ok(())
}

/// Adds the name of a cell.
#[tactic(auto, unfolding(crate::specs::CellText::name_text))]
pub fn push_name(
    bytes: &mut Vec<u8>,
    key: &SeriesKey,
    archive: u8,
    slot: i64,
    origin: Origin,
) -> Result<(), AllocError>
    ensures { OnOk result
        (bytes.new.items
        ≡ bytes.old.items ++ name_text (name_at key.now archive (cell_slot slot origin))) }
{
    let text = key.text();
    bytes.extend_from_slice(&(text.len() as u16).to_be_bytes())?;
    bytes.extend_from_slice(text)?;
    bytes.push(archive)?;
    bytes.extend_from_slice(&slot.to_be_bytes())?;
    bytes.extend_from_slice(&origin.get().to_be_bytes())?;
    Ok(())
}

/// Adds a cell.
#[tactic(auto, unfolding(crate::specs::CellText::cell_text))]
pub(crate) fn push_cell(
    bytes: &mut Vec<u8>,
    key: &SeriesKey,
    archive: u8,
    slot: i64,
    origin: Origin,
    contribution: &Contribution,
) -> Result<(), AllocError>
    ensures { OnOk result
        (bytes.new.items ≡ bytes.old.items
        ++ cell_text latest (name_at key.now archive (cell_slot slot origin), contribution.now)) }
{
    push_name(bytes, key, archive, slot, origin)?;
    push_sums(bytes, contribution)?;
    push_values(bytes, contribution)?;
    Ok(())
}

/// A cell as bytes in the latest version: 93 bytes and the key text. The cost is linear in the key
/// text.
pub fn cell_bytes(alloc: Global, cell: CellRef<'_>) -> Result<Vec<u8>, AllocError>
    ensures text { IfOk result (λ bytes. bytes.items ≡ cell_text latest (seen_cell cell.entry)) }
    ensures len { IfOk result (λ bytes.
        length bytes.items ≡ fields_len latest + length (seen_cell cell.entry).0.key) }
{
    let CellRef {
        key,
        archive,
        slot,
        origin,
        contribution,
    } = cell;
    let mut bytes = Vec::with_capacity(alloc, FIELDS_LEN + key.text().len())?;
    push_cell(&mut bytes, key, archive, slot, origin, &contribution)?;
    Ok(bytes)
}
