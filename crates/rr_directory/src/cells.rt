//! Cells as CSV records.
ghost use Rattle.std.specs.Prelude.{◌≡◌, ◌++◌, ◌∷◌, OnOk};
ghost use Rattle.std.specs.Fmt.{signed_decimal};
ghost use Rattle.std.specs.List.{flat_map};
ghost use Rattle.rr_cells.specs.FetchText.{comma};
ghost use Rattle.rr_cells.specs.Listing.{seen_cell};
ghost use Rattle.rr_directory.specs.Cells.{cell_numbers, cell_text, mask_text, number_text};

use itoa::Buffer;
use rr_cells::CellRef;
use rr_contrib::Mask;
use rr_fetch::prefix_of;
use std::alloc::{AllocError, Global};

/// The numbers of a cell, except its mask.
fn cell_numbers(cell: &CellRef<'_>) -> [i128; 10]
    ensures { result ≡ cell_numbers (seen_cell cell.now) }
{
    let contribution = &cell.contribution;
    [
        i128::from(cell.archive),
        i128::from(cell.slot),
        i128::from(cell.origin.get()),
        i128::from(contribution.version),
        i128::from(contribution.count),
        contribution.sum,
        i128::from(contribution.min),
        i128::from(contribution.max),
        i128::from(contribution.last_time),
        i128::from(contribution.last_value),
    ]
}

/// Adds a number and a comma.
fn push_number(text: &mut Vec<u8>, number: i128) -> Result<(), AllocError>
    ensures { OnOk result (text.new.items ≡ text.old.items ++ number_text number) }
{
    let mut buffer = Buffer::new();
    text.extend_from_slice(buffer.format(number).as_bytes())?;
    text.extend_from_slice(b",")
}

/// Adds numbers, with a comma after each.
fn push_numbers(text: &mut Vec<u8>, numbers: &[i128]) -> Result<(), AllocError>
    ensures { OnOk result (text.new.items ≡ text.old.items
        ++ flat_map number_text numbers.now) }
{
    for number in numbers {
        push_number(text, *number)?;
    }
    Ok(())
}

/// Adds a mask.
fn push_mask(alloc: Global, text: &mut Vec<u8>, mask: Mask) -> Result<(), AllocError>
    ensures { OnOk result (text.new.items ≡ text.old.items ++ mask_text mask) }
{
    let digits = hex::encode(alloc, &mask.to_be_bytes())?;
    text.extend_from_slice(digits.as_bytes())
}

/// Adds the record of a cell: its key text, archive, slot, origin, version, count, sum, least and
/// greatest value, last time and value in decimal, and its mask in 32 hexadecimal digits.
pub fn push_cell(alloc: Global, text: &mut Vec<u8>, cell: &CellRef<'_>) -> Result<(), AllocError>
    ensures { OnOk result (text.new.items ≡ text.old.items ++ cell_text (seen_cell cell.now)) }
{
    let prefix = prefix_of(alloc, cell.key.text())?;
    text.extend_from_slice(&prefix)?;
    push_numbers(text, &cell_numbers(cell))?;
    push_mask(alloc, text, cell.contribution.mask)?;
    text.extend_from_slice(b"\n")
}
