//! Writing packed cells.
ghost use Rattle.std.specs.Prelude.{◌≡◌, ℕ, ◌<◌, ◌≤◌, ◌+◌, ◌*◌, ◌^◌, ◌++◌, [], All, IfOk, OnOk, Ok, length};
ghost use Rattle.rr_codec.specs.Fields.{IsTyped, fields_of};
ghost use Rattle.rr_codec.specs.Reading.{packed_at};
ghost use Rattle.rr_codec.specs.Recent.{nothing_known};
ghost use Rattle.rr_codec.specs.Text.{cell_text, cells_text, next_known, packed_text};

use crate::fields::fields_of;
use crate::number::push_number;
use crate::recent::{Known, first_steps};
use crate::steps::push_steps;
use rr_archive::Entry;
use std::alloc::{AllocError, Global};

/// As many bytes as most lone cells take, so that these are packed without a growth.
const ROOM: usize = 48;

/// The nanoseconds of a second.
const NANOS: u128 = 1_000_000_000;

/// A guess at the nanoseconds of a row, to whole seconds, from the last times of the first and the
/// last cell. It decides how many bytes the cells take, not which cells are read.
fn guessed_span(cells: &[(i64, Entry)]) -> u128
    ensures { result < 2 ^ 128 }
{
    let (Some(first), Some(last)) = (cells.first(), cells.last()) else {
        return 0;
    };
    if last.0 <= first.0 {
        return 0;
    }
    let slots = u128::from(last.0.abs_diff(first.0)) * NANOS;
    let first_time = first.1.contribution.last_time;
    let nanos = u128::from(last.1.contribution.last_time.abs_diff(first_time));
    (nanos + slots / 2) / slots * NANOS
}

/// Adds a cell.
fn push_cell(bytes: &mut Vec<u8>, known: &mut Known, cell: &(i64, Entry)) -> Result<(), AllocError>
    ensures added { OnOk result (bytes.new.items
        ≡ bytes.old.items ++ cell_text known.old cell.now) }
    ensures next { OnOk result (known.new ≡ next_known known.old cell.now) }
    ensures typed { OnOk result (IsTyped cell.now) }
{
    let fields = fields_of(cell);
    match known.regular_steps_to(&fields) {
        Some(steps) => steps.push_to(bytes)?,
        None => push_steps(bytes, &known.steps_to(&fields))?,
    }
    known.add(&fields);
    Ok(())
}

/// Adds the first cell.
fn push_first(bytes: &mut Vec<u8>, span: u128, cell: &(i64, Entry)) -> Result<(), AllocError>
    ensures added { OnOk result (bytes.new.items
        ≡ bytes.old.items ++ cell_text (nothing_known span) cell.now) }
    ensures typed { OnOk result (IsTyped cell.now) }
{
    let fields = fields_of(cell);
    push_steps(bytes, &first_steps(span, &fields))
}

/// Adds cells one after the other.
fn push_each(bytes: &mut Vec<u8>, span: u128, cells: &[(i64, Entry)]) -> Result<(), AllocError>
    ensures added { OnOk result (bytes.new.items
        ≡ bytes.old.items ++ cells_text (nothing_known span) cells.now) }
    ensures typed { OnOk result (All IsTyped cells.now) }
{
    let mut known = Known::new(span);
    for cell in cells {
        push_cell(bytes, &mut known, cell)?;
    }
    Ok(())
}

/// Adds cells. For a single one, no room is made for what would be known before others.
fn push_cells(bytes: &mut Vec<u8>, span: u128, cells: &[(i64, Entry)]) -> Result<(), AllocError>
    ensures added { OnOk result (bytes.new.items
        ≡ bytes.old.items ++ cells_text (nothing_known span) cells.now) }
    ensures typed { OnOk result (All IsTyped cells.now) }
{
    if cells.len() == 1 {
        return push_first(bytes, span, &cells[0]);
    }
    push_each(bytes, span, cells)
}

/// The cells of an archive, fewer than 2^32 of them, as packed bytes. These are read as the same
/// cells, whatever follows them. The cost is linear in the cells and, for each, in the origins of
/// those before it, of which 16 are looked at.
///
/// A cell takes 1 byte if it is as expected. It takes 123 at most: 2 for the flags, 10 for each of
/// six fields of 64 bits, 19 each for the last time, the sum and the mask, 3 for the origin and 1
/// for its place.
pub fn encode(alloc: Global, cells: &[(i64, Entry)]) -> Result<Vec<u8>, AllocError>
    requires { length cells.now < 2 ^ 32 }
    ensures read { IfOk result (λ bytes. packed_at bytes.items ≡ Ok (cells.now, [])) }
    ensures text { IfOk result (λ bytes. (span : ℕ) × (span < 2 ^ 128)
        × (bytes.items ≡ packed_text span cells.now)) }
    ensures size { IfOk result (λ bytes. length bytes.items ≤ 24 + 123 * length cells.now) }
{
    let mut bytes = Vec::with_capacity(alloc, ROOM)?;
    let span = guessed_span(cells);
    push_number(&mut bytes, cells.len() as u128)?;
    push_number(&mut bytes, span)?;
    push_cells(&mut bytes, span, cells)?;
    Ok(bytes)
}
