//! The entries of one row, ascending by origin.
ghost use Rattle.std.specs.Prelude.{◌≡◌, ◌+◌, ◌++◌, ◌≤◌, map, length, is_none, vec_capacity, IfOk, IsOk, OnOk};
ghost use Rattle.std.specs.List.{find, position_from};
ghost use Rattle.rr_archive.specs.Row.{entry_at, is_from, is_after};
ghost use Rattle.rr_archive.specs.Changes.{Fits, entry_after};
ghost use Rattle.rr_archive.specs.Stored.{SetsEntry};

use crate::change::{Change, contribution_after};
use crate::entry::Entry;
use rr_contrib::Contribution;
use rr_schema::Origin;
use std::alloc::AllocError;

/// The number of the first entry whose origin is not below this one, if there is one.
fn first_from(row: &[Entry], origin: Origin) -> Option<usize>
    ensures { result ≡ position_from (is_from origin) 0 row.now }
{
    row.iter().position(|entry| origin <= entry.origin)
}

/// The contribution of an origin, if it has one.
fn entry_at(row: &[Entry], origin: Origin) -> Option<Contribution>
    ensures { result ≡ entry_at row.now origin }
{
    row.iter()
        .find(|entry| entry.origin == origin)
        .map(|entry| entry.contribution)
}

/// Whether an entry is in a later slot than an origin, or after the origin in the same slot.
pub fn is_after(entry: &Entry, is_later: bool, origin: Origin) -> bool
    ensures { result ≡ is_after is_later origin entry.now }
{
    is_later || origin < entry.origin
}

/// The first entry in a later slot than an origin, or the first after it in the same slot.
pub fn first_after(row: &[Entry], is_later: bool, origin: Origin) -> Option<Entry>
    ensures { result ≡ find (is_after is_later origin) row.now }
{
    row.iter()
        .find(|entry| is_after(entry, is_later, origin))
        .copied()
}

/// Adds the entries of a row to a list of cells, each with its slot. If the list has room for them,
/// it can't fail.
pub fn push_cells(cells: &mut Vec<(i64, Entry)>, slot: i64, row: &[Entry]) -> Result<(), AllocError>
    ensures added { OnOk result
        (cells.new.items ≡ cells.old.items ++ map (λ e. (slot, e)) row.now) }
    ensures capacity { vec_capacity cells.old ≤ vec_capacity cells.new }
    ensures room { length cells.old.items + length row.now ≤ vec_capacity cells.old → IsOk result }
{
    for entry in row {
        cells.push((slot, *entry))?;
    }
    Ok(())
}

/// Sets the entry of an origin.
fn set_entry(row: &mut Vec<Entry>, entry: Entry) -> Result<(), AllocError>
    ensures { SetsEntry entry row.old row.new result }
{
    let at = first_from(row, entry.origin).unwrap_or(row.len());
    if at < row.len() && row[at].origin == entry.origin {
        row[at] = entry;
        return Ok(());
    }
    row.insert(at, entry)?;
    Ok(())
}

/// Changes the entry of an origin, and returns whether it is new.
pub fn change_entry(
    row: &mut Vec<Entry>,
    origin: Origin,
    change: &Change,
) -> Result<bool, AllocError>
    requires { Fits (entry_at row.old.items origin) change.now }
    ensures sets { SetsEntry (entry_after row.old.items origin change.now) row.old row.new result }
    ensures is_new { IfOk result (λ is_new. is_new ≡ is_none (entry_at row.old.items origin)) }
{
    let known = entry_at(row, origin);
    let contribution = contribution_after(known, change);
    set_entry(
        row,
        Entry {
            origin,
            contribution,
        },
    )?;
    Ok(known.is_none())
}
