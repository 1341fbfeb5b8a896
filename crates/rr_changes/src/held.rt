//! Cells that a replica already holds.
ghost use Rattle.std.specs.Prelude.{◌≡◌, true, Some};
ghost use Rattle.rr_archive.specs.CellSlots.{IsSlot};
ghost use Rattle.rr_cells.specs.CellBounds.{is_cell_of};
ghost use Rattle.rr_cells.specs.CellNames.{cell_name_cmp};
ghost use Rattle.rr_cells.specs.Listing.{owned_cell, seen_cell};
ghost use Rattle.rr_changes.specs.Held.{at_name, before_of};
ghost use Rattle.rr_changes.specs.Updates.{is_at_least, is_held};

use rr_archive::Cells;
use rr_cells::{Cell, CellRef};
use rr_replica::Replica;
use rr_schema::Origin;
use rr_text::limits::MAX_ORIGIN;
use std::cmp::Ordering;

/// The slot and origin number right before those of a cell.
fn before(cell: &Cell) -> (i64, u16)
    requires { IsSlot cell.now.slot }
    ensures { result ≡ before_of cell.now.slot cell.now.origin }
{
    let number = cell.origin.get();
    if number == 1 {
        (cell.slot - 1, MAX_ORIGIN)
    } else {
        (cell.slot, number - 1)
    }
}

/// Compares the name of a cell with that of another.
fn cmp_names(cell: &Cell, other: &CellRef<'_>) -> Ordering
    ensures { result ≡ cell_name_cmp (owned_cell cell.now).0 (seen_cell other.now).0 }
{
    let cell_slot = cell
        .slot
        .cmp(&other.slot)
        .then(cell.origin.cmp(&other.origin));
    cell.key
        .cmp(other.key)
        .then(cell.archive.cmp(&other.archive).then(cell_slot))
}

/// Whether `found` has the name of `cell` and contributes no less.
fn has_no_less(found: &CellRef<'_>, cell: &Cell) -> bool
    ensures { result ≡ is_at_least (at_name (owned_cell cell.now).0 (Some (seen_cell found.now)))
        cell.now.contribution }
{
    cmp_names(cell, found).is_eq() && cell.contribution.cmp(&found.contribution).is_le()
}

/// Whether a replica already holds a cell of its schema, so that joining it changes nothing: one of
/// its name is there that contributes no less. The cost is that of `Replica::next_cell`.
pub fn is_held<A: Cells>(replica: &Replica<A>, cell: &Cell) -> bool
    requires { is_cell_of replica.now.schema (owned_cell cell.now) ≡ true }
    ensures { result ≡ is_held replica.now.cells (owned_cell cell.now) }
{
    // The proof needs the invariants of the replica and the origin, which these ensure, and that
    // the time is one of 64 bits.
    let _schema = replica.schema();
    let _number = cell.origin.get();
    let _time = cell.contribution.last_time;
    let (slot, number) = before(cell);
    let Ok(origin) = Origin::new(number) else {
        return false;
    };
    match replica.next_cell(&cell.key, cell.archive, slot, origin) {
        Some(next) => has_no_less(&next, cell),
        None => false,
    }
}
