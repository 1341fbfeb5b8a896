//! A replica under a schema with one more archive.
ghost use Rattle.std.specs.Prelude.{◌≡◌, ◌<◌, IfOk, OnOk};
ghost use Rattle.std.specs.FinMap.{entries};
ghost use Rattle.rr_schema.specs.Added.{HasAdded};
ghost use Rattle.rr_schema.specs.declared.added.Addition.TheVariants.{Archive};
ghost use Rattle.rr_cells.specs.CellBounds.{IsCellOf};
ghost use Rattle.rr_cells.specs.Joining.{with_named};
ghost use Rattle.rr_cells.specs.Listing.{owned_cell, seen_cell};
ghost use Rattle.rr_cells.specs.Raising.{raised, raised_cell};
ghost use Rattle.rr_replica.specs.ReplicaWithRoom.{replica_state};
ghost use Rattle.rr_directory.specs.Raising.{with_raised};

use rr_archive::Cells;
use rr_cells::{Cell, CellRef};
use rr_replica::{CellWalk, Replica};
use rr_text::limits::MAX_ARCHIVES;
use std::alloc::{AllocError, Global};

/// The number that an archive has once one more is added, with the number `added`.
fn raised(added: u8, archive: u8) -> u8
    requires { archive < MAX_ARCHIVES }
    ensures { result ≡ raised (Archive added) archive }
{
    if archive < added {
        archive
    } else {
        archive + 1
    }
}

/// A cell from before the archive `added`, with the number that its own archive has since.
fn raised_cell(added: u8, cell: &CellRef<'_>) -> Result<Cell, AllocError>
    requires { cell.now.archive < MAX_ARCHIVES }
    ensures { IfOk result (λ c. owned_cell c ≡ raised_cell (Archive added) (seen_cell cell.now)) }
{
    Ok(Cell {
        key: cell.key.copy()?,
        archive: raised(added, cell.archive),
        slot: cell.slot,
        origin: cell.origin,
        contribution: cell.contribution,
    })
}

/// Joins a cell from before the archive `added`.
fn join_one<A: Cells>(
    added: u8,
    cell: &CellRef<'_>,
    replica: &mut Replica<A>,
) -> Result<(), AllocError>
    requires few { cell.now.archive < MAX_ARCHIVES }
    requires of_schema { IsCellOf replica.old.schema (raised_cell (Archive added)
        (seen_cell cell.now)) }
    ensures joined { OnOk result (replica_state replica.new ≡ with_named
        (replica_state replica.old) (raised_cell (Archive added) (seen_cell cell.now))) }
    ensures schema { replica.new.schema ≡ replica.old.schema }
{
    let cell = raised_cell(added, cell)?;
    replica.join_cell(&cell)
}

/// Joins all cells of a replica into one whose schema has one more archive, with the number
/// `added`. That archive has none of the cells; the numbers of the archives after it are higher by
/// one than in the older replica.
///
/// If memory runs out, a prefix of the cells is joined. The cost is that of [`Replica::join_cell`]
/// for each cell.
pub fn join_raised<A: Cells>(
    alloc: Global,
    older: &Replica<A>,
    added: u8,
    replica: &mut Replica<A>,
) -> Result<(), AllocError>
    requires { HasAdded added replica.old.schema older.now.schema }
    ensures joined { OnOk result (replica_state replica.new
        ≡ with_raised added (replica_state replica.old) (entries older.now.cells)) }
    ensures schema { replica.new.schema ≡ replica.old.schema }
{
    // The proof needs the archives to be few, which this ensures.
    let _archives = older.schema().archives();
    let mut walk = CellWalk::new(alloc, older);
    let mut next = older.cell_at(0);
    for _ in 0..older.cell_count() {
        let Some(cell) = next else {
            return Ok(());
        };
        join_one(added, &cell, replica)?;
        next = walk.next_cell(cell.key, cell.archive, cell.slot, cell.origin);
    }
    match next {
        None => Ok(()),
        // There are more cells than memory has bytes.
        Some(_) => Err(AllocError),
    }
}
