//! All cells, up to a limit at a time.
ghost use Rattle.std.specs.Prelude.{◌≡◌, ◌<◌, IfOk, map, vec_len};
ghost use Rattle.std.specs.FinMap.{entries};
ghost use Rattle.std.specs.Option.{option_map};
ghost use Rattle.rr_cells.specs.Listing.{owned_cell, seen_cell};
ghost use Rattle.rr_delta.specs.Listed.{ListsCells};
ghost use Rattle.rr_delta.specs.Summaries.{cells_after, cells_from};
ghost use Rattle.rr_changes.specs.Changes.{name_in, next_of};

use rr_archive::Cells;
use rr_cells::{Cell, CellRef};
use rr_replica::{CellWalk, Replica};
use std::alloc::{AllocError, Global};

/// The first cell after another, or of all.
fn first_after<'a, A: Cells>(replica: &'a Replica<A>, after: Option<&Cell>) -> Option<CellRef<'a>>
    ensures { cells_from (option_map seen_cell result) (entries replica.now.cells)
        ≡ cells_after (name_in after.entry) (entries replica.now.cells) }
{
    match after {
        Some(cell) => replica.next_cell(&cell.key, cell.archive, cell.slot, cell.origin),
        None => replica.cell_at(0),
    }
}

/// The next cells of a replica: the first ones after a cell in the order of names, or the first of
/// all; as many as `limit`, and fewer only if there are no more. So repeated calls, each after the
/// last cell of the one before, reach every cell that stays.
///
/// The cost is that of `Replica::next_cell` for the first of them, and for each further one that of
/// `CellWalk::next_cell`.
pub fn next_cells<A: Cells>(
    alloc: Global,
    replica: &Replica<A>,
    after: Option<&Cell>,
    limit: usize,
) -> Result<Vec<Cell>, AllocError>
    ensures { ListsCells replica.now.schema (next_of limit (name_in after.entry)
        (entries replica.now.cells)) result }
{
    // The proof needs the replica's invariant, which `schema` ensures.
    let _schema = replica.schema();
    let mut cells = Vec::new(alloc);
    let mut walk = CellWalk::new(alloc, replica);
    let mut next = first_after(replica, after);
    for _ in 0..limit {
        let Some(cell) = next else {
            return Ok(cells);
        };
        cells.push(cell.to_cell()?)?;
        next = walk.next_cell(cell.key, cell.archive, cell.slot, cell.origin);
    }
    Ok(cells)
}
