//! What a summary lacks, and parts of a list.
ghost use Rattle.std.specs.Prelude.{◌≡◌, ◌++◌, OnOk, map, take, drop};
ghost use Rattle.std.specs.FinMap.{entries};
ghost use Rattle.rr_cells.specs.Listing.{seen_cell, owned_cell};
ghost use Rattle.rr_delta.specs.Names.{owned_name};
ghost use Rattle.rr_delta.specs.Difference.{IsSummary, is_newer_than, newer_cell, newer_cells, names_from, first_version};
ghost use Rattle.rr_delta.specs.Listed.{ListsCells};

use crate::name::Name;
use rr_archive::Cells;
use rr_cells::{Cell, CellRef};
use rr_replica::{CellWalk, Replica};
use std::alloc::{AllocError, Global};

/// The names from the first one that isn't before a cell's.
fn names_from<'a>(names: &'a [Name], cell: &CellRef<'_>) -> &'a [Name]
    ensures { map owned_name result.now ≡ names_from (seen_cell cell.now).0
        (map owned_name names.now) }
{
    let mut left = names;
    while let [first, others @ ..] = left {
        if !first.cmp_cell(cell).is_lt() {
            return left;
        }
        left = others;
    }
    left
}

/// The version of the first of these names, if that is the cell's.
fn first_version(names: &[Name], cell: &CellRef<'_>) -> Option<u64>
    ensures { result ≡ first_version (seen_cell cell.now).0 (map owned_name names.now) }
{
    match names.first() {
        Some(name) => {
            if name.cmp_cell(cell).is_eq() {
                Some(name.version)
            } else {
                None
            }
        }
        None => None,
    }
}

/// Whether a version is greater than the known one, or none is known.
fn is_newer_than(known: Option<u64>, version: u64) -> bool
    ensures { result ≡ is_newer_than known version }
{
    match known {
        Some(known) => known < version,
        None => true,
    }
}

/// Adds a cell, if its version is greater than the known one, or none is known.
fn push_newer(
    cells: &mut Vec<Cell>,
    cell: &CellRef<'_>,
    known: Option<u64>,
) -> Result<(), AllocError>
    ensures { OnOk result (map owned_cell cells.new.items
        ≡ map owned_cell cells.old.items ++ newer_cell known (seen_cell cell.now)) }
{
    if is_newer_than(known, cell.contribution.version) {
        cells.push(cell.to_cell()?)?;
    }
    Ok(())
}

/// The cells of a replica whose name a summary lacks, or has with a smaller version, in the order
/// of their names. The names of the summary strictly ascend.
///
/// The replica and the summary are walked side by side: the cost is that of `CellWalk::next_cell`
/// for each cell, and linear in the summary.
pub fn difference<A: Cells>(
    alloc: Global,
    replica: &Replica<A>,
    summary: &[Name],
) -> Result<Vec<Cell>, AllocError>
    requires { IsSummary (map owned_name summary.now) }
    ensures { ListsCells replica.now.schema
        (newer_cells (map owned_name summary.now) (entries replica.now.cells)) result }
{
    // The proof needs the replica's invariant, which `schema` ensures.
    let _schema = replica.schema();
    let mut cells = Vec::new(alloc);
    let mut names = summary;
    let mut walk = CellWalk::new(alloc, replica);
    let mut next = replica.cell_at(0);
    while let Some(cell) = next {
        names = names_from(names, &cell);
        push_newer(&mut cells, &cell, first_version(names, &cell))?;
        next = walk.next_cell(cell.key, cell.archive, cell.slot, cell.origin);
    }
    Ok(cells)
}

/// The `count` cells of a list from an offset on; fewer if there are fewer, and none past the end.
/// The cost is constant.
pub fn part(list: &[Cell], from: usize, count: usize) -> &[Cell]
    ensures { result.now ≡ take count (drop from list.now) }
{
    let start = from.min(list.len());
    let len = count.min(list.len() - start);
    &list[start..start + len]
}
