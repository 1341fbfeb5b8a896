//! The names and versions of a replica's cells, in order.
ghost use Rattle.std.specs.Prelude.{◌≡◌, IfOk, Some, map, take, drop};
ghost use Rattle.std.specs.FinMap.{entries};
ghost use Rattle.rr_cells.specs.Listing.{seen_cell};
ghost use Rattle.rr_delta.specs.Names.{name_in, named_version, owned_name, versions_of};
ghost use Rattle.rr_delta.specs.Listed.{ListsNames};
ghost use Rattle.rr_delta.specs.Summaries.{cells_after, cells_from};

use crate::name::Name;
use rr_archive::Cells;
use rr_cells::CellRef;
use rr_replica::{CellWalk, Replica};
use std::alloc::{AllocError, Global};

/// The names and versions of `count` cells from `first` on; fewer if there are fewer. The cost is
/// that of `CellWalk::next_cell` for each of them.
fn listed_from<'a, A: Cells>(
    alloc: Global,
    replica: &'a Replica<A>,
    first: &CellRef<'a>,
    count: usize,
) -> Result<Vec<Name>, AllocError>
    ensures { IfOk result (λ names. map owned_name names.items
        ≡ take count (map named_version (cells_from (Some (seen_cell first.now))
        (entries replica.now.cells)))) }
{
    let mut names = Vec::new(alloc);
    let mut walk = CellWalk::new(alloc, replica);
    let mut next = Some(CellRef {
        key: first.key,
        archive: first.archive,
        slot: first.slot,
        origin: first.origin,
        contribution: first.contribution,
    });
    for _ in 0..count {
        let Some(cell) = next else {
            return Ok(names);
        };
        names.push(Name::of(&cell)?)?;
        next = walk.next_cell(cell.key, cell.archive, cell.slot, cell.origin);
    }
    Ok(names)
}

/// The names and versions of `count` cells from an offset on, in the order of the names; fewer if
/// there are fewer.
///
/// The cost is that of `Replica::cell_at` for the first, and for each further one that of
/// `CellWalk::next_cell`.
pub fn summary<A: Cells>(
    alloc: Global,
    replica: &Replica<A>,
    from: usize,
    count: usize,
) -> Result<Vec<Name>, AllocError>
    ensures { ListsNames replica.now.schema (take count (drop from (versions_of replica.now.cells)))
        result }
{
    // The proof needs the replica's invariant, which `schema` ensures.
    let _schema = replica.schema();
    match replica.cell_at(from) {
        Some(first) => listed_from(alloc, replica, &first, count),
        None => Ok(Vec::new(alloc)),
    }
}

/// The names and versions of the next `count` cells after a name, or of the first ones if there is
/// none, in the order of the names; fewer if there are fewer. No cell needs to be at the name.
///
/// The cost is that of `Replica::next_cell` for the first, and for each further one that of
/// `CellWalk::next_cell`.
pub fn summary_after<A: Cells>(
    alloc: Global,
    replica: &Replica<A>,
    after: Option<&Name>,
    count: usize,
) -> Result<Vec<Name>, AllocError>
    ensures { ListsNames replica.now.schema
        (take count (map named_version (cells_after (name_in after.entry)
        (entries replica.now.cells)))) result }
{
    // The proof needs the replica's invariant, which `schema` ensures.
    let _schema = replica.schema();
    let Some(name) = after else {
        return summary(alloc, replica, 0, count);
    };
    match replica.next_cell(&name.key, name.archive, name.slot, name.origin) {
        Some(first) => listed_from(alloc, replica, &first, count),
        None => Ok(Vec::new(alloc)),
    }
}
