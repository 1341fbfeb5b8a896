//! Joining cells from elsewhere into the archives of their keys.
ghost use Rattle.std.specs.Prelude.{◌≡◌, ◌≤◌, true, Some, slice_get};
ghost use Rattle.rr_text.specs.declared.limits.TheConstants.{MAX_NUMBER};
ghost use Rattle.rr_cells.specs.Cells.{IsTrimmed};
ghost use Rattle.rr_cells.specs.Joining.{next_after};
ghost use Rattle.rr_replica.specs.InMemory.{held_series, JoinsCell, SuitsEntries};
ghost use Rattle.rr_cells.specs.Listing.{owned_cell};
ghost use Rattle.rr_replica.specs.Numbered.{knows};
ghost use Rattle.rr_replica.specs.Series.{cells_of};
ghost use Rattle.rr_replica.specs.SeriesMap.{entries_of};

use crate::archives::{empty_archives, join_into};
use crate::series::SeriesMap;
use rr_archive::Cells;
use rr_cells::{Cell, Op};
use rr_schema::{Origin, Schema};
use std::alloc::{AllocError, Global};

/// Joins a cell into the archives of its key, whose series has this number, or into none.
#[inline(always)]
pub(crate) fn join_at<A: Cells>(
    series: &mut SeriesMap<A>,
    schema: &Schema,
    index: usize,
    cell: &Cell,
) -> Result<(), AllocError>
    requires suits { SuitsEntries A.row_limit schema.now (Op.Join cell.now)
        (entries_of series.old) }
    requires live { IsTrimmed schema.now (cells_of (held_series A.cells (entries_of series.old))) }
    requires key { slice_get series.old.keys.items index ≡ Some cell.now.key }
    ensures cell { JoinsCell A.cells A.row_limit A.is_ready schema.now cell.now
        (entries_of series.old) (entries_of series.new) result }
    ensures keys { series.new.keys.items ≡ series.old.keys.items }
{
    join_into(&mut series.archives[index], schema, cell)
}

/// Joins a cell into the archives of its key, or into none.
pub(crate) fn join_in<A: Cells>(
    series: &mut SeriesMap<A>,
    alloc: Global,
    schema: &Schema,
    cell: &Cell,
) -> Result<(), AllocError>
    requires suits { SuitsEntries A.row_limit schema.now (Op.Join cell.now)
        (entries_of series.old) }
    requires live { IsTrimmed schema.now (cells_of (held_series A.cells (entries_of series.old))) }
    ensures cell { JoinsCell A.cells A.row_limit A.is_ready schema.now cell.now
        (entries_of series.old) (entries_of series.new) result }
    ensures keys { knows series.old.keys.items cell.now.key ≡ true
        → series.new.keys.items ≡ series.old.keys.items }
{
    match series.find(&cell.key) {
        Some(index) => join_at(series, schema, index, cell),
        None => {
            let mut archives = empty_archives(alloc, schema)?;
            join_into(&mut archives, schema, cell)?;
            series.insert(&cell.key, archives)?;
            Ok(())
        }
    }
}

/// The next number, moved past the version of a cell of the replica's own origin.
pub(crate) fn next_after(origin: Origin, next: u64, cell: &Cell) -> u64
    requires { cell.now.contribution.version ≤ MAX_NUMBER }
    ensures { result ≡ next_after origin next (owned_cell cell.now) }
{
    if cell.origin == origin && next <= cell.contribution.version {
        cell.contribution.version + 1
    } else {
        next
    }
}
