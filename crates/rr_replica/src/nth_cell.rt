//! The cells of archives, in order.
ghost use Rattle.std.specs.Prelude.{◌≡◌, ◌+◌, ◌≤◌, length, map, Some, IfOk, IfErr, slice_get};
ghost use Rattle.rr_archive.specs.CellSlots.{cell_slot};
ghost use Rattle.rr_archive.specs.Cells.{cell_of};
ghost use Rattle.rr_cells.specs.Cells.{name_at};
ghost use Rattle.rr_replica.specs.Series.{cells_from, cells_of};
ghost use Rattle.rr_replica.specs.InMemory.{held_series};
ghost use Rattle.rr_replica.specs.SeriesMap.{entries_of};
ghost use Rattle.std.specs.List.{AllByRecursion};
ghost use Rattle.std.specs.Option.{option_map};
ghost use Rattle.std.specs.FinMap as fin;
ghost use Rattle.rr_cells.specs.Listing.{seen_cell, count_of, at_most_usize};

use crate::series::SeriesMap;
use rr_archive::{Cells, Entry};
use rr_cells::CellRef;
use rr_key::SeriesKey;
use rr_text::limits::MAX_ARCHIVES;

/// How many cells archives hold, added to `others`. It saturates.
pub(crate) fn count_in<A: Cells>(archives: &[A], others: usize) -> usize
    ensures { result ≡ at_most_usize (others + count_of (map A.cells archives.now)) }
{
    let mut count = others;
    for archive in archives {
        count = count.saturating_add(archive.cell_count());
    }
    count
}

/// A cell of an archive, with its key.
pub(crate) fn named(key: &SeriesKey, archive: u8, cell: (i64, Entry)) -> CellRef<'_>
    ensures { seen_cell result
        ≡ (name_at key.now archive (cell_slot cell.0 cell.1.origin), cell.1.contribution) }
{
    CellRef {
        key,
        archive,
        slot: cell.0,
        origin: cell.1.origin,
        contribution: cell.1.contribution,
    }
}

/// The cell of an archive with this number. An archive that holds fewer is skipped by its count.
fn nth_of<A: Cells>(archive: &A, number: usize) -> Option<(i64, Entry)>
    ensures { result ≡ option_map cell_of (slice_get (fin.entries (A.cells archive.now)) number) }
{
    if archive.cell_count() <= number {
        return None;
    }
    archive.cell_at(number)
}

/// The cell with this number among those of a key's archives, or else what is left of the number
/// after them.
pub(crate) fn nth_in<'a, A: Cells>(
    key: &'a SeriesKey,
    archives: &[A],
    number: usize,
) -> Result<CellRef<'a>, usize>
    requires { length archives.now ≤ MAX_ARCHIVES }
    ensures found { IfOk result (λ c. slice_get (cells_from key.now 0 (map A.cells archives.now))
        number ≡ Some (seen_cell c)) }
    ensures past { IfErr result (λ left. number ≡ count_of (map A.cells archives.now) + left) }
{
    let mut left = number;
    for i in 0..archives.len() {
        match nth_of(&archives[i], left) {
            Some(cell) => return Ok(named(key, i as u8, cell)),
            None => left -= archives[i].cell_count(),
        }
    }
    Err(left)
}

/// How many cells all series hold, as `count_in` counts.
pub(crate) fn count_cells<A: Cells>(series: &SeriesMap<A>) -> usize
    ensures { result ≡ at_most_usize (fin.len
        (cells_of (held_series A.cells (entries_of series.now)))) }
{
    let mut count = 0;
    for (_, index) in &series.indices {
        count = count_in(series.at(*index), count);
    }
    count
}

/// The cell with this number among those of all series.
pub(crate) fn nth_cell<A: Cells>(series: &SeriesMap<A>, number: usize) -> Option<CellRef<'_>>
    requires { AllByRecursion (λ e. length e.1.items ≤ MAX_ARCHIVES)
        (entries_of series.now) }
    ensures { option_map seen_cell result
        ≡ slice_get (fin.entries (cells_of (held_series A.cells (entries_of series.now)))) number }
{
    let mut left = number;
    for (key, index) in &series.indices {
        match nth_in(key, series.at(*index), left) {
            Ok(cell) => return Some(cell),
            Err(rest) => left = rest,
        }
    }
    None
}
