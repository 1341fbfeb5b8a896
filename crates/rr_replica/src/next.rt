//! The first cell after a name.
ghost use Rattle.std.specs.Prelude.{◌≡◌, ◌≤◌, length, map, drop, slice_get, Some, IfSome, IsTrue};
ghost use Rattle.std.specs.List.{AllByRecursion};
ghost use Rattle.std.specs.Option.{option_map};
ghost use Rattle.std.specs.Ordering.{is_le};
ghost use Rattle.rr_text.specs.Bytes.{bytes_cmp};
ghost use Rattle.rr_replica.specs.InMemory.{held_series};
ghost use Rattle.rr_replica.specs.SeriesMap.{entries_of};
ghost use Rattle.rr_cells.specs.Listing.{seen_cell, first_after, next_cell};
ghost use Rattle.rr_replica.specs.Listing.{seen_name};
ghost use Rattle.rr_replica.specs.Runs.{IsNextOfAll};
ghost use Rattle.rr_replica.specs.Series.{cells_from, cells_of};

use crate::nth_cell::named;
use crate::series::SeriesMap;
use rr_archive::Cells;
use rr_cells::CellRef;
use rr_key::SeriesKey;
use rr_schema::Origin;
use rr_text::limits::MAX_ARCHIVES;

/// The name of a cell.
#[derive(Clone, Copy)]
pub(crate) struct NameRef<'a> {
    pub(crate) key: &'a SeriesKey,
    pub(crate) archive: u8,
    pub(crate) slot: i64,
    pub(crate) origin: Origin,
}

/// An archive of a key, by its number.
#[derive(Drop)]
pub(crate) struct KeyArchive<'a, A: Drop> {
    pub(crate) key: &'a SeriesKey,
    pub(crate) number: u8,
    pub(crate) archive: &'a A,
}

/// The first cell of a key's archives from number `first` on.
fn first_from<'a, A: Cells>(key: &'a SeriesKey, archives: &[A], first: usize) -> Option<CellRef<'a>>
    requires { length archives.now ≤ MAX_ARCHIVES }
    ensures { option_map seen_cell result
        ≡ slice_get (cells_from key.now first (drop first (map A.cells archives.now))) 0 }
{
    for i in first..archives.len() {
        if let Some(cell) = archives[i].cell_at(0) {
            return Some(named(key, i as u8, cell));
        }
    }
    None
}

/// The first cell after a name among those of a key that is not before the name's.
fn next_in<'a, A: Cells>(
    key: &'a SeriesKey,
    archives: &[A],
    name: &NameRef<'_>,
) -> Option<CellRef<'a>>
    requires not_before { IsTrue (is_le (bytes_cmp name.now.key.now key.now)) }
    requires few_archives { length archives.now ≤ MAX_ARCHIVES }
    ensures { option_map seen_cell result
        ≡ first_after (seen_name name.now) (cells_from key.now 0 (map A.cells archives.now)) }
{
    if key != name.key {
        return first_from(key, archives, 0);
    }
    let own = name.archive as usize;
    if own >= archives.len() {
        return None;
    }
    match archives[own].next_cell(name.slot, name.origin) {
        Some(cell) => Some(named(key, name.archive, cell)),
        None => first_from(key, archives, own + 1),
    }
}

/// The archive of a key by number, if it has one, found by the hash of the key. The cell that is
/// next there is the next one of all.
pub(crate) fn key_archive<'a, A: Cells>(
    series: &'a SeriesMap<A>,
    key: &SeriesKey,
    number: u8,
) -> Option<KeyArchive<'a, A>>
    ensures key { IfSome result (λ own. own.key.now ≡ key.now) }
    ensures number { IfSome result (λ own. own.number ≡ number) }
    ensures next { IfSome result (λ own. IsNextOfAll
        (cells_of (held_series A.cells (entries_of series.now))) own.key.now own.number
        (A.cells own.archive.now)) }
{
    let (key, archives) = series.known(key)?;
    let index = number as usize;
    if index >= archives.len() {
        return None;
    }
    Some(KeyArchive {
        key,
        number,
        archive: &archives[index],
    })
}

/// The first cell after a name in its own archive, if that has one.
fn next_in_own<'a, A: Cells>(series: &'a SeriesMap<A>, name: &NameRef<'_>) -> Option<CellRef<'a>>
    ensures { IfSome result (λ c. next_cell
        (cells_of (held_series A.cells (entries_of series.now))) (seen_name name.now)
        ≡ Some (seen_cell c)) }
{
    let own = key_archive(series, name.key, name.archive)?;
    let cell = own.archive.next_cell(name.slot, name.origin)?;
    Some(named(own.key, own.number, cell))
}

/// The first cell after a name among those of all series. No series before the name's key is walked
/// over, and the tree of the keys is searched only if the name's archive has no further cell.
pub(crate) fn next_cell<'a, A: Cells>(
    series: &'a SeriesMap<A>,
    name: &NameRef<'_>,
) -> Option<CellRef<'a>>
    requires { AllByRecursion (λ e. length e.1.items ≤ MAX_ARCHIVES)
        (entries_of series.now) }
    ensures { option_map seen_cell result
        ≡ next_cell (cells_of (held_series A.cells (entries_of series.now))) (seen_name name.now) }
{
    if let Some(cell) = next_in_own(series, name) {
        return Some(cell);
    }
    for (key, index) in series.indices.range(name.key..) {
        if let Some(cell) = next_in(key, series.at(*index), name) {
            return Some(cell);
        }
    }
    None
}
