//! What a keeper's changes and a reader's cells bring to a copy.
use rr_cells::Cell;
use rr_changes::ArchiveChanges;
use rr_desk::{Keeper, Reader, open};
use rr_fakes::replicas::minutes;
use rr_key::SeriesKey;
use rr_packed::PackedArchive;
use rr_replica::Replica;
use std::alloc::Global;
use std::sync::Wait;

/// A minute, in nanoseconds.
const MINUTE: i64 = 60_000_000_000;

/// Joins cells into a copy. Returns how many there are, and the last of them.
fn join(copy: &mut Replica<PackedArchive>, cells: &[Cell]) -> Option<(usize, Option<Cell>)> {
    for cell in cells {
        copy.apply_cell(cell).ok()?;
    }
    match cells.last() {
        Some(last) => Some((cells.len(), Some(last.copy().ok()?))),
        None => Some((0, None)),
    }
}

/// Joins the cells that are listed of an archive of a series. Returns how many there are.
fn join_listed(
    copy: &mut Replica<PackedArchive>,
    key: &SeriesKey,
    archive: u8,
    changes: &ArchiveChanges,
) -> Option<usize> {
    for (slot, entry) in changes.cells() {
        let cell = Cell {
            key: key.copy().ok()?,
            archive,
            slot: *slot,
            origin: entry.origin,
            contribution: entry.contribution,
        };
        copy.apply_cell(&cell).ok()?;
    }
    Some(changes.cells().len())
}

/// Joins a keeper's changes into a copy, and tells it that they are written. Returns how many there
/// were.
fn bring_changes(
    alloc: Global,
    keeper: &mut Keeper<PackedArchive>,
    copy: &mut Replica<PackedArchive>,
) -> Option<usize> {
    let mut changes = ArchiveChanges::new(alloc);
    let mut joined = 0usize;
    for own in keeper.changed_series(alloc).ok()? {
        for archive in 0..keeper.schema().archives().len() {
            keeper.list_changes(&mut changes, &own, archive as u8).ok()?;
            let count = join_listed(copy, &own.key, archive as u8, &changes)?;
            joined = joined.saturating_add(count);
        }
    }
    keeper.changes_written();
    Some(joined)
}

/// Joins all that a reader sees into a copy, two cells at a time. Returns how many there were.
fn bring_all(
    alloc: Global,
    reader: &mut Reader<PackedArchive>,
    copy: &mut Replica<PackedArchive>,
) -> Option<usize> {
    let mut joined = 0usize;
    let mut after = None;
    for _ in 0..20 {
        let cells = reader.cells_after(alloc, after.as_ref(), 2).ok()?;
        let (count, last) = join(copy, &cells)?;
        joined = joined.saturating_add(count);
        after = last;
        if count < 2 {
            return Some(joined);
        }
    }
    None
}

/// Joins the first cell of a copy back into its keeper.
fn join_back(keeper: &mut Keeper<PackedArchive>, copy: &Replica<PackedArchive>) -> Option<()> {
    let Some(cell) = copy.cell_at(0) else {
        return None;
    };
    let cell = cell.to_cell().ok()?;
    if !cell.is_of(keeper.schema()) {
        return None;
    }
    keeper.join_cell(&cell).ok()
}

/// How many changes three samples of two series make; how many a cell that is joined back makes,
/// and how many one more sample; and how many cells a reader then gives.
fn counts<R: Wait>(
    rt: &R,
    alloc: Global,
    keeper: &mut Keeper<PackedArchive>,
    reader: &mut Reader<PackedArchive>,
    copy: &mut Replica<PackedArchive>,
    seen: &mut Replica<PackedArchive>,
) -> Option<[usize; 4]> {
    let first = SeriesKey::parse_text(alloc, b"a v").ok()?;
    let second = SeriesKey::parse_text(alloc, b"b v").ok()?;
    keeper.put(&first, 0, 5).ok()?;
    keeper.put(&second, 0, 6).ok()?;
    keeper.put(&second, MINUTE, 7).ok()?;
    let new = bring_changes(alloc, keeper, copy)?;
    join_back(keeper, copy)?;
    let none = bring_changes(alloc, keeper, copy)?;
    keeper.put(&second, MINUTE, 8).ok()?;
    let later = bring_changes(alloc, keeper, copy)?;
    keeper.publish(rt).ok()?;
    Some([new, none, later, bring_all(alloc, reader, seen)?])
}

/// These counts, and how many cells in the end a copy made of changes has, and one made of what a
/// reader sees.
fn found<R: Wait>(rt: &R, alloc: Global) -> Option<([usize; 4], [usize; 2])> {
    let mut copy = minutes(alloc, 2, 3).ok()?;
    let mut seen = minutes(alloc, 3, 3).ok()?;
    let (mut keeper, mut readers) = open(alloc, rt, minutes(alloc, 1, 3).ok()?, 1).ok()?;
    let counts = match readers.first_mut() {
        Some(reader) => counts(rt, alloc, &mut keeper, reader, &mut copy, &mut seen),
        None => None,
    };
    keeper.close(rt);
    Some((counts?, [copy.cell_count(), seen.cell_count()]))
}

#[test]
fn changes_of_a_keeper_bring_a_copy_up_to_date(rt: HostRuntime) {
    let counts = found(&rt, rt.alloc());
    assert_eq!(rt; counts, Some(([3, 0, 1, 3], [3, 3])));
}
