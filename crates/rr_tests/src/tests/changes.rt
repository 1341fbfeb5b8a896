//! What changed in a replica, listed archive by archive, and joined into another.
use rr_base::{ArchiveSpec, Origin, Schema};
use rr_cells::Cell;
use rr_changes::{ArchiveChanges, ChangeTracker};
use rr_key::SeriesKey;
use rr_replica::Replica;
use rr_ring::RingArchive;
use std::alloc::Global;

/// A minute, in nanoseconds.
const MINUTE: i64 = 60_000_000_000;

/// A replica of ten one-minute rows and ten five-minute rows.
fn replica(alloc: Global, origin: u16) -> Option<Replica<RingArchive>> {
    let minutes = ArchiveSpec {
        steps: 1,
        rows: 10,
        num: 0,
        den: 1,
    };
    let fives = ArchiveSpec {
        steps: 5,
        rows: 10,
        num: 0,
        den: 1,
    };
    let schema = Schema::new(alloc, 60, &[minutes, fives]).ok()?;
    Replica::new(alloc, &schema, Origin::new(origin).ok()?).ok()
}

/// The number of the series of a key.
fn series_of(replica: &Replica<RingArchive>, key: &SeriesKey) -> Option<usize> {
    for series in 0..replica.key_count() {
        if replica.key_numbered(series) == key {
            return Some(series);
        }
    }
    None
}

/// Puts a value at a minute, and tracks that.
fn put(
    replica: &mut Replica<RingArchive>,
    tracker: &mut ChangeTracker,
    key: &SeriesKey,
    minute: i64,
) -> Option<()> {
    let time = minute.checked_mul(MINUTE)?;
    replica.put(key, time, minute).ok()?;
    let series = series_of(replica, key)?;
    tracker.ready(series).ok()?;
    tracker.track(series, time);
    Some(())
}

/// Joins the cells that are listed of an archive of a series. Returns how many there are.
fn join_listed(
    copy: &mut Replica<RingArchive>,
    key: &SeriesKey,
    archive: u8,
    changes: &ArchiveChanges,
) -> Option<usize> {
    for (slot, entry) in changes.cells() {
        let cell = Cell {
            key: key.copy().ok()?,
            archive,
            slot: *slot,
            origin: entry.origin,
            contribution: entry.contribution,
        };
        copy.apply_cell(&cell).ok()?;
    }
    Some(changes.cells().len())
}

/// Joins all changes, and forgets them. Returns how many there were.
fn join_all(
    alloc: Global,
    replica: &Replica<RingArchive>,
    copy: &mut Replica<RingArchive>,
    tracker: &mut ChangeTracker,
) -> Option<usize> {
    let mut changes = ArchiveChanges::new(alloc);
    let mut joined = 0usize;
    for own in tracker.series(alloc, replica).ok()? {
        for archive in 0..replica.schema().archives().len() {
            changes.list(replica, &own, archive as u8).ok()?;
            let count = join_listed(copy, &own.key, archive as u8, &changes)?;
            joined = joined.saturating_add(count);
        }
    }
    tracker.clear();
    Some(joined)
}

/// Whether replicas have the same cells, whatever their origins.
fn have_same_cells(one: &Replica<RingArchive>, other: &Replica<RingArchive>) -> bool {
    for i in 0..one.cell_count() {
        let (Some(own), Some(its)) = (one.cell_at(i), other.cell_at(i)) else {
            return false;
        };
        let is_same = own.key == its.key
            && own.archive == its.archive
            && own.slot == its.slot
            && own.contribution == its.contribution;
        if !is_same {
            return false;
        }
    }
    one.cell_count() == other.cell_count()
}

/// How many changes two series of twenty minutes leave; then how many a new and a late minute of
/// one of them leave, with a third series; and whether the copy has all cells.
fn found(alloc: Global) -> Option<(usize, usize, bool)> {
    let mut replica = replica(alloc, 1)?;
    let mut copy = self::replica(alloc, 2)?;
    let mut tracker = ChangeTracker::new(alloc, MINUTE as u64);
    let first = SeriesKey::parse_text(alloc, b"a v").ok()?;
    let second = SeriesKey::parse_text(alloc, b"b v").ok()?;
    let third = SeriesKey::parse_text(alloc, b"c v").ok()?;
    for minute in 0..20 {
        put(&mut replica, &mut tracker, &first, minute)?;
        put(&mut replica, &mut tracker, &second, minute)?;
    }
    let whole = join_all(alloc, &replica, &mut copy, &mut tracker)?;
    put(&mut replica, &mut tracker, &third, 20)?;
    put(&mut replica, &mut tracker, &second, 20)?;
    put(&mut replica, &mut tracker, &second, 12)?;
    let later = join_all(alloc, &replica, &mut copy, &mut tracker)?;
    Some((whole, later, have_same_cells(&replica, &copy)))
}

#[test]
fn changes_bring_a_copy_up_to_date(rt: HostRuntime) {
    assert_eq!(rt; found(rt.alloc()), Some((28, 6, true)));
}
