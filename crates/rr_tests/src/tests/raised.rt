//! A replica under a schema with one more archive.
use rr_base::{ArchiveSpec, Origin, Schema};
use rr_directory::join_raised;
use rr_key::SeriesKey;
use rr_packed::PackedArchive;
use rr_replica::Replica;
use std::alloc::Global;
use std::test::Fail;

const MINUTES: ArchiveSpec = ArchiveSpec {
    steps: 1,
    rows: 10,
    num: 0,
    den: 1,
};

const FIVE: ArchiveSpec = ArchiveSpec {
    steps: 5,
    rows: 10,
    num: 0,
    den: 1,
};

/// How many cells a replica has, and the archive and the slot of the first; slot -1 if there is
/// none.
fn first_cell(replica: &Replica<PackedArchive>) -> (usize, u8, i64) {
    match replica.cell_at(0) {
        Some(cell) => (replica.cell_count(), cell.archive, cell.slot),
        None => (0, 0, -1),
    }
}

/// The first cell of a replica of five-minute rows with a sample ten minutes after the epoch, and
/// that of one that has one-minute rows too, into which the former's cells were joined.
fn raised(alloc: Global) -> Result<[(usize, u8, i64); 2], Fail> {
    let older = Schema::new(alloc, 60, &[FIVE])?;
    let schema = Schema::new(alloc, 60, &[MINUTES, FIVE])?;
    let mut replica: Replica<PackedArchive> = Replica::new(alloc, &older, Origin::new(9)?)?;
    replica.put(&SeriesKey::parse_text(alloc, b"m v")?, 600_000_000_000, 7)?;
    let mut raised: Replica<PackedArchive> = Replica::new(alloc, &schema, Origin::new(10)?)?;
    if let Some(added) = schema.added(replica.schema()) {
        join_raised(alloc, &replica, added, &mut raised)?;
    }
    Ok([first_cell(&replica), first_cell(&raised)])
}

#[test]
fn cells_are_raised_behind_an_archive_that_was_added(rt: HostRuntime) -> Result<(), Fail> {
    assert_eq!(rt; raised(rt.alloc())?, [(1, 0, 2), (1, 1, 2)]);
    Ok(())
}
