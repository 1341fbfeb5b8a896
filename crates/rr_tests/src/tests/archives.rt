//! Archives through their trait: the calls that take memory succeed.
use rr_archive::{Cells, PlainArchive};
use rr_base::Origin;
use rr_contrib::Contribution;
use rr_packed::PackedArchive;
use rr_ring::RingArchive;
use std::alloc::{AllocError, Global};

/// An archive of three rows with a first sample in slot 1, for which room was made.
fn with_first<A: Cells>(alloc: Global, origin: Origin) -> Result<A, AllocError> {
    let mut archive = A::new(alloc, 3);
    archive.ready(1, origin)?;
    archive.put(1, origin, 1, 0, 60_000_000_000, 7)?;
    Ok(archive)
}

/// The number of cells, the newest slot and the last value there, in the copy of an archive that
/// had a sample put into it, with room made for it, and then a cell joined.
fn copied<A: Cells>(alloc: Global) -> Option<(usize, Option<i64>, Option<i64>)> {
    let origin = Origin::new(1).ok()?;
    let mut archive: A = with_first(alloc, origin).ok()?;
    let second = Contribution::first(2, 0, 120_000_000_000, 9);
    archive.join_cell(2, origin, &second).ok()?;
    let copy = archive.copy(alloc).ok()?;
    Some((copy.cell_count(), copy.newest(), last_value(alloc, &copy)))
}

/// The last value of the first cell in slot 2 of an archive.
fn last_value<A: Cells>(alloc: Global, archive: &A) -> Option<i64> {
    let mut row = Vec::new(alloc);
    archive.entries_into(2, &mut row).ok()?;
    row.first().map(|entry| entry.contribution.last_value)
}

/// Whether an archive of this kind takes both.
fn takes_both<A: Cells>(alloc: Global) -> bool {
    copied::<A>(alloc) == Some((2, Some(2), Some(9)))
}

#[test]
fn an_archive_takes_samples_and_cells(rt: HostRuntime) {
    let plain = takes_both::<PlainArchive>(rt.alloc());
    let ring = takes_both::<RingArchive>(rt.alloc());
    let packed = takes_both::<PackedArchive>(rt.alloc());
    assert_eq!(rt; (plain, ring, packed), (true, true, true));
}
