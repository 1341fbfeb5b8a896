//! Replicas: what cases of calls can't show.
ghost use Rattle.std.specs.Prelude.{◌≡◌};

use rr_archive::Cells;
use rr_delta::{difference, summary};
use rr_fakes::replicas::{MINUTE, filled, minutes, one_sample};
use rr_key::SeriesKey;
use rr_packed::PackedArchive;
use rr_replica::Replica;
use rr_ring::RingArchive;
use std::alloc::Global;
use std::test::Fail;

/// The slot of the cell with this number; -1 if there is none.
fn slot_of<A: Cells>(replica: &Replica<A>, i: usize) -> i64 {
    let Some(cell) = replica.cell_at(i) else {
        return -1;
    };
    cell.slot
}

/// How many cells a million samples a minute apart leave, and the slots of the first and the tenth.
fn left_of_a_million<A: Cells>(alloc: Global) -> Result<(usize, i64, i64), Fail> {
    let replica = filled::<A>(alloc, 1, 10, 1_000_000)?;
    Ok((
        replica.cell_count(),
        slot_of(&replica, 0),
        slot_of(&replica, 9),
    ))
}

#[test]
fn a_million_samples_leave_ten_rows(rt: HostRuntime) -> Result<(), Fail> {
    let ring = left_of_a_million::<RingArchive>(rt.alloc())?;
    let packed = left_of_a_million::<PackedArchive>(rt.alloc())?;
    let all = (10, 999_990, 999_999);
    assert_eq!(rt; (ring, packed), (all, all));
    Ok(())
}

/// How many cells an archive of a series has, if a replica of one sample of `m v` lends it.
fn lent(alloc: Global, key: &[u8], archive: u8) -> Result<Option<usize>, Fail> {
    let replica = one_sample::<PackedArchive>(alloc, 1)?;
    let key = SeriesKey::parse_text(alloc, key)?;
    Ok(replica.archive(&key, archive).map(|it| it.cell_count()))
}

#[test]
fn a_replica_lends_the_archives_of_a_series(rt: HostRuntime) -> Result<(), Fail> {
    let found = lent(rt.alloc(), b"m v", 0)?;
    let past = lent(rt.alloc(), b"m v", 1)?;
    let unknown = lent(rt.alloc(), b"m w", 0)?;
    assert_eq!(rt; (found, past, unknown), (Some(1), None, None));
    Ok(())
}

/// Joins into a replica what it lacks and another of its schema has. Returns how many names it
/// listed, and how many cells it lacked.
fn join_lacking<A: Cells>(
    alloc: Global,
    replica: &mut Replica<A>,
    other: &Replica<A>,
) -> Result<(usize, usize), Fail>
    requires { replica.old.schema ≡ other.now.schema }
{
    let names = summary(alloc, replica, 0, 256)?;
    let cells = difference(alloc, other, &names)?;
    replica.join_cells(&cells)?;
    Ok((names.len(), cells.len()))
}

/// How many names a copy lists, how many cells it lacks that its original then has, and how many
/// the copy has once they are joined.
fn joined(alloc: Global) -> Result<((usize, usize), usize), Fail> {
    let mut replica = one_sample::<PackedArchive>(alloc, 1)?;
    let mut copy = replica.copy(alloc)?;
    replica.put(&SeriesKey::parse_text(alloc, b"m v")?, 2 * MINUTE, 9)?;
    let counts = join_lacking(alloc, &mut copy, &replica)?;
    Ok((counts, copy.cell_count()))
}

#[test]
fn a_copy_takes_what_it_lacks(rt: HostRuntime) -> Result<(), Fail> {
    let counts = joined(rt.alloc())?;
    assert_eq!(rt; counts, ((1, 1), 2));
    Ok(())
}
