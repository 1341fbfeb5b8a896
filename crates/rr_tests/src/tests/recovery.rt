//! A replica from the bytes of a journal.
use super::journal::{schema, start};
use rr_archive::PlainArchive;
use rr_base::{Counted, Origin};
use rr_fakes::journals::RECORDS;
use rr_journal::Stop;
use rr_recovery::{Found, RecoveryFault, last_origin, replay};
use rr_replica::Replica;
use std::alloc::Global;

/// The result of a replay into a replica of an origin: how many cells it then has, why the replay
/// ended, after how many bytes, and whether as many cells were read as the journal's end says.
fn replayed(alloc: Global, origin: u16) -> Option<(usize, Result<Stop, RecoveryFault>, u64, bool)> {
    let schema = schema(alloc)?;
    let origin = Origin::new(origin).ok()?;
    let mut replica: Replica<PlainArchive> = Replica::new(alloc, &schema, origin).ok()?;
    let mut found = Found::new(alloc);
    let mut place = start();
    let mut input = Counted::new(RECORDS.as_slice());
    let answer = replay(
        alloc,
        &mut input,
        &mut place,
        &schema,
        &mut replica,
        &mut found,
    );
    Some((replica.cell_count(), answer, place.offset, found.is_whole()))
}

#[test]
fn a_replay_joins_the_cells_of_all_records(rt: HostRuntime) {
    let wanted = Some((6, Ok(Stop::End), 167, true));
    assert_eq!(rt; replayed(rt.alloc(), 9), wanted);
}

/// Why a replay ends early.
fn refused(alloc: Global, origin: u16) -> Option<RecoveryFault> {
    replayed(alloc, origin)?.1.err()
}

#[test]
fn an_origin_of_the_journal_is_refused(rt: HostRuntime) {
    let used = Some(RecoveryFault::OriginUsed);
    let of_a_cell = refused(rt.alloc(), 7);
    let of_a_record = refused(rt.alloc(), 1001);
    assert_eq!(rt; (of_a_cell, of_a_record), (used, used));
}

/// The origin of the last record of one, and why reading stopped.
fn last(alloc: Global) -> Option<(Stop, Option<Origin>)> {
    let schema = schema(alloc)?;
    let mut input = Counted::new(RECORDS.as_slice());
    last_origin(alloc, &mut input, &mut start(), &schema).ok()
}

#[test]
fn the_last_origin_is_that_of_its_record(rt: HostRuntime) {
    assert_eq!(rt; last(rt.alloc()), Some((Stop::End, Origin::new(1001).ok())));
}
