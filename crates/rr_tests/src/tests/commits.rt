//! A keeper's changes in its journal.
use super::journal::start;
use rr_base::{Counted, Origin};
use rr_commit::{ChangesFault, commit_changes};
use rr_desk::{Keeper, open};
use rr_fakes::journals::KEY;
use rr_fakes::replicas::{minutes, schema};
use rr_journal::{Cursor, MemoryJournal, Stop};
use rr_key::SeriesKey;
use rr_packed::PackedArchive;
use rr_recovery::{Found, replay};
use rr_replica::Replica;
use std::alloc::Global;
use std::sync::Wait;

/// A minute, in nanoseconds.
const MINUTE: i64 = 60_000_000_000;

/// Puts a sample of each of two series.
fn put_two(alloc: Global, keeper: &mut Keeper<PackedArchive>, time: i64) -> Option<()> {
    let first = SeriesKey::parse_text(alloc, b"a v").ok()?;
    let second = SeriesKey::parse_text(alloc, b"b v").ok()?;
    keeper.put(&first, time, 5).ok()?;
    keeper.put(&second, time, 6).ok()?;
    Some(())
}

/// How many cells a replica has after a replay of these records, why that ended, and after how many
/// bytes.
fn replayed(alloc: Global, records: &[u8]) -> Option<(usize, Stop, u64)> {
    let schema = schema(alloc, 3).ok()?;
    let origin = Origin::new(9).ok()?;
    let mut replica: Replica<PackedArchive> = Replica::new(alloc, &schema, origin).ok()?;
    let mut found = Found::new(alloc);
    let mut place = start();
    let mut input = Counted::new(records);
    let stop = replay(
        alloc,
        &mut input,
        &mut place,
        &schema,
        &mut replica,
        &mut found,
    );
    Some((replica.cell_count(), stop.ok()?, place.offset))
}

/// How many cells are read back of what a keeper committed, after a sample of each of two series
/// and then after a later one of each; how many series are then changed; why the reading stopped;
/// and whether all bytes were synced and read, up to the cursor.
fn committed(
    alloc: Global,
    keeper: &mut Keeper<PackedArchive>,
) -> Option<(usize, usize, Stop, bool)> {
    let mut journal = MemoryJournal::new(Vec::new(alloc), KEY);
    let mut cursor = start();
    put_two(alloc, keeper, 0)?;
    match commit_changes(alloc, keeper, &mut journal, &mut cursor) {
        Ok(()) => (),
        Err(_) => return None,
    }
    put_two(alloc, keeper, MINUTE)?;
    match commit_changes(alloc, keeper, &mut journal, &mut cursor) {
        Ok(()) => (),
        Err(_) => return None,
    }
    let bytes = journal.bytes();
    let (cells, stop, offset) = replayed(alloc, bytes)?;
    let changed = keeper.changed_series(alloc).ok()?.len();
    let is_whole = journal.synced() == bytes.len() && cursor.offset == bytes.len() as u64;
    Some((cells, changed, stop, is_whole && offset == cursor.offset))
}

/// The same for a keeper that was just opened.
fn read_back<R: Wait>(rt: &R, alloc: Global) -> Option<(usize, usize, Stop, bool)> {
    let (mut keeper, _readers) = open(alloc, rt, minutes(alloc, 1, 3).ok()?, 1).ok()?;
    let found = committed(alloc, &mut keeper);
    keeper.close(rt);
    found
}

#[test]
fn what_a_keeper_commits_is_read_back(rt: HostRuntime) {
    let found = read_back(&rt, rt.alloc());
    assert_eq!(rt; found, Some((4, 0, Stop::End, true)));
}

/// How a commit is refused by a journal whose first call fails, where the cursor then is, and how
/// many series have changed.
fn refused(
    alloc: Global,
    keeper: &mut Keeper<PackedArchive>,
) -> Option<(Option<ChangesFault>, Cursor, usize)> {
    let mut journal = MemoryJournal::new(Vec::new(alloc), KEY).failing(0);
    let mut cursor = start();
    put_two(alloc, keeper, 0)?;
    let fault = commit_changes(alloc, keeper, &mut journal, &mut cursor).err();
    let changed = keeper.changed_series(alloc).ok()?.len();
    Some((fault, cursor, changed))
}

/// This refusal for a keeper that was just opened.
fn not_written<R: Wait>(rt: &R, alloc: Global) -> Option<(Option<ChangesFault>, Cursor, usize)> {
    let (mut keeper, _readers) = open(alloc, rt, minutes(alloc, 1, 3).ok()?, 1).ok()?;
    let found = refused(alloc, &mut keeper);
    keeper.close(rt);
    found
}

#[test]
fn what_is_not_written_stays_to_be_committed(rt: HostRuntime) {
    let found = not_written(&rt, rt.alloc());
    assert_eq!(rt; found, Some((Some(ChangesFault::NotWritten), start(), 2)));
}
