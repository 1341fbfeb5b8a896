//! Checkpoints written from a reader, and read back.
use super::journal::start;
use rr_base::{ArchiveSpec, Counted, Origin, Schema};
use rr_cells::Cell;
use rr_checkpoint::{CheckpointFault, write_checkpoint};
use rr_commit::commit_changes;
use rr_desk::{Keeper, Reader, open};
use rr_directory::{FileName, MemoryDirectory, MemoryFile, empty_replica, recover};
use rr_fakes::journals::KEY;
use rr_journal::{Cursor, MemoryJournal, header_bytes};
use rr_key::SeriesKey;
use rr_packed::PackedArchive;
use rr_replica::Replica;
use std::alloc::Global;
use std::sync::Wait;

/// A minute, in nanoseconds.
const MINUTE: i64 = 60_000_000_000;

/// The texts of the keys of three series.
const KEYS: [&[u8]; 3] = [b"a v", b"b,site=north v", b"b,site=south w"];

/// A schema of 300 one-minute rows, and as many five-minute rows.
fn schema(alloc: Global) -> Option<Schema> {
    let minutes = ArchiveSpec {
        steps: 1,
        rows: 300,
        num: 0,
        den: 1,
    };
    let fives = ArchiveSpec {
        steps: 5,
        ..minutes
    };
    Schema::new(alloc, 60, &[minutes, fives]).ok()
}

/// Puts a value of each series at each of these minutes, publishes all, and commits it to a file of
/// the journal that begins at the cursor. Returns the file.
fn filled<R: Wait>(
    rt: &R,
    alloc: Global,
    keeper: &mut Keeper<PackedArchive>,
    cursor: &mut Cursor,
    minutes: std::ops::Range<i64>,
) -> Option<Vec<u8>> {
    for minute in minutes {
        for text in KEYS {
            let key = SeriesKey::parse_text(alloc, text).ok()?;
            keeper.put(&key, minute.checked_mul(MINUTE)?, minute).ok()?;
        }
    }
    keeper.publish(rt).ok()?;
    let header = header_bytes(alloc, keeper.schema(), cursor).ok()?;
    let mut journal = MemoryJournal::new(header, KEY);
    commit_changes(alloc, keeper, &mut journal, cursor).ok()?;
    Vec::from_slice(alloc, journal.bytes()).ok()
}

/// The replica that a start makes from a checkpoint and a file of the journal at the same offset.
fn recovered(
    alloc: Global,
    offset: u64,
    checkpoint: &[u8],
    journal: &[u8],
) -> Option<Replica<PackedArchive>> {
    let files = [
        MemoryFile {
            name: FileName::Checkpoint(offset),
            bytes: checkpoint,
        },
        MemoryFile {
            name: FileName::Journal(offset),
            bytes: journal,
        },
    ];
    let names = [FileName::Checkpoint(offset), FileName::Journal(offset)];
    let schema = schema(alloc)?;
    let mut replica = empty_replica(alloc, &schema, Origin::new(9).ok()?).ok()?;
    let directory = MemoryDirectory::new(&files);
    recover(alloc, &directory, &names, &schema, None, &mut replica).ok()?;
    Some(replica)
}

/// Whether a replica has exactly these cells.
fn has_cells(replica: &Replica<PackedArchive>, cells: &[Cell]) -> bool {
    for (i, cell) in cells.iter().enumerate() {
        let Some(own) = replica.cell_at(i) else {
            return false;
        };
        let is_same = *own.key == cell.key
            && own.archive == cell.archive
            && own.slot == cell.slot
            && own.origin == cell.origin
            && own.contribution == cell.contribution;
        if !is_same {
            return false;
        }
    }
    replica.cell_count() == cells.len()
}

/// Whether a start from a checkpoint and the journal's file after it has what a reader gives.
fn is_read_back(
    alloc: Global,
    reader: &mut Reader<PackedArchive>,
    offset: u64,
    checkpoint: &[u8],
    journal: &[u8],
) -> Option<bool> {
    let cells = reader.cells_after(alloc, None, 10_000).ok()?;
    let replica = recovered(alloc, offset, checkpoint, journal)?;
    Some(has_cells(&replica, &cells))
}

/// How many cells a checkpoint has, and whether it is read back with nothing after it, and with
/// what was committed since.
fn written<R: Wait>(
    rt: &R,
    alloc: Global,
    keeper: &mut Keeper<PackedArchive>,
    reader: &mut Reader<PackedArchive>,
) -> Option<(u64, bool, bool)> {
    let mut cursor = start();
    let _before = filled(rt, alloc, keeper, &mut cursor, 0..200)?;
    let begins = cursor;
    let mut output = Counted::new(Vec::new(alloc));
    let cells = write_checkpoint(alloc, reader, &begins, &mut output).ok()?;
    let checkpoint = output.into_inner();
    let nothing = header_bytes(alloc, reader.schema(), &begins).ok()?;
    let alone = is_read_back(alloc, reader, begins.offset, &checkpoint, &nothing)?;
    let later = filled(rt, alloc, keeper, &mut cursor, 190..210)?;
    let both = is_read_back(alloc, reader, begins.offset, &checkpoint, &later)?;
    Some((cells, alone, both))
}

/// The same for a desk that was just opened.
fn found<R: Wait>(rt: &R, alloc: Global) -> Option<(u64, bool, bool)> {
    let replica = empty_replica(alloc, &schema(alloc)?, Origin::new(1).ok()?).ok()?;
    let (mut keeper, mut readers) = open(alloc, rt, replica, 1).ok()?;
    let found = match readers.pop() {
        Some(mut reader) => written(rt, alloc, &mut keeper, &mut reader),
        None => None,
    };
    keeper.close(rt);
    found
}

#[test]
fn a_checkpoint_is_read_back(rt: HostRuntime) {
    let found = found(&rt, rt.alloc());
    assert_eq!(rt; found, Some((720, true, true)));
}

/// Why a checkpoint of an empty desk isn't written, with room for this many bytes.
fn refused<R: Wait>(rt: &R, alloc: Global, room: usize) -> Option<CheckpointFault> {
    let replica = empty_replica::<PackedArchive>(alloc, &schema(alloc)?, Origin::new(1).ok()?);
    let mut bytes = vec![in alloc; 0u8; room].ok()?;
    let (keeper, mut readers) = open(alloc, rt, replica.ok()?, 1).ok()?;
    let refused = match readers.pop() {
        Some(mut reader) => {
            let mut output = Counted::new(bytes.as_mut_slice());
            write_checkpoint(alloc, &mut reader, &start(), &mut output).err()
        }
        None => None,
    };
    keeper.close(rt);
    refused
}

#[test]
fn a_checkpoint_needs_room_up_to_its_end(rt: HostRuntime) {
    let rooms = [0, 91, 92].map(|room: usize| refused(&rt, rt.alloc(), room));
    let failed = Some(CheckpointFault::WriteFailed);
    assert_eq!(rt; rooms, [failed, failed, None]);
}
