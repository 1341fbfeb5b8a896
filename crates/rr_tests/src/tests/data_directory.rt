//! The files of a node's directory, on disk.
use super::journal::start;
use rr_base::{ArchiveSpec, Schema};
use rr_directory::{Directory, FileName};
use rr_fakes::journals::KEY;
use rr_files::{DataDirectory, JournalFile, OpenFault};
use rr_journal::Journal;
use std::alloc::Global;
use std::fs::{File, OpenFile};
use std::io::{Read, Seek, Write};
use std::rt::Files;
use std::{fs, io};

/// The first file of a journal.
const FIRST: FileName = FileName::Journal(0);

/// A new journal in a directory.
fn created<R: Files>(
    alloc: Global,
    directory: &DataDirectory<'_, R>,
) -> Option<JournalFile<R::File>> {
    let minutes = ArchiveSpec {
        steps: 1,
        rows: 3,
        num: 0,
        den: 1,
    };
    let schema = Schema::new(alloc, 60, &[minutes]).ok()?;
    directory.create_journal(alloc, &start(), &schema, KEY).ok()
}

/// How many bytes of a journal are synced, and how many are on disk.
fn lens<R: Files>(
    alloc: Global,
    directory: &DataDirectory<'_, R>,
    journal: &JournalFile<R::File>,
) -> Option<(u64, u64)> {
    Some((journal.synced_len(), directory.len(alloc, FIRST).ok()?))
}

/// These counts of a new journal; with a piece that isn't synced, and once it is; with much more,
/// and with that cut back; and opened again with a torn tail.
fn journal_lens<R: Files<File = File>>(rt: &R, alloc: Global) -> Option<[(u64, u64); 6]> {
    let (directory, _lock) = DataDirectory::open(rt, alloc, "journal-data").ok()?;
    let mut journal = created(alloc, &directory)?;
    let new = lens(alloc, &directory, &journal)?;
    journal.append(b"a piece").ok()?;
    let appended = lens(alloc, &directory, &journal)?;
    journal.sync().ok()?;
    let synced = lens(alloc, &directory, &journal)?;
    let much = vec![in alloc; 7u8; 100_000].ok()?;
    journal.append(&much).ok()?;
    let more = lens(alloc, &directory, &journal)?;
    journal.cut_back().ok()?;
    let cut_back = lens(alloc, &directory, &journal)?;
    let again = directory.open_journal(alloc, FIRST, 6, KEY).ok()?;
    Some([
        new,
        appended,
        synced,
        more,
        cut_back,
        lens(alloc, &directory, &again)?,
    ])
}

#[test]
fn a_journal_keeps_what_is_synced(rt: HostRuntime) {
    let lens = journal_lens(&rt, rt.alloc());
    let wanted = [
        (62, 62),
        (62, 69),
        (69, 69),
        (69, 100_069),
        (69, 69),
        (63, 63),
    ];
    assert_eq!(rt; lens, Some(wanted));
}

/// Whether opening a second directory at the same path is refused as in use.
fn is_in_use<R: Files<File = File>>(rt: &R, alloc: Global) -> bool {
    matches!(
        DataDirectory::open(rt, alloc, "checkpoint-data"),
        Err(OpenFault::InUse)
    )
}

/// How many files a directory has while a checkpoint is written, once it is finished, and once
/// another is left half written and the directory opened again; and whether it is in use before
/// that.
fn counts<R: Files<File = File>>(rt: &R, alloc: Global) -> Option<(usize, usize, usize, bool)> {
    let (directory, lock) = DataDirectory::open(rt, alloc, "checkpoint-data").ok()?;
    let mut output = directory.create_checkpoint(alloc, 5).ok()?;
    output.write_all(b"all cells").ok()?;
    let before = directory.names(alloc).ok()?.len();
    directory.finish_checkpoint(alloc, 5, output).ok()?;
    let after = directory.names(alloc).ok()?.len();
    let _left = directory.create_checkpoint(alloc, 6).ok()?;
    let is_in_use = is_in_use(rt, alloc);
    drop(lock);
    let _again = DataDirectory::open(rt, alloc, "checkpoint-data").ok()?;
    let files = fs::read_dir(&(rt, alloc), "checkpoint-data").ok()?.count();
    Some((before, after, files, is_in_use))
}

#[test]
fn a_checkpoint_has_its_name_when_it_is_whole(rt: HostRuntime) {
    assert_eq!(rt; counts(&rt, rt.alloc()), Some((0, 1, 2, true)));
}
