//! Writes checkpoints.

use crate::files::tell;
use crate::node::shared::{Desired, Shared};
use rr_checkpoint::write_checkpoint;
use rr_desk::Reader;
use rr_directory::{Directory, FileName, start_of};
use rr_files::DataDirectory;
use rr_io::Counted;
use rr_journal::Cursor;
use rr_packed::PackedArchive;
use rr_reactor::Queues;
use std::alloc::{AllocError, Global};
use std::io;
use std::io::ErrorKind;
use std::rt::Files;
use std::sync::Wait;
use std::sync::atomic::{AtomicU64, Ordering};
use std::time::{Clock, Duration};

/// How many keys are read at a time.
const KEYS: usize = 1_000;

/// How many rounds, of at most a second each, pass between two counts of the series.
const ROUNDS: u64 = 10;

/// Writes checkpoints on a thread of its own. [`Files`] has associated types, which can't be shown
/// to be safe on any thread but the first; so what the others do with files is in this trait, which
/// has none.
pub trait Checkpointing {
    /// Writes a checkpoint that begins at a place, in the directory at a path, and removes the
    /// files that it makes needless. Returns its size in bytes.
    fn checkpoint(
        &self,
        alloc: Global,
        reader: &mut Reader<PackedArchive>,
        path: &str,
        begins: Cursor,
    ) -> io::Result<u64>;
}

impl Checkpointing for HostRuntime {
    fn checkpoint(
        &self,
        alloc: Global,
        reader: &mut Reader<PackedArchive>,
        path: &str,
        begins: Cursor,
    ) -> io::Result<u64> {
        let directory = DataDirectory::at(self, path);
        let bytes = write_checkpoint_file(alloc, reader, &directory, begins)?;
        remove_needless(alloc, &directory);
        Ok(bytes)
    }
}

/// Writes checkpoints on a thread of its own, while the node goes on.
#[derive(Drop)]
pub(crate) struct Checkpoints {
    pub(crate) alloc: Global,
    pub(crate) reader: Reader<PackedArchive>,
    pub(crate) shared: Shared,
    /// The directory.
    pub(crate) path: String,
    /// Where the journal ended when the series were last counted.
    pub(crate) counted: Option<u64>,
}

/// Writes a checkpoint that begins at a place, gives it its name, and returns its size in bytes.
/// What the journal has up to there was published before this was asked for, so a reader that
/// enters now sees it.
pub(crate) fn write_checkpoint_file<R: Files>(
    alloc: Global,
    reader: &mut Reader<PackedArchive>,
    directory: &DataDirectory<'_, R>,
    begins: Cursor,
) -> io::Result<u64> {
    let offset = begins.offset;
    let file = directory.create_checkpoint(alloc, offset)?;
    let mut output = Counted::new(file);
    if write_checkpoint(alloc, reader, &begins, &mut output).is_err() {
        directory.abandon_checkpoint(alloc, offset)?;
        return Err(io::Error::from(ErrorKind::WriteZero));
    }
    directory.finish_checkpoint(alloc, offset, output.into_inner())?;
    match directory.len(alloc, FileName::Checkpoint(offset)) {
        Ok(len) => Ok(len),
        Err(_) => Err(io::Error::from(ErrorKind::NotFound)),
    }
}

/// Removes the files that the newest checkpoint makes needless.
fn remove_needless<R: Files>(alloc: Global, directory: &DataDirectory<'_, R>) {
    let Ok(names) = directory.names(alloc) else {
        return;
    };
    let Ok(start) = start_of(alloc, &names) else {
        return;
    };
    for name in &start.needless {
        // What stays is removed with the next checkpoint.
        let _removed = directory.remove(alloc, *name);
    }
}

/// Writes a checkpoint in the directory at a path, and returns its size in bytes; a failure is
/// reported.
fn written<R: Checkpointing + Eprint>(
    rt: &R,
    alloc: Global,
    reader: &mut Reader<PackedArchive>,
    path: &str,
    begins: Cursor,
) -> Option<u64> {
    match rt.checkpoint(alloc, reader, path, begins) {
        Ok(bytes) => Some(bytes),
        Err(error) => {
            tell(rt, path, error);
            None
        }
    }
}

impl Checkpoints {
    /// Writes the checkpoint that is asked for.
    fn obey<R: Checkpointing + Eprint + Wait>(&mut self, rt: &R, begins: Cursor) {
        let (alloc, path) = (self.alloc, self.path.as_str());
        let bytes = written(rt, alloc, &mut self.reader, path, begins);
        let checkpoints: &Desired = &self.shared.checkpoints;
        checkpoints.end(rt, bytes);
    }

    /// How many series have a cell, unless memory runs out. Readers and the keeper go on meanwhile.
    fn series(&mut self) -> Result<u64, AllocError> {
        let mut count = 0u64;
        let mut after = None;
        for _ in 0..u64::MAX {
            let mut keys = self.reader.keys_after(self.alloc, after.as_ref(), KEYS)?;
            count = count.saturating_add(keys.len() as u64);
            let is_last = keys.len() < KEYS;
            after = keys.pop();
            if is_last {
                break;
            }
        }
        Ok(count)
    }

    /// Counts the series, once in ten rounds, if the journal has gone on since.
    fn count_series(&mut self, round: u64) {
        let end = Some(self.shared.journal_end.load(Ordering::SeqCst));
        if round % ROUNDS != 0 || end == self.counted {
            return;
        }
        if let Ok(count) = self.series() {
            let series: &AtomicU64 = &self.shared.series;
            series.store(count, Ordering::SeqCst);
            self.counted = end;
        }
    }

    /// Whether the node is ending.
    fn is_halted(&self) -> bool {
        let queues: &Queues = &self.shared.queues;
        queues.is_halted()
    }

    /// The next checkpoint asked for, if one is within a second.
    fn next<R: Wait + Clock>(&self, rt: &R) -> Option<Cursor> {
        let checkpoints: &Desired = &self.shared.checkpoints;
        checkpoints.begin(rt, Duration::from_secs(1))
    }

    /// Writes the checkpoints asked for, until the node ends.
    pub(crate) fn serve<R: Checkpointing + Eprint + Wait + Clock>(&mut self, rt: &R) {
        for round in 0..u64::MAX {
            self.count_series(round);
            if let Some(begins) = self.next(rt) {
                self.obey(rt, begins);
            } else if self.is_halted() {
                return;
            }
        }
    }
}
