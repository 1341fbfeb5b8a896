//! The journal of a running node.

use rr_checkpoint::is_due;
use rr_directory::FileName;
use rr_files::{DataDirectory, JournalFile};
use rr_journal::Cursor;
use std::alloc::Global;
use std::fs::OpenFile;
use std::io::{Seek, Write};
use std::rt::Files;
use std::time::{Clock, Duration, Instant};

/// The journal of a node, and where its checkpoints stand.
#[derive(Drop)]
pub(crate) struct Logbook<F> {
    pub(crate) journal: JournalFile<F>,
    /// The name of its last file.
    pub(crate) name: FileName,
    /// When it was last seen whether that file has its name.
    pub(crate) seen: Option<Instant>,
    /// The end of the journal.
    pub(crate) cursor: Cursor,
    /// The offset from which on no checkpoint has been asked for.
    pub(crate) since: u64,
    /// The size of the newest checkpoint in bytes; 0 if there is none.
    pub(crate) checkpoint: u64,
    /// Whether a checkpoint is under way.
    pub(crate) is_asked: bool,
    /// The offset behind the last witness that was written because nothing else was; 0 if none was.
    pub(crate) witnessed: u64,
}

impl<F> Logbook<F> {
    /// Whether to begin a checkpoint.
    pub(crate) fn is_due(&self) -> bool {
        let journal = self.cursor.offset.saturating_sub(self.since);
        !self.is_asked && is_due(journal, self.checkpoint)
    }

    /// Whether something was written behind the last witness, so that nothing shows yet that it is
    /// synced.
    pub(crate) fn lacks_witness(&self) -> bool {
        self.cursor.offset != self.witnessed
    }
}

impl<F: Write + Seek + OpenFile> Logbook<F> {
    /// Whether to see if the file has its name: a second after the last time.
    fn is_unseen(&self, clock: &impl Clock) -> bool {
        let second = Duration::from_secs(1);
        match &self.seen {
            Some(seen) => seen.elapsed(clock).unwrap_or(second) >= second,
            None => true,
        }
    }

    /// Sees whether the journal's last file still has its name, at most once a second. If it hasn't,
    /// as when its folder was removed, nothing can be appended until it has.
    pub(crate) fn see<R: Files<File = F> + Clock>(&mut self, rt: &R, alloc: Global, path: &str) {
        if !self.is_unseen(rt) {
            return;
        }
        let is_there = DataDirectory::at(rt, path).has(alloc, self.name);
        self.journal.set_lost(!is_there);
        self.seen = Instant::now(rt).ok();
    }
}
