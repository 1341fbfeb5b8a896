//! The last file of a journal, to which a node appends.

use rr_journal::{Journal, JournalFailed, Key};
use std::fs::OpenFile;
use std::io;
use std::io::{Seek, SeekFrom, Write};

/// What may be done with a file.
#[derive(Clone, Copy, PartialEq, Eq)]
enum State {
    /// Everything.
    Whole,
    /// An append failed, and what it left must be cut off first.
    Torn,
    /// Nothing.
    Failed,
}

/// The last file of a journal. Nothing is known of what the system does with it, so contracts see
/// neither its text nor what of it is synced.
///
/// Each piece is handed to the system when it is appended, and nothing is held back: a full disk is
/// then a failed append, not a failed sync. A crash leaves the synced bytes, followed by anything
/// at all. After a failed append it accepts only `cut_back`, which restores the file to the last
/// sync, and goes on; after a failed sync or `cut_back` nobody knows what the disk has, so it
/// refuses everything from then on, and must be opened anew.
#[derive(Drop)]
pub struct JournalFile<F> {
    file: F,
    /// How many bytes were appended.
    len: u64,
    /// How many of these are synced.
    synced: u64,
    state: State,
    /// Whether it has no name any more.
    is_lost: bool,
    /// The key of its witnesses.
    key: Key,
}

impl<F: Write + Seek + OpenFile> JournalFile<F> {
    /// A file of this many bytes, all of them synced, to be appended to, with this key of its witnesses.
    pub(crate) fn new(file: F, len: u64, key: Key) -> JournalFile<F> {
        JournalFile {
            file,
            len,
            synced: len,
            state: State::Whole,
            is_lost: false,
            key,
        }
    }

    /// How many of its bytes are synced, including the header: no more may be given to a peer.
    pub fn synced_len(&self) -> u64 {
        self.synced
    }

    /// Notes whether it has lost its name, as when its folder is removed. Then no start finds what
    /// it has, so appends fail.
    pub fn set_lost(&mut self, is_lost: bool) {
        self.is_lost = is_lost;
    }

    /// Writes a piece at the end.
    fn take(&mut self, piece: &[u8]) -> io::Result<()> {
        self.file.write_all(piece)?;
        self.len = self.len.saturating_add(piece.len() as u64);
        Ok(())
    }

    /// Syncs everything. A file's length is synced with its data.
    fn sync_all(&mut self) -> io::Result<()> {
        self.file.sync_data()?;
        self.synced = self.len;
        Ok(())
    }

    /// Cuts off what isn't synced, and goes back to the end of the rest.
    fn cut(&mut self) -> io::Result<()> {
        self.file.set_len(self.synced)?;
        self.file.seek(SeekFrom::Start(self.synced))?;
        self.len = self.synced;
        Ok(())
    }

    /// The result of a call, after which the file is whole, or in the state `left`.
    fn answer(&mut self, done: io::Result<()>, left: State) -> Result<(), JournalFailed> {
        match done {
            Ok(()) => {
                self.state = State::Whole;
                Ok(())
            }
            Err(_) => {
                self.state = left;
                Err(JournalFailed)
            }
        }
    }
}

impl<F: Write + Seek + OpenFile> Journal for JournalFile<F> {
    ghost use Rattle.std.specs.Prelude.{None};

    ghost text = { λ j. None };

    ghost synced = { λ j. None };

    ghost key = { λ j. j.key.bytes };

    fn key(&self) -> Key {
        self.key
    }

    fn append(&mut self, piece: &[u8]) -> Result<(), JournalFailed> {
        if self.is_lost || self.state != State::Whole {
            return Err(JournalFailed);
        }
        let done = self.take(piece);
        self.answer(done, State::Torn)
    }

    fn sync(&mut self) -> Result<(), JournalFailed> {
        if self.state != State::Whole {
            return Err(JournalFailed);
        }
        let done = self.sync_all();
        self.answer(done, State::Failed)
    }

    fn cut_back(&mut self) -> Result<(), JournalFailed> {
        if self.state == State::Failed {
            return Err(JournalFailed);
        }
        let done = self.cut();
        self.answer(done, State::Failed)
    }
}
