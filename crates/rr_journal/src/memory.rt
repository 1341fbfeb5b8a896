//! A journal in memory.

use crate::journal::{Journal, JournalFailed};
use crate::witness::Key;
use std::marker::Model;

/// A journal in memory, which tells its bytes and how many of them are synced.
#[derive(Drop)]
pub struct MemoryJournal {
    bytes: Vec<u8>,
    synced: usize,
    key: Key,
    /// How many calls are taken before one fails; if absent, none does.
    left: Option<u64>,
}

impl Model for MemoryJournal {
    ghost use Rattle.std.specs.Prelude.{◌≤◌, length};
    ghost use Rattle.rr_journal.specs.Keeping.{MemoryState};

    ghost Value = { MemoryState };

    ghost view = { λ j. record { bytes = j.bytes.items; synced = j.synced; key = j.key.bytes } };

    ghost invariant = { λ j. j.synced ≤ length j.bytes.items };
}

impl MemoryJournal {
    ghost use Rattle.std.specs.Prelude.{◌≡◌, length};

    /// A journal of these bytes, all of them synced, with this key and no failing call.
    pub fn new(bytes: Vec<u8>, key: Key) -> MemoryJournal
        ensures { result
            ≡ record { bytes = bytes.items; synced = length bytes.items; key = key.bytes } }
    {
        let synced = bytes.len();
        MemoryJournal {
            bytes,
            synced,
            key,
            left: None,
        }
    }

    /// The same, whose call after this many others fails.
    pub fn failing(self, calls: u64) -> MemoryJournal
        ensures { result ≡ self }
    {
        MemoryJournal {
            left: Some(calls),
            ..self
        }
    }

    /// All that was written.
    pub fn bytes(&self) -> &[u8]
        ensures { result.now ≡ self.now.bytes }
    {
        &self.bytes
    }

    /// How many of them are synced.
    pub fn synced(&self) -> usize
        ensures { result ≡ self.now.synced }
    {
        self.synced
    }

    /// Counts a call, and returns whether it is the one that fails.
    fn is_due(&mut self) -> bool
        ensures { self.new ≡ self.old }
    {
        match self.left {
            None => false,
            Some(0) => {
                self.left = None;
                true
            }
            Some(left) => {
                self.left = Some(left - 1);
                false
            }
        }
    }
}

impl Journal for MemoryJournal {
    ghost use Rattle.std.specs.Prelude.{Some};
    ghost use Rattle.rr_journal.specs.Keeping.{synced_bytes};

    ghost text = { λ j. Some j.bytes };

    ghost synced = { λ j. Some (synced_bytes j) };

    ghost key = { λ j. j.key };

    fn key(&self) -> Key {
        self.key
    }

    fn append(&mut self, piece: &[u8]) -> Result<(), JournalFailed> {
        if self.is_due() {
            let _some = self.bytes.extend_from_slice(&piece[..piece.len() / 2]);
            return Err(JournalFailed);
        }
        match self.bytes.extend_from_slice(piece) {
            Ok(()) => Ok(()),
            Err(_) => Err(JournalFailed),
        }
    }

    fn sync(&mut self) -> Result<(), JournalFailed> {
        if self.is_due() {
            return Err(JournalFailed);
        }
        self.synced = self.bytes.len();
        Ok(())
    }

    fn cut_back(&mut self) -> Result<(), JournalFailed> {
        if self.is_due() {
            return Err(JournalFailed);
        }
        self.bytes.truncate(self.synced);
        Ok(())
    }
}
