//! The trait through which a node writes a journal.

use crate::witness::Key;
use thiserror::Error;

/// A call of a journal failed.
#[derive(Clone, Copy, Debug, PartialEq, Eq, Error)]
#[error("the journal could not be written")]
pub struct JournalFailed;

/// Where a node writes records, so that they survive a crash.
///
/// Contracts see it as its text (the bytes written) and the part of it that is synced, where these
/// are known, and the key of its witnesses. A crash leaves what is synced, followed by anything at all.
pub trait Journal {
    ghost use Rattle.std.specs.Prelude.{◌≡◌, ℕ, List, OnOk, Option};
    ghost use Rattle.std.specs.Io.KnownBytes.{append_known};
    ghost use Rattle.rr_journal.specs.Keeping.{Grows};

    ghost text: { Self → Option (List ℕ) };

    ghost synced: { Self → Option (List ℕ) };

    ghost key: { Self → List ℕ };

    /// The key of its witnesses.
    fn key(&self) -> Key
        ensures { result.bytes ≡ key self.now };

    /// Appends a piece. If that fails, some of it may be written.
    fn append(&mut self, piece: &[u8]) -> Result<(), JournalFailed>
        ensures text { OnOk result (text self.new ≡ append_known (text self.old) piece.now) }
        ensures synced { synced self.new ≡ synced self.old };

    /// Makes everything written so far survive a crash. If that fails, some of it may.
    fn sync(&mut self) -> Result<(), JournalFailed>
        ensures text { text self.new ≡ text self.old }
        ensures whole { OnOk result (synced self.new ≡ text self.old) }
        ensures grows { Grows (synced self.old) (synced self.new) };

    /// Discards everything written since the last sync.
    fn cut_back(&mut self) -> Result<(), JournalFailed>
        ensures text { OnOk result (text self.new ≡ synced self.old) }
        ensures synced { synced self.new ≡ synced self.old };
}
