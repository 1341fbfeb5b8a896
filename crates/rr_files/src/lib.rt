//! The files of a node's data directory, as a running node writes them.
//!
//! A directory has `lock`, the `key` of its journal's witnesses, journal files and checkpoints, each
//! with an offset of the journal in its name ([`rr_directory::FileName`]), an empty file for each
//! origin that was taken, and beside them, while one is written, a file of the same name ending in
//! `.new`. A [`DirectoryLock`] keeps other processes out. A [`DataDirectory`] is
//! what [`rr_directory::recover`] reads, and makes and removes files; a [`JournalFile`] is what a
//! node commits to.
//!
//! ```text
//! DataDirectory::open ── lock ──> names, open, len ──> recover
//!        ├── open_journal, create_journal ──> JournalFile ── append, sync, cut_back
//!        ├── create_checkpoint ── a writer ──> finish_checkpoint, or abandon_checkpoint
//!        ├── origins, name_origin: the names of origins
//!        └── read_at ──> bytes of a file, for a peer
//! ```
//!
//! What survives a crash rests on four rules, which no contract can state: a file's content
//! survives once the file is synced; a file that was being renamed has the old or the new name
//! after a crash; a name survives once its folder is synced; and a truncation is permanent once the
//! file is synced. So a new file gets its name only when it is whole and synced, and nothing relies
//! on it before the folder is synced too.
#![tactic(auto)]

mod bytes_at;
mod directory;
mod fault;
mod folder;
mod journal_file;
mod key;
mod lock;
mod origins;
mod tail;

pub use directory::{DataDirectory, DirectoryLock};
pub use fault::OpenFault;
pub use journal_file::JournalFile;
pub use key::key_in;
pub use lock::TryLock;
pub use tail::tail_of;
