//! The shelf of a node: takes its snapshots, and says what its rounds did.
//!
//! ```text
//! PacedShelf ── a snapshot that is due ──> FileShelf ──> the file, in the place of the last one
//!     └──────── the counts of rounds ────> RoundLog ───> a line, a file of counts
//! ```
//!
//! Nothing is known of files.

mod file_shelf;
mod paced_shelf;
mod replaced;
mod round_log;
mod save_file;

pub use file_shelf::FileShelf;
pub(crate) use paced_shelf::PacedShelf;
pub(crate) use round_log::RoundLog;
