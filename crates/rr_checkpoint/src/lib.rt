//! A checkpoint, written while the node keeps running.
//!
//! A checkpoint is a file of the same form as the journal's, with all cells of the node. It begins
//! at a place in the journal, and whoever reads it and then the journal from there on holds what
//! the node holds: so the journal before it is needless.
//!
//! ```text
//! reader ── next cells ──> record ──> file        a header, records of all cells, and the end
//!    ^── what the keeper published meanwhile
//! ```
//!
//! [`write_checkpoint`] reads the cells from a [`rr_desk::Reader`], a record's at a time, each at
//! its own moment, so that neither lines nor fetches wait for more than that. [`is_due`] says when
//! a node begins a checkpoint. [`laws`] states that cells of different moments make the last map
//! with what was written since the first, and what a start makes of the file.
#![tactic(auto)]

mod due;
mod fault;
pub mod laws;
mod progress;
mod walk;
mod writing;

pub use due::is_due;
pub use fault::CheckpointFault;
pub use writing::write_checkpoint;
