//! The contents of a node's data directory, and a replica from them.
//!
//! A directory has files of the node's journal and checkpoints, each with an offset of the journal
//! in its name ([`FileName`]); other files aren't a node's. [`start_of`] says by their names alone
//! which of them a start reads, and which are needless. [`recover`] reads the former in order into
//! a replica of a new origin, over a [`Directory`], by [`rr_recovery::replay`]: each file begins
//! where the one before it ends, by the cursor in its header, and only the journal's last file may
//! end in a torn tail. [`Refusal`] names the first file that a node doesn't start from, and why.
//!
//! ```text
//! names ── start_of ──> checkpoint, journal, journal .. ── recover ──> replica, Recovered
//!                                        └── each: header ─> place ─> records ─> end
//! ```
//!
//! Before that, [`last_origin`] goes through the journal's files among these, and [`origin_named`]
//! reads the names of empty files that say which origins are taken, so that a node can choose an
//! origin above all of them, which was never used. For an operator, [`survey`] reads a file by
//! itself, under the schema that its own whole header names ([`own_schema`]), so that a damaged file
//! blames no other; [`push_report`], [`push_verdict`] and [`push_cell`] add a line each: what a file
//! has, whether the files join, and a cell.
//!
//! In `specs/` what files make of a replica is a function of their bytes, file by file
//! (`Reading.antt`).
#![tactic(auto)]

mod cells;
mod directory;
mod ending;
mod fault;
mod file;
pub mod laws;
mod memory;
mod name;
mod named_origin;
mod origins;
mod place;
mod raising;
mod recovered;
mod report;
mod schema;
mod start;
mod surveying;
mod tail;

pub use cells::push_cell;
pub use directory::{Directory, DirectoryFault};
pub use fault::{FileFault, Refusal};
pub use memory::{MemoryDirectory, MemoryFile};
pub use name::FileName;
pub use named_origin::{greatest_origin, origin_name, origin_named};
pub use origins::last_origin;
pub use raising::join_raised;
pub use recovered::{Recovered, empty_replica, recover};
pub use report::{FileEnding, FileReport, push_report, push_verdict};
pub use schema::{any_schema, first_schema, own_refusal, own_schema, schema_in, schema_of};
pub use start::{Start, start_of};
pub use surveying::survey;
