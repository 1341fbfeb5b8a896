//! A keeper's changes, committed to its journal.
//!
//! ```text
//! keeper ── changed cells ──> groups ──> records ── batches ──> journal, synced
//! ```
//!
//! [`commit_changes`] is what a node does before it acknowledges anything: it lists what changed in
//! the keeper since it was last written, series by series ([`change_records`]), commits the records
//! in as many batches as they take ([`commit_all`]), and tells the keeper that they are written. Its
//! contract is that the cells of the records lead from what was written to what the keeper holds,
//! those of a series in one record, and that they are synced; so by the laws of `rr_recovery` a
//! replay of the journal has them all, whatever a crash leaves after them.
#![tactic(auto)]

mod changes;
mod committing;
mod fault;
mod grouping;
mod keeper;
mod packing;
mod record;

pub use changes::change_records;
pub use committing::commit_all;
pub use fault::ChangesFault;
pub use keeper::commit_changes;
pub use record::{MAX_RECORD_CELLS, record_of};
