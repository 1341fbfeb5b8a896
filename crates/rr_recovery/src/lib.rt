//! A replica from a journal.
//!
//! After a crash a node reads its checkpoint and its journal, file by file, into a replica of a new
//! origin. [`replay`] reads the records of one file until none is whole (`specs/Replaying.antt`),
//! and takes each (`specs/Taking.antt`): its cells are joined, and its origin, cursor or count is
//! kept in [`Found`]. One record is in memory at a time, and its cells are unpacked one by one.
//! [`last_origin`] goes through a file beforehand, so that the node can choose an origin that was
//! never used. [`laws`] states that the result is the join of all that the records hold, that any
//! prefix of a journal makes the map after its last whole record, and that what was synced is
//! there, whatever a crash left after it.
//!
//! ```text
//! file ── read_record ─> record ── decode ─> groups ── Decoder ─> cell ── join_cell_numbered ─> replica
//!                                 └─> origin, cursor, end ─> Found
//! ```
#![tactic(auto)]

mod fault;
mod found;
pub mod laws;
mod origins;
mod replaying;
mod step;
mod taking;

pub use fault::RecoveryFault;
pub use found::{Found, put_cursor};
pub use origins::last_origin;
pub use replaying::replay;
