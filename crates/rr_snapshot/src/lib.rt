//! A replica's cells as a stream of bytes with a digest, and back.
//!
//! A snapshot (`specs/Snapshot.antt`) has a head, the cells of a replica, strictly ascending by
//! their names, and the SHA-256 digest of all of this. [`save`] writes it, one cell after the
//! other, so that only one cell of it is in memory. [`load`] reads it part by part up to the first
//! fault (`specs/SnapshotReading.antt`) and joins each cell into a replica of a new origin as it
//! comes (`specs/Loading.antt`), so that it too holds one cell's bytes at a time. [`laws`] states
//! that what is read is what was written, that no snapshot is a prefix of another, and that a saved
//! replica is loaded with the same cells.
//!
//! ```text
//! replica ── save ─> head_bytes, write_cell .., the digest ──> stream
//! stream ─── load ─> head_from, cell_from .., digest_from, end_from ──> replica of a new origin
//! ```
#![tactic(auto)]

mod ending;
mod fault;
mod fields;
mod heading;
pub mod laws;
mod loading;
mod saving;
mod stream;
mod writing;

pub use fault::{LoadFault, SaveFault};
pub use heading::MAX_SNAPSHOT_CELLS;
pub use loading::load;
pub use saving::save;
