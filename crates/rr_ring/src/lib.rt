//! One archive of one series, as a ring of rows.
//!
//! A [`RingArchive`] holds the same cells as a `PlainArchive`, and is seen as the same map. Its
//! rows are stored by position: a slot's position is the slot modulo the rows, by floor division,
//! so no two live slots have the same one. A row is found by one division and no search, and the
//! row of a new slot overwrites one that is past the horizon by then.
//!
//! ```text
//! a slot ── position ──> a block of 64 rows ──> the stored row, if it is that slot's
//! ```
//!
//! The rows of a block are made at the first `ready`, `put` or `join_cell` that falls into it, so
//! an archive of many rows takes no more memory than a few blocks until they are written. What is
//! stored of a slot is one function (`specs/Ring.antt`), and the cells are what it gives for the
//! live slots, in order (`specs/RingCells.antt`).
#![tactic(auto)]

mod block;
mod ring;
mod ring_archive;
mod ring_rows;
mod stored_row;

pub use ring_archive::RingArchive;
