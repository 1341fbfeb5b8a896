//! One archive of one series, packed: a row of one sample takes no more memory than its sample, and
//! finished rows are held as packed bytes.
//!
//! A [`PackedArchive`] holds the same cells as a `PlainArchive` or a `RingArchive`, and contracts
//! see it as the same map. Its rows are kept in blocks of 64 consecutive slots: the newest in
//! place, the older ones in a list in order of their numbers. A row without samples takes nothing.
//!
//! ```text
//! a slot ── its block's number ──> an own block ── a bit of its masks ──> a sample, or the entries
//!                                  one that was finished last ── a bit of its mask ──> a sample
//!                                  any other ── its cells from the first on ──> the entries
//! ```
//!
//! In a block that samples come to, a row of a single sample is held as that sample, a
//! [`LoneSample`](lone_sample::LoneSample), if its origin and its place are those of the block's
//! other lone samples. A lone sample stands for the contribution that `Contribution::first` makes
//! from it. Any other row is held as its entries.
//!
//! A finished block is held as [`PackedRows`](packed_rows::PackedRows): the bytes of its cells, as
//! `rr_codec` packs them. The one finished last also keeps its rows, as
//! [`FinishedRows`](finished_rows::FinishedRows), if each is a lone sample. Archives share a
//! finished block ([`HeldBlock`](held_block::HeldBlock)): one makes its own ready, and another
//! takes it in place of its own if both have the same rows, or are packed as the same bytes. So
//! rows of lone samples are packed once for all archives that take them in turn. Changing a
//! finished block copies its rows, or unpacks them.
//!
//! What is stored for a slot is one function (`specs/Blocks.antt`), and the cells are what it gives
//! for the live slots, in order.
#![tactic(auto)]

mod block;
mod blocks;
mod cells_left;
mod finished_rows;
mod finishing;
mod held_block;
mod lone_sample;
mod lookup;
mod mask;
mod packed_archive;
mod packed_rows;
mod row;
mod row_number;
mod rows;
mod sharing;
mod sparse;
mod walking;

pub use packed_archive::PackedArchive;
