//! What one origin contributes to one row of an archive.
//!
//! A [`Contribution`] sums up the samples of one origin in one slot: how many there are, their sum,
//! extremes and last value, and which places of the slot they fell in. It grows by one sample at a
//! time ([`Contribution::add`]), each of a greater number. Of two contributions of one origin to
//! one slot the greater knows more samples, so the greater is their [`rr_join::Join`]; and one from
//! elsewhere is taken only if it is valid ([`Contribution::is_valid`]).
//!
//! No call takes memory.
#![tactic(auto)]

mod contribution;
pub mod laws;

pub use contribution::{Contribution, Mask};
