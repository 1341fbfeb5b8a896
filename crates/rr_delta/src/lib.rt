//! What one replica has and another lacks.
//!
//! A summary is a list of the names of cells, each with its version (`specs/Names.antt`), in the
//! order of the names. One side makes it with [`summary`], or in parts with [`summary_after`]; the
//! other side answers with [`difference`], the cells that the summary lacks or has with a smaller
//! version (`specs/Difference.antt`), and cuts it with [`part`]. Joining these cells is joining all
//! of the other side's ([`laws`]).
//!
//! A session that pulls cells knows its two sides only through two traits: a [`Target`] has a
//! summary and joins cells, a [`Source`] has a difference. A replica is both.
#![tactic(auto)]

mod differing;
pub mod laws;
mod listing;
mod name;
mod source;
mod target;

pub use differing::{difference, part};
pub use listing::{summary, summary_after};
pub use name::Name;
pub use source::Source;
pub use target::Target;
