//! Finite maps whose values are ordered and that can be joined: merged key by key, keeping the
//! greater value, and trimmed to the keys that are then live.
//!
//! The definitions are in `specs/Maps.antt`. For keys and values that tie only if they are equal,
//! and any horizon, the join is commutative and associative, its result is trimmed, and the join of
//! a map with itself only trims it (`laws`). [`join_max`] keeps the greater of two values, and
//! [`Join`] is what a type promises if its values are joined.
#![tactic(auto)]

mod join;
pub mod laws;
mod max;

pub use join::Join;
pub use max::join_max;
