//! The laws of updates, changes and checkpoints: functions with empty bodies, whose contracts state
//! them.

pub mod changes;
pub mod checkpoints;
pub mod updates;
