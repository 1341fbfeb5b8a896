//! The laws: functions with empty bodies, whose contracts state them.

pub mod cells;
pub mod knowledge;
pub mod raising;
