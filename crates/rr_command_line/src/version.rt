//! The version of the program, wherever it is shown.

/// The version of the program, and of the pages and snapshots that it writes.
pub const VERSION: &str = "2";

/// The program and its version, as InfluxDB's clients are told them.
pub const PRODUCT: &str = "rr-2";
