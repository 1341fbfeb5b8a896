//! The program as a process: its words, an order obeyed over two streams, and how that ends.
//!
//! ```text
//! words ── read_order ──> an order ── obey ──┬── run_script ──> what a script prints ──> output
//!                                            └── check_lines ─> records and refusals ──> output
//! ```
//!
//! [`read_order`] reads the words of a process, and [`obey`] picks its streams, both through the
//! traits of a runtime, so that a test can stand in for the process. [`obey_order`] runs a script
//! ([`run_script`]) or checks lines ([`check_lines`]), from a reader to a writer, and its contract
//! says what is written: what the sample model prints for the script (`specs/Orders.antt`), or the
//! report of the lines (`specs/Report.antt`), which is written piece by piece as they come, and
//! whose records a writer of `csv` makes (`records`).
//! Wherever a run ends, what is written is a prefix of that. Streams are counted, so that one is
//! blamed only if a call of it failed ([`ToolFault`]).
//!
//! A run ends with status 0 if it is done, 1 if lines or a directory were refused, 2 if the command
//! line was, or what a node is told to begin with, and 3 if reading or writing failed, the input
//! took too many reads, an address was bad, memory ran out, or a node couldn't go on ([`Ending`]).
#![tactic(auto)]

mod check;
mod checker;
mod ending;
mod fault;
mod orders;
mod process;
mod records;
mod report;
mod script;
mod streams;
mod words;

pub use check::{check_lines, check_lines_within};
pub use ending::Ending;
pub use fault::ToolFault;
pub use orders::obey_order;
pub use process::{file_fault, obey, run};
pub use script::run_script;
pub use words::read_order;
