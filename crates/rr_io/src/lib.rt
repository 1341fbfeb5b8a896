//! Streams that count failed calls, and one that fails.
//!
//! Code that reads or writes a stream wraps it in [`Counted`], which counts its reads and the calls
//! that failed, and calls the functions of [`stream`]: their contracts say which bytes moved, even
//! if they fail, and they fail only if the count of failures rose or can rise no more. A
//! [`Failing`] stands in for a stream in tests: one of its calls fails.
#![tactic(auto)]

mod counted;
mod failing;
pub mod stream;

pub use counted::Counted;
pub use failing::Failing;
