//! Lines of output.

use std::alloc::AllocError;
use std::fmt::Display;

/// Adds a line.
pub(crate) fn push_line<D: Display + Drop>(output: &mut String, line: D) -> Result<(), AllocError> {
    write!(output, "{line}\n")
}
