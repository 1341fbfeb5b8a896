//! Repeated lines and texts of an input. A line `*N TEXT` stands for N lines of the text, and a
//! line `+N TEXT` for one that has the text N times.

use anyhow::{Context, Result};
use std::alloc::Global;

/// An input with its repeated lines and texts written out.
pub(crate) fn expanded(alloc: Global, input: &[u8]) -> Result<Vec<u8>> {
    let mut bytes = Vec::new(alloc);
    for line in input.split_inclusive(|byte| *byte == b'\n') {
        match line.first() {
            Some(b'*') => push_times(&mut bytes, line, line.len())?,
            Some(b'+') => {
                push_times(&mut bytes, line, line.len().saturating_sub(1))?;
                bytes.push(b'\n')?;
            }
            _ => bytes.extend_from_slice(line)?,
        }
    }
    Ok(bytes)
}

/// Adds the text between a line's count and a place in it, as often as the count says.
fn push_times(bytes: &mut Vec<u8>, line: &[u8], end: usize) -> Result<()> {
    let space = line
        .iter()
        .position(|byte| *byte == b' ')
        .context("a count without a text")?;
    let count = line.get(1..space).context("no count")?;
    let text = line.get(space.saturating_add(1)..end).context("no text")?;
    for _ in 0..str::from_utf8(count)?.parse::<u32>()? {
        bytes.extend_from_slice(text)?;
    }
    Ok(())
}
