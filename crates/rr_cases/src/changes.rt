//! Bytes in hexadecimal, and changes of them. The first line of a text has the bytes; each further
//! line has an offset from 0, a space, and the bytes that stand there instead, or `end` if the
//! bytes end there. A line before these may set what the bytes are read as.

use anyhow::{Context, Result};
use std::alloc::Global;

/// The value that the first line gives a name, as `# NAME VALUE`, and the lines after it.
pub(crate) fn setting<'a>(text: &'a str, name: &str) -> Option<(&'a str, &'a str)> {
    let (line, lines) = text.split_once('\n')?;
    let (given, value) = line.strip_prefix("# ")?.split_once(' ')?;
    if given == name {
        Some((value, lines))
    } else {
        None
    }
}

/// The bytes, and then the bytes with each of the changes.
pub(crate) fn variants(alloc: Global, text: &str) -> Result<Vec<Vec<u8>>> {
    let mut lines = text.lines();
    let bytes = hex::decode(alloc, lines.next().context("an empty file")?)?;
    let mut variants = Vec::new(alloc);
    for line in lines {
        variants.push(with_change(alloc, &bytes, line)?)?;
    }
    variants.insert(0, bytes)?;
    Ok(variants)
}

/// The bytes with the change of a line.
fn with_change(alloc: Global, bytes: &[u8], line: &str) -> Result<Vec<u8>> {
    let (at, change) = line.split_once(' ').context("a line without a space")?;
    changed_at(alloc, bytes, at.parse()?, change)
}

/// The bytes with some changed from an offset on.
fn changed_at(alloc: Global, bytes: &[u8], at: usize, change: &str) -> Result<Vec<u8>> {
    let (prefix, back) = bytes
        .split_at_checked(at)
        .context("an offset past the end")?;
    if change == "end" {
        return Ok(Vec::from_slice(alloc, prefix)?);
    }
    let change = hex::decode(alloc, change)?;
    let rest = back.get(change.len()..).unwrap_or(&[]);
    Ok([prefix, change.as_slice(), rest].concat(alloc)?)
}
