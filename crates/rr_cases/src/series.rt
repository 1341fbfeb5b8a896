//! The keys of series, as calls of a replica and of a desk list them.

use crate::printed::push_line;
use crate::words::Words;
use anyhow::Result;
use rr_key::SeriesKey;
use std::alloc::{AllocError, Global};

/// The words COUNT and KEY: how many keys, and after which, if there is one.
pub(crate) fn behind_of(alloc: Global, mut words: Words<'_>) -> Result<(usize, Option<SeriesKey>)> {
    let count = words.number()?;
    let text = words.rest();
    if text.is_empty() {
        return Ok((count, None));
    }
    let key = SeriesKey::parse_text(alloc, text.as_bytes())?;
    Ok((count, Some(key)))
}

/// A line for each key.
pub(crate) fn key_lines(alloc: Global, keys: &[SeriesKey]) -> Result<String, AllocError> {
    let mut lines = String::new(alloc);
    for key in keys {
        let text = str::from_utf8(key.text()).unwrap_or("");
        push_line(&mut lines, text)?;
    }
    Ok(lines)
}
