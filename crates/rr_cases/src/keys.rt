//! Key texts, one a line.

use rr_key::SeriesKey;
use std::alloc::{AllocError, Global};

/// For each line the text of the key that it is read as, or why it is refused.
pub(crate) fn answers(alloc: Global, input: &[u8]) -> Result<Vec<u8>, AllocError> {
    let mut output = Vec::new(alloc);
    for line in input.split_inclusive(|byte| *byte == b'\n') {
        let text = line.strip_suffix(b"\n").unwrap_or(line);
        match SeriesKey::parse_text(alloc, text) {
            Ok(key) => output.extend_from_slice(key.text())?,
            Err(fault) => output.extend_from_slice(fault.name().as_bytes())?,
        }
        output.push(b'\n')?;
    }
    Ok(output)
}
