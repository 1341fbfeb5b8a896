//! Cells as bytes in hexadecimal, and changes of them ([`crate::changes`]). A first line `# version
//! N` says in which version they are read, if not in the latest.

use crate::changes;
use anyhow::{Result, bail};
use rr_base::{ArchiveSpec, Schema, SchemaFault};
use rr_cells::{Cell, CellRef};
use rr_page::{LATEST, Version, cell_bytes, read_cell};
use std::alloc::{AllocError, Global};

/// Three rows of one step, all of which must be known.
const THREE_ROWS: ArchiveSpec = ArchiveSpec {
    steps: 1,
    rows: 3,
    num: 0,
    den: 1,
};

/// The schema of the cells and pages: three one-minute rows.
pub(crate) fn minutes(alloc: Global) -> Result<Schema, SchemaFault> {
    Schema::new(alloc, 60, &[THREE_ROWS])
}

/// What each variant of the bytes is read as: its fault, or its fields, and whether they are
/// written as the same bytes again.
pub(crate) fn answers(alloc: Global, input: &[u8]) -> Result<Vec<u8>> {
    let schema = minutes(alloc)?;
    let (version, text) = version_of(str::from_utf8(input)?)?;
    let mut output = String::new(alloc);
    for bytes in &changes::variants(alloc, text)? {
        push_answer(alloc, &mut output, bytes, &schema, version)?;
    }
    Ok(output.into_bytes())
}

/// The version that a text is in, and its lines.
fn version_of(text: &str) -> Result<(Version, &str)> {
    match changes::setting(text, "version") {
        Some(("1", lines)) => Ok((Version::One, lines)),
        Some(("2", lines)) => Ok((Version::Two, lines)),
        Some(_) => bail!("an unknown version"),
        None => Ok((LATEST, text)),
    }
}

fn push_answer(
    alloc: Global,
    output: &mut String,
    bytes: &[u8],
    schema: &Schema,
    version: Version,
) -> Result<(), AllocError> {
    match read_cell(alloc, bytes, schema, version) {
        Ok((cell, len)) => push_read(alloc, output, &cell, bytes.split_at(len).0)?,
        Err(fault) => output.push_str(fault.name())?,
    }
    output.push('\n')
}

/// Adds the fields of a cell that was read from these bytes, and whether it is written as the same.
fn push_read(
    alloc: Global,
    output: &mut String,
    cell: &Cell,
    bytes: &[u8],
) -> Result<(), AllocError> {
    push_fields(output, cell)?;
    let is_same = cell_bytes(alloc, as_ref(cell))?.as_slice() == bytes;
    write!(
        output,
        ": {} bytes, {} again",
        bytes.len(),
        sameness(is_same)
    )
}

/// The word for bytes that are the same as others, or aren't.
pub(crate) fn sameness(is_same: bool) -> &'static str {
    if is_same { "the same" } else { "other" }
}

/// A cell as it is lent.
pub(crate) fn as_ref(cell: &Cell) -> CellRef<'_> {
    CellRef {
        key: &cell.key,
        archive: cell.archive,
        slot: cell.slot,
        origin: cell.origin,
        contribution: cell.contribution,
    }
}

/// Adds the key, the archive, the slot and the origin of a cell.
fn push_name(output: &mut String, cell: CellRef<'_>) -> Result<(), AllocError> {
    let key = str::from_utf8(cell.key.text()).unwrap_or("");
    let (archive, slot, origin) = (cell.archive, cell.slot, cell.origin.get());
    write!(output, "{key} {archive} {slot} {origin} ")
}

/// Adds the fields of a cell in order.
pub(crate) fn push_fields(output: &mut String, cell: &Cell) -> Result<(), AllocError> {
    push_name(output, as_ref(cell))?;
    let summary = cell.contribution;
    let (version, count, sum) = (summary.version, summary.count, summary.sum);
    let (min, max) = (summary.min, summary.max);
    write!(output, "{version} {count} {sum} {min} {max} ")?;
    let (time, value, mask) = (summary.last_time, summary.last_value, summary.mask);
    write!(output, "{time} {value} {mask}")
}
