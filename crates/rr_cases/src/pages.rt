//! Pages as bytes in hexadecimal, and changes of them ([`crate::changes`]). They are of three
//! one-minute rows, or if the first line is `# steps N` of two rows of N one-second steps.

use crate::cells::{minutes, push_fields, sameness};
use crate::changes;
use crate::printed::push_line;
use anyhow::Result;
use rr_base::{ArchiveSpec, Schema, SchemaFault};
use rr_cells::Cell;
use rr_page::{decode, encode};
use std::alloc::{AllocError, Global};

/// What each variant of the bytes is read as: its fault, or how many cells it has, whether they are
/// written as the same bytes again, and their fields.
pub(crate) fn answers(alloc: Global, input: &[u8]) -> Result<Vec<u8>> {
    let (steps, text) = steps_of(str::from_utf8(input)?)?;
    let schema = schema_of(alloc, steps)?;
    let mut output = String::new(alloc);
    for bytes in &changes::variants(alloc, text)? {
        push_answer(alloc, &mut output, bytes, &schema)?;
    }
    Ok(output.into_bytes())
}

/// How many steps a row has, if a text sets that, and its lines.
fn steps_of(text: &str) -> Result<(Option<u32>, &str)> {
    match changes::setting(text, "steps") {
        Some((steps, lines)) => Ok((Some(steps.parse()?), lines)),
        None => Ok((None, text)),
    }
}

/// The schema of the pages.
fn schema_of(alloc: Global, steps: Option<u32>) -> Result<Schema, SchemaFault> {
    match steps {
        Some(steps) => {
            let archive = ArchiveSpec {
                steps,
                rows: 2,
                num: 0,
                den: 1,
            };
            Schema::new(alloc, 1, &[archive])
        }
        None => minutes(alloc),
    }
}

fn push_answer(
    alloc: Global,
    output: &mut String,
    bytes: &[u8],
    schema: &Schema,
) -> Result<(), AllocError> {
    match decode(alloc, bytes, schema) {
        Ok(cells) => {
            let is_same = encode(alloc, schema, &cells)?.as_slice() == bytes;
            push_cells(output, &cells, is_same)
        }
        Err(fault) => push_line(output, fault.name()),
    }
}

/// Adds how many cells were read, whether they are written as the same bytes, and their fields.
fn push_cells(output: &mut String, cells: &[Cell], is_same: bool) -> Result<(), AllocError> {
    write!(
        output,
        "{} cells, {} bytes again\n",
        cells.len(),
        sameness(is_same)
    )?;
    for cell in cells {
        push_fields(output, cell)?;
        output.push('\n')?;
    }
    Ok(())
}
