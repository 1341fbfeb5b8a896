//! Schemas as TOML texts, with a line `---` between two.

use crate::printed::push_line;
use rr_base::{FromToml, Schema};
use std::alloc::{AllocError, Global};
use std::mem::replace;

/// The line between two texts.
const SEPARATOR: &[u8] = b"---\n";

/// The texts of a file.
pub(crate) fn texts(alloc: Global, input: &[u8]) -> Result<Vec<Vec<u8>>, AllocError> {
    let mut texts = Vec::new(alloc);
    let mut text = Vec::new(alloc);
    for line in input.split_inclusive(|byte| *byte == b'\n') {
        if line == SEPARATOR {
            texts.push(replace(&mut text, Vec::new(alloc)))?;
        } else {
            text.extend_from_slice(line)?;
        }
    }
    texts.push(text)?;
    Ok(texts)
}

/// For each text its schema in the words of a script's command `schema`, or why it is refused.
pub(crate) fn answers(alloc: Global, input: &[u8]) -> Result<Vec<u8>, AllocError> {
    let mut output = String::new(alloc);
    for text in &texts(alloc, input)? {
        push_answer(alloc, &mut output, text)?;
    }
    Ok(output.into_bytes())
}

fn push_answer(alloc: Global, output: &mut String, text: &[u8]) -> Result<(), AllocError> {
    match Schema::from_toml(alloc, text) {
        Ok(schema) => {
            push_schema(output, &schema)?;
            output.push('\n')
        }
        Err(fault) => push_line(output, fault.name()),
    }
}

/// Adds a schema in the words of the command.
pub(crate) fn push_schema(output: &mut String, schema: &Schema) -> Result<(), AllocError> {
    write!(output, "{}", schema.step())?;
    for archive in schema.archives() {
        let (steps, rows) = (archive.steps, archive.rows);
        write!(output, " {steps}:{rows}:{}/{}", archive.num, archive.den)?;
    }
    Ok(())
}
