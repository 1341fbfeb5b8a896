//! Scripts. A first line `# growths N` has the growth after N others refused.

use crate::changes::setting;
use crate::growths::{begin, end};
use anyhow::Result;
use rr_archive::Cells;
use rr_cluster::{RunFault, run_on};
use std::alloc::Global;

/// What a script prints, or a line that says so if memory runs out.
pub(crate) fn answers<A: Cells>(alloc: Global, input: &[u8]) -> Result<Vec<u8>> {
    let growths = growths_of(input)?;
    begin(alloc, growths);
    let output = run_on::<A>(alloc, input);
    end(alloc, growths);
    match output {
        Ok(output) => Ok(output),
        Err(RunFault::Memory) => Ok(Vec::from_slice(alloc, b"== Memory\n")?),
    }
}

/// How many growths there are before one is refused, if a first line says so.
fn growths_of(input: &[u8]) -> Result<Option<u32>> {
    let Ok(text) = str::from_utf8(input) else {
        return Ok(None);
    };
    match setting(text, "growths") {
        Some((growths, _)) => Ok(Some(growths.parse()?)),
        None => Ok(None),
    }
}
