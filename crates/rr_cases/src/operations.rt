//! Operations, as calls of a replica name them ([`crate::replicas`]).

use crate::words::Words;
use anyhow::{Result, bail};
use rr_cells::{Cell, Op, Sample};
use rr_contrib::Contribution;
use rr_key::SeriesKey;
use rr_text::limits::MAX_NUMBER;
use std::alloc::Global;

/// The operation of an `apply` or `apply-cell`.
pub(crate) fn op_of(alloc: Global, mut words: Words<'_>) -> Result<Op> {
    match words.word() {
        "apply" => Ok(Op::Put(sample_of(alloc, words)?)),
        "apply-cell" => Ok(Op::Join(cell_of(alloc, words)?)),
        _ => bail!("an unknown operation"),
    }
}

fn sample_of(alloc: Global, mut words: Words<'_>) -> Result<Sample> {
    Ok(Sample {
        origin: words.origin()?,
        number: words.number()?,
        key: SeriesKey::parse_text(alloc, b"m v")?,
        time: words.number()?,
        value: words.number()?,
    })
}

fn cell_of(alloc: Global, mut words: Words<'_>) -> Result<Cell> {
    let (archive, origin) = (words.number()?, words.origin()?);
    let number = words.number::<u64>()?.clamp(1, MAX_NUMBER);
    Ok(Cell {
        key: SeriesKey::parse_text(alloc, b"m v")?,
        archive,
        slot: words.number()?,
        origin,
        contribution: Contribution::first(number, 0, words.number()?, words.number()?),
    })
}
