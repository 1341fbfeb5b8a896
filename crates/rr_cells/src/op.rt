//! Operations, which change the cells of a replica.

use crate::cell::Cell;
use crate::sample::Sample;
use rr_key::SeriesKey;
use std::alloc::AllocError;

/// A step in the life of a replica: one more sample, or a cell from elsewhere.
#[derive(Drop)]
pub enum Op {
    /// A sample is put under its number.
    Put(Sample),
    /// A cell is joined.
    Join(Cell),
}

impl Op {
    ghost use Rattle.std.specs.Prelude.{◌≡◌, IfOk};
    ghost use Rattle.rr_cells.specs.Operations.{op_key};

    /// The key of its series.
    pub fn key(&self) -> &SeriesKey
        ensures { result.now ≡ op_key self.now }
    {
        match self {
            Op::Put(sample) => &sample.key,
            Op::Join(cell) => &cell.key,
        }
    }

    /// The same operation. The key's bytes are shared, so no memory is taken.
    pub fn copy(&self) -> Result<Op, AllocError>
        ensures { IfOk result (λ op. op ≡ self.now) }
    {
        Ok(match self {
            Op::Put(sample) => Op::Put(sample.copy()?),
            Op::Join(cell) => Op::Join(cell.copy()?),
        })
    }
}
