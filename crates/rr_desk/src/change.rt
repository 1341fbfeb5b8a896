//! What both copies absorb.

use crate::book::Prefix;
use rr_cells::{Cell, Op, Sample};
use rr_key::SeriesKey;
use std::alloc::{AllocError, Global};

/// A sample as it waits for the copies. It names its series by number, and its origin is the
/// replica's: so it takes no memory for its key.
#[derive(Clone, Copy)]
pub struct NumberedSample {
    /// The number of its series, counted from 0 in the order in which keys came.
    pub series: usize,
    /// The number under which it is put.
    pub number: u64,
    /// The time, in nanoseconds since the Unix epoch.
    pub time: i64,
    /// The value.
    pub value: i64,
}

/// A cell as it waits for the copies. Most operations are samples, and a cell is many times as
/// large: it is boxed so that no sample takes the memory of a cell.
#[derive(Drop)]
pub struct NumberedCell {
    /// The number of its series.
    pub series: usize,
    /// The cell.
    pub cell: Box<Cell>,
}

/// What both copies absorb.
#[derive(Drop)]
pub enum Change {
    /// A sample of the replica's own origin is put.
    Put(NumberedSample),
    /// A cell is joined in.
    Join(NumberedCell),
    /// A key is added, whose series gets the next number.
    AddKey(SeriesKey),
    /// The copy then has all that is in the book so far, and may be read.
    Edition(Prefix),
}

impl Change {
    ghost use Rattle.std.specs.Prelude.{IfOk};
    ghost use Rattle.rr_cells.specs.declared.op.Op.TheVariants as op;
    ghost use Rattle.rr_desk.specs.Changes.{IsChangeOf};

    /// The change that puts a sample of the series with this number.
    fn of_sample(series: usize, sample: &Sample) -> Change
        ensures { IsChangeOf series (op.Put sample.now) result }
    {
        Change::Put(NumberedSample {
            series,
            number: sample.number,
            time: sample.time,
            value: sample.value,
        })
    }

    /// The change that joins a cell of the series with this number. Takes memory for it.
    fn join(alloc: Global, series: usize, cell: &Cell) -> Result<Change, AllocError>
        ensures { IfOk result (IsChangeOf series (op.Join cell.now)) }
    {
        let cell = Box::new(alloc, cell.copy()?)?;
        Ok(Change::Join(NumberedCell { series, cell }))
    }

    /// The change that is an operation on the series with this number.
    pub fn of(alloc: Global, series: usize, op: &Op) -> Result<Change, AllocError>
        ensures { IfOk result (IsChangeOf series op.now) }
    {
        match op {
            Op::Put(sample) => Ok(Change::of_sample(series, sample)),
            Op::Join(cell) => Change::join(alloc, series, cell),
        }
    }
}
