//! Applying operations to a replica.
ghost use Rattle.std.specs.Prelude.{◌≡◌, fold, IsTrue};
ghost use Rattle.rr_replica.specs.Archives.{IsOpOf};
ghost use Rattle.rr_cells.specs.Operations.{accepts, step};
ghost use Rattle.rr_cells.specs.declared.op.Op.TheVariants.{Put};
ghost use Rattle.std.specs.List.{AllByRecursion};
ghost use Rattle.rr_replica.specs.Numbered.{puts_at};
ghost use Rattle.rr_replica.specs.ReplicaWithRoom.{replica_state, IsReadyFor};
ghost use Rattle.rr_replica.specs.Calls.{BecomesInRoom, IsNumberedOp, Takes, TakesCell};

use crate::replica::Replica;
use crate::unkeyed_sample::UnkeyedSample;
use rr_archive::Cells;
use rr_cells::{Cell, Op, Sample};
use rr_text::limits::MAX_NUMBER;
use std::alloc::AllocError;

impl<A: Cells> Replica<A> {
    /// Whether the replica takes an operation.
    pub(crate) fn accepts(&self, op: &Op) -> bool
        ensures accepted { result ≡ accepts (replica_state self.now) op.now }
        ensures op { IsTrue result → IsOpOf self.now.schema op.now }
    {
        match op {
            Op::Put(sample) => self.accepts_sample(sample),
            Op::Join(cell) => cell.is_of(self.schema()),
        }
    }

    /// Whether the replica takes a sample.
    fn accepts_sample(&self, sample: &Sample) -> bool
        ensures accepted { result ≡ accepts (replica_state self.now) (Put sample.now) }
        ensures op { IsTrue result → IsOpOf self.now.schema (Put sample.now) }
    {
        // The proof needs the replica's invariant, which `schema` ensures, and that the time is one
        // of 64 bits.
        let _schema = self.schema();
        let _time = sample.time;
        sample.origin == self.origin()
            && self.next_number() <= sample.number
            && sample.number <= MAX_NUMBER
    }

    /// Puts a sample of the replica's own origin as [`Replica::apply`] takes the operation that
    /// puts it, but with its series named by number: series are counted from 0 in the order in
    /// which their keys came. No key is looked up. If there is no such series, nothing changes.
    pub fn apply_put_numbered(
        &mut self,
        series: usize,
        number: u64,
        time: i64,
        value: i64,
    ) -> Result<(), AllocError>
        ensures { BecomesInRoom (AllByRecursion (IsReadyFor self.old)
            (puts_at self.old.keys self.old.origin series number time value))
            (fold step (replica_state self.old)
            (puts_at self.old.keys self.old.origin series number time value))
            self.old self.new result }
    {
        // The proof needs the replica's invariant, which `schema` ensures.
        let _schema = self.schema();
        if number < self.next_number() || number > MAX_NUMBER {
            return Ok(());
        }
        if series >= self.series.keys.len() {
            return Ok(());
        }
        let unkeyed = UnkeyedSample {
            origin: self.origin(),
            number,
            time,
            value,
        };
        self.put_unkeyed_at(series, unkeyed)
    }

    /// Takes an operation whole: a sample is put under its number, and the next one comes after it;
    /// a cell is joined as [`Replica::join_cell`] does. Returns whether it is taken.
    ///
    /// It isn't, and nothing changes, if a sample is of another origin, or its number is below the
    /// next one or above 2^40, or if a cell is not of the schema or not valid. After an error
    /// nothing has changed; after [`Replica::ready`] of the same operation there is none. The cost
    /// is that of [`Replica::put`] or [`Replica::join_cell`].
    pub fn apply(&mut self, op: &Op) -> Result<bool, AllocError>
        ensures { Takes op.now self.old self.new result }
    {
        match op {
            Op::Put(sample) => self.apply_sample(sample),
            Op::Join(cell) => self.apply_cell(cell),
        }
    }

    /// Takes a sample as [`Replica::apply`] takes the operation that puts it.
    fn apply_sample(&mut self, sample: &Sample) -> Result<bool, AllocError>
        ensures { Takes (Put sample.now) self.old self.new result }
    {
        if !self.accepts_sample(sample) {
            return Ok(false);
        }
        let unkeyed = UnkeyedSample {
            origin: sample.origin,
            number: sample.number,
            time: sample.time,
            value: sample.value,
        };
        self.put_unkeyed(&sample.key, unkeyed)?;
        Ok(true)
    }

    /// Takes an operation whose series is named by number, as [`Replica::apply`] takes one that it
    /// takes.
    #[inline(always)]
    pub fn apply_numbered(&mut self, series: usize, op: &Op) -> Result<(), AllocError>
        requires { IsNumberedOp self.old series op.now }
        ensures { BecomesInRoom (IsReadyFor self.old op.now) (step (replica_state self.old) op.now)
            self.old self.new result }
    {
        match op {
            Op::Put(sample) => {
                self.apply_put_numbered(series, sample.number, sample.time, sample.value)
            }
            Op::Join(cell) => {
                self.apply_cell(cell)?;
                Ok(())
            }
        }
    }

    /// Takes a cell as [`Replica::apply`] takes the operation that joins it.
    pub fn apply_cell(&mut self, cell: &Cell) -> Result<bool, AllocError>
        ensures { TakesCell cell.now self.old self.new result }
    {
        if !cell.is_of(self.schema()) {
            return Ok(false);
        }
        self.join_cell(cell)?;
        Ok(true)
    }
}
