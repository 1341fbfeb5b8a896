//! The two copies of a replica shown to readers in turn.

use crate::book::Prefix;
use crate::change::{Change, NumberedCell, NumberedSample};
use crate::sampling::is_sampled;
use left_right::Absorb;
use rr_archive::Cells;
use rr_key::SeriesKey;
use rr_replica::Replica;
use rr_schema::{Origin, Schema};
use std::alloc::AllocError;
use std::collections::LinkedList;
use std::marker::Model;

impl NumberedSample {
    ghost use Rattle.rr_replica.specs.Numbered.{puts_at};
    ghost use Rattle.rr_desk.specs.Writers.{AppliesOps};

    /// Puts it into a replica, if that takes it. After an error nothing has changed.
    fn apply_to<A: Cells>(&self, replica: &mut Replica<A>) -> Result<(), AllocError>
        ensures { AppliesOps (puts_at replica.old.keys replica.old.origin self.now.series
            self.now.number self.now.time self.now.value) replica.old replica.new result }
    {
        replica.apply_put_numbered(self.series, self.number, self.time, self.value)
    }

    /// Whether finished rows are looked for after it.
    fn shares_rows(&self) -> bool {
        is_sampled(self.number)
    }
}

impl NumberedCell {
    ghost use Rattle.rr_desk.specs.Changes.{joins_in};
    ghost use Rattle.rr_desk.specs.Writers.{AppliesOps};

    /// Joins it into a replica that knows its key, if that takes it. After an error nothing has
    /// changed.
    fn join_to<A: Cells>(&self, replica: &mut Replica<A>) -> Result<(), AllocError>
        ensures { AppliesOps (joins_in replica.old.keys self.now.cell.value) replica.old
            replica.new result }
    {
        if !replica.knows(&self.cell.key) {
            return Ok(());
        }
        replica.apply_cell(&self.cell)?;
        Ok(())
    }

    /// Whether finished rows are looked for after it.
    fn shares_rows(&self) -> bool {
        is_sampled(self.cell.contribution.version)
    }
}

/// A copy of the replica, with the editions of the book that it has.
#[derive(Drop)]
pub struct Shown<A: Cells> {
    /// The replica.
    pub replica: Replica<A>,
    /// Whether it has been opened for readers.
    pub started: bool,
    /// The editions that it has.
    pub prefix: Prefix,
}

impl<A: Cells> Shown<A> {
    ghost use Rattle.rr_desk.specs.Writers.{IsSameShown};

    /// Shares rows of a series with the copy that went first, if they are looked for.
    fn share_rows(&mut self, wanted: bool, series: usize, first: &Shown<A>)
        ensures { IsSameShown self.old self.new }
    {
        if wanted {
            self.replica.share_rows(series, &first.replica);
        }
    }
}

/// What a replica holds. Never constructed.
pub struct Held {
    schema: Schema,
    origin: Origin,
    next: u64,
}

impl Model for Held {
    ghost use Rattle.std.specs.FinMap.{empty};
    ghost use Rattle.rr_cells.specs.ReplicaState.{ReplicaState, coded_replica_state};

    ghost Value = { ReplicaState };

    ghost coded = { coded_replica_state };

    ghost view = { λ h. record { schema = h.schema; origin = h.origin; next = h.next; cells = empty } };
}

/// What the two copies have in common. Never constructed.
pub struct CopyState {
    /// What the replica holds.
    pub held: Held,
    /// The keys of its series, by their numbers.
    pub keys: LinkedList<SeriesKey>,
    /// Whether it has been opened for readers.
    pub started: bool,
    /// The editions that it has.
    pub prefix: Prefix,
}

impl<A: Cells> Absorb<Change> for Shown<A> {
    ghost use Rattle.rr_desk.specs.Changes.{copy_after};
    ghost use Rattle.rr_replica.specs.ReplicaWithRoom.{replica_state};

    type State = CopyState;

    ghost state = { λ s. record {
      held = replica_state s.replica;
      keys = s.replica.keys;
      started = s.started;
      prefix = s.prefix;
    } };

    ghost applied = { copy_after };

    fn absorb_first(&mut self, operation: &Change, _other: &Shown<A>) -> Result<(), AllocError> {
        match operation {
            Change::Put(sample) => {
                sample.apply_to(&mut self.replica)?;
                if sample.shares_rows() {
                    self.replica.finish_rows(sample.series);
                }
            }
            Change::Join(cell) => {
                cell.join_to(&mut self.replica)?;
                if cell.shares_rows() {
                    self.replica.finish_rows(cell.series);
                }
            }
            Change::AddKey(key) => self.replica.add_key(key)?,
            Change::Edition(prefix) => {
                self.started = true;
                self.prefix = prefix.again();
            }
        }
        Ok(())
    }

    fn absorb_second(&mut self, operation: Change, other: &Shown<A>) -> Result<(), Change> {
        match operation {
            Change::Put(sample) => match sample.apply_to(&mut self.replica) {
                Ok(()) => {
                    self.share_rows(sample.shares_rows(), sample.series, other);
                    Ok(())
                }
                Err(_) => Err(Change::Put(sample)),
            },
            Change::Join(cell) => match cell.join_to(&mut self.replica) {
                Ok(()) => {
                    self.share_rows(cell.shares_rows(), cell.series, other);
                    Ok(())
                }
                Err(_) => Err(Change::Join(cell)),
            },
            Change::AddKey(key) => match self.replica.add_key(&key) {
                Ok(()) => Ok(()),
                Err(_) => Err(Change::AddKey(key)),
            },
            Change::Edition(prefix) => {
                self.started = true;
                self.prefix = prefix;
                Ok(())
            }
        }
    }
}
