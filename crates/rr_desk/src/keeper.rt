//! The keeper of a desk, its only writer.
ghost use Rattle.std.specs.Prelude.{◌≡◌, ◌<◌, ◌↔◌, Err, IfOk, OnOk, length, map, take, drop};
ghost use Rattle.std.specs.FinMap.{entries, len};
ghost use Rattle.std.specs.Io.KnownBytes.{Keeps};
ghost use Rattle.rr_io.specs.Counted.{inner_of};
ghost use Rattle.rr_cells.specs.CellBounds.{IsCellOf};
ghost use Rattle.rr_cells.specs.ReplicaState.{IsReplicaState};
ghost use Rattle.rr_cells.specs.Listing.{at_most_usize, owned_cell};
ghost use Rattle.rr_cells.specs.declared.op.Op.TheVariants.{Join};
ghost use Rattle.rr_replica.specs.ReplicaWithRoom.{replica_state};
ghost use Rattle.rr_replica.specs.Horizon.{keeps};
ghost use Rattle.rr_cells.specs.Cells.{archive_cells};
ghost use Rattle.rr_changes.specs.Listing.{archive_changes};
ghost use Rattle.rr_delta.specs.Listed.{ListsCells, ListsNames};
ghost use Rattle.rr_delta.specs.Names.{name_in, named_version, versions_of};
ghost use Rattle.rr_delta.specs.Summaries.{cells_after};
ghost use Rattle.rr_page.specs.Version.{latest};
ghost use Rattle.rr_snapshot.specs.Saving.{Saves};
ghost use Rattle.rr_snapshot.specs.Snapshot.{snapshot_text};
ghost use Rattle.rr_snapshot.specs.declared.heading.TheConstants.{MAX_SNAPSHOT_CELLS};
ghost use Rattle.rr_desk.specs.PastHorizon.{past_horizon_of};
ghost use Rattle.rr_desk.specs.Points.{with_put};
ghost use Rattle.rr_desk.specs.KeeperState.{cells_of, own_replica, with_all_published, with_all_written, with_pending};
ghost use Rattle.rr_desk.specs.Written.{CoverChanges};
ghost use Rattle.rr_replica.specs.Becomes.{Becomes};
ghost use Rattle.rr_replica.specs.Calls.{PutsNext};

use crate::change::Change;
use crate::copies::Copies;
use crate::note::Note;
use crate::order::Order;
use crate::shown::{CopyState, Shown};
use left_right::Absorb;
use rr_archive::Cells;
use rr_cells::{Cell, Op, Sample};
use rr_changes::{ArchiveChanges, ChangedSeries};
use rr_delta::{Name, summary, summary_after};
use rr_io::Counted;
use rr_key::SeriesKey;
use rr_replica::{Hint, PutFault, Replica};
use rr_schema::Schema;
use rr_snapshot::SaveFault;
use rr_text::limits::MAX_NUMBER;
use std::alloc::{AllocError, Global};
use std::io::Write;
use std::marker::Model;
use std::sync::Wait;

/// The keeper of a desk. It has a replica of its own, with all operations, published or pending.
///
/// It is not `Drop`: it ends with [`Keeper::close`].
pub struct Keeper<A: Cells>
where
    Shown<A>: Absorb<Change, State = CopyState>,
{
    pub(crate) alloc: Global,
    pub(crate) copies: Copies<A>,
    /// Where key texts of points are written, each over the last.
    pub(crate) text: Vec<u8>,
    pub(crate) order: Order,
    /// How many samples no archive kept.
    pub(crate) past: u64,
}

impl<A: Cells> Model for Keeper<A>
where
    Shown<A>: Absorb<Change, State = CopyState>,
{
    ghost use Rattle.std.specs.Prelude.{◌≡◌};
    ghost use Rattle.rr_desk.specs.KeeperState.{KeeperState};
    ghost use Rattle.rr_desk.specs.PastHorizon.{past_horizon_of};

    ghost Value = { KeeperState };

    ghost view = { λ k. k.copies };

    ghost invariant = { λ k. k.past ≡ past_horizon_of k.copies };
}

impl<A: Cells> Keeper<A> {
    /// The schema of all cells.
    pub fn schema(&self) -> &Schema
        ensures value { result.now ≡ self.now.schema }
        ensures holds { IsReplicaState (own_replica self.now) }
    {
        self.copies.replica().schema()
    }

    /// How many cells all operations make, pending ones too. It saturates. The cost is linear in
    /// the series.
    pub fn cell_count(&self) -> usize
        ensures { result ≡ at_most_usize (len (cells_of self.now)) }
    {
        self.copies.replica().cell_count()
    }

    /// The number that the next sample gets, past 2^40 if none is left.
    pub fn next_number(&self) -> u64
        ensures { result ≡ self.now.next }
    {
        self.copies.replica().next_number()
    }

    /// Puts a sample of a key under the next number, and returns that. The time is in nanoseconds
    /// since the Unix epoch. Readers don't see the sample until it is published.
    ///
    /// Refused as `NumbersSpent` if the next number is past 2^40. After a refusal nothing has
    /// changed. The cost is that of `Replica::put`, once here and once in each copy when it is
    /// published; there the key is mostly found without a lookup, and here too if series come in
    /// the same order as before. If the row is in memory, only the list of pending operations
    /// grows.
    pub fn put(&mut self, key: &SeriesKey, time: i64, value: i64) -> Result<u64, PutFault>
        ensures { PutsNext self.old.next self.old (with_put self.old key.now time value) self.new
            result }
    {
        if self.copies.replica().next_number() > MAX_NUMBER {
            return Err(PutFault::NumbersSpent);
        }
        let (key, hint) = self
            .copies
            .replica()
            .known_key_near(self.order.next(), key)?;
        self.push_sample(hint, key, time, value)
    }

    /// Puts a sample of a key as [`Keeper::put`] does, with a hint of where its series is. The
    /// operation takes over the key.
    #[inline(always)]
    pub(crate) fn push_sample(
        &mut self,
        hint: Hint,
        key: SeriesKey,
        time: i64,
        value: i64,
    ) -> Result<u64, PutFault>
        ensures { PutsNext self.old.next self.old (with_put self.old key time value) self.new
            result }
    {
        let number = self.copies.replica().next_number();
        if number > MAX_NUMBER {
            return Err(PutFault::NumbersSpent);
        }
        let sample = Sample {
            origin: self.copies.replica().origin(),
            number,
            key,
            time,
            value,
        };
        let is_kept = self.copies.replica().keeps_near(hint, &sample.key, time);
        self.copies.push(hint, Op::Put(sample))?;
        self.order.note(hint);
        self.past = self.past.saturating_add(u64::from(!is_kept));
        Ok(number)
    }

    /// Whether some archive would keep a sample of a key at a time, as `Replica::keeps` says.
    pub fn keeps(&self, key: &SeriesKey, time: i64) -> bool
        ensures { result ≡ keeps self.now.schema (cells_of self.now) key.now time }
    {
        self.copies.replica().keeps(key, time)
    }

    /// How many samples were put since the desk was opened for which [`Keeper::keeps`] was false at
    /// the time: they left no trace but their numbers. It saturates.
    pub fn past_horizon(&self) -> u64
        ensures { result ≡ past_horizon_of self.now }
    {
        self.past
    }

    /// A hint at the series likely to be put to next: the one that came after the last one the time
    /// before. No contract says which it is.
    pub fn likely_next(&self) -> Hint {
        self.order.next()
    }

    /// A hint at the series likely to be put to after this one, in the same way.
    pub fn likely_after(&self, hint: Hint) -> Hint {
        self.order.next_after(hint)
    }

    /// The key of the series at a hint, if one is there. No contract says which it is.
    pub fn key_at(&self, hint: Hint) -> Option<&SeriesKey> {
        self.copies.replica().key_at(hint)
    }

    /// Joins a cell from elsewhere, which is valid under the schema, as `Replica::join_cell` does.
    /// Readers don't see it until it is published. After an error nothing has changed. The cost is
    /// that of `Replica::join_cell`, once here and once in each copy when it is published.
    pub fn join_cell(&mut self, cell: &Cell) -> Result<(), AllocError>
        requires { IsCellOf self.old.schema (owned_cell cell.now) }
        ensures state { Becomes self.old (with_pending self.old (Join cell.now)) self.new result }
    {
        let (_key, hint) = self
            .copies
            .replica()
            .known_key_near(Hint::none(), &cell.key)?;
        self.copies.push(hint, Op::Join(cell.copy()?))?;
        Ok(())
    }

    /// The names and versions of `count` cells from an offset on, in the order of the names; fewer
    /// if there are fewer. They are those of all operations, pending ones too. The cost is that of
    /// [`rr_delta::summary`].
    pub fn names(&self, alloc: Global, from: usize, count: usize) -> Result<Vec<Name>, AllocError>
        ensures { ListsNames self.now.schema
            (take count (drop from (versions_of (cells_of self.now)))) result }
    {
        summary(alloc, self.copies.replica(), from, count)
    }

    /// The names and versions of `count` cells after a name, or of the first ones if there is none,
    /// in the order of the names; fewer if there are fewer. The cost is that of
    /// [`rr_delta::summary_after`].
    pub fn names_after(
        &self,
        alloc: Global,
        after: Option<&Name>,
        count: usize,
    ) -> Result<Vec<Name>, AllocError>
        ensures { ListsNames self.now.schema
            (take count (map named_version (cells_after (name_in after.entry)
            (entries (cells_of self.now))))) result }
    {
        summary_after(alloc, self.copies.replica(), after, count)
    }

    /// Writes the cells of all operations, pending ones too, as a snapshot, with the refusals and
    /// the cost of `rr_snapshot::save`.
    pub fn save<W: Write>(&self, alloc: Global, output: &mut Counted<W>) -> Result<(), SaveFault>
        ensures saves { Saves W.contents output.old output.new
            (snapshot_text latest self.now.schema self.now.origin (entries (cells_of self.now)))
            result }
        ensures too_many { (result ≡ Err SaveFault.TooManyCells)
            ↔ (MAX_SNAPSHOT_CELLS < len (cells_of self.now)) }
        ensures nothing_written { result ≡ Err SaveFault.TooManyCells
            → Keeps (W.contents (inner_of output.old)) (W.contents (inner_of output.new)) }
    {
        rr_snapshot::save(alloc, self.copies.replica(), output)
    }

    /// The series that have changed since what is written, each with the ranges of times in which
    /// it did, in the order in which they did: [`Keeper::list_changes`] gives their cells. Joining
    /// cells that are already held doesn't change a series.
    ///
    /// What is written is all that the desk was opened with, and what [`Keeper::changes_written`]
    /// was called for. The cost is linear in the number of series that changed.
    pub fn changed_series(&self, alloc: Global) -> Result<Vec<ChangedSeries>, AllocError>
        ensures { IfOk result (λ series. CoverChanges self.now series.items) }
    {
        self.copies.changed_series(alloc)
    }

    /// Lists the changes of a series in one of its archives: the live cells in the slots of its
    /// ranges. They are those of all operations, pending ones too. The cost is that of
    /// [`ArchiveChanges::list`].
    pub fn list_changes(
        &self,
        changes: &mut ArchiveChanges,
        series: &ChangedSeries,
        archive: u8,
    ) -> Result<(), AllocError>
        requires { archive < length self.now.schema.archives }
        ensures { OnOk result (changes.new ≡ archive_changes self.now.schema archive
            series.now.times (archive_cells (cells_of self.now) series.now.key archive)) }
    {
        changes.list(self.copies.replica(), series, archive)
    }

    /// Marks the changes as written: whoever has what was written holds what the keeper holds. The
    /// cost is linear in the series that changed.
    pub fn changes_written(&mut self)
        ensures { self.new ≡ with_all_written self.old }
    {
        self.copies.changes_written();
    }

    /// Shows readers all pending operations in one step. It waits for readers still in the copy
    /// that is not shown. If it is refused, nothing has changed, and readers see what they saw.
    ///
    /// The cost is that of applying the operations to each copy once, however large the replica is.
    pub fn publish<R: Wait>(&mut self, rt: &R) -> Result<(), AllocError>
        ensures state { Becomes self.old (with_all_published self.old) self.new result }
    {
        self.copies.publish(rt)
    }

    /// A note of what is published.
    pub fn tell(&self) -> Note
        ensures { result ≡ record { desk = self.now.desk; list = self.now.published } }
    {
        Note {
            prefix: self.copies.prefix(),
        }
    }

    /// Returns the keeper's own replica. It waits for readers in a copy; after it no reader enters,
    /// and each call of a reader is refused as `Memory`.
    pub fn close<R: Wait>(self, rt: &R) -> Replica<A>
        ensures { replica_state result ≡ own_replica self }
    {
        let Keeper {
            alloc: _,
            copies,
            text: _,
            order: _,
            past: _,
        } = self;
        copies.close(rt)
    }
}
