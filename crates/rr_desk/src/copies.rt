//! A keeper's replica beside its two published copies.
ghost use Rattle.std.specs.Prelude.{◌≡◌, [], true, IfOk, OnErr, OnOk};
ghost use Rattle.left_right.specs.Sides.{view};
ghost use Rattle.rr_cells.specs.ReplicaState.{IsReplicaState};
ghost use Rattle.rr_cells.specs.Operations.{accepts, joins_of};
ghost use Rattle.rr_replica.specs.ReplicaWithRoom.{replica_state};
ghost use Rattle.rr_desk.specs.Editions.{flat};
ghost use Rattle.rr_desk.specs.Rule.{keeper_of};
ghost use Rattle.rr_desk.specs.KeeperState.{cells_of, own_replica, keeper_at_opening, with_all_published, with_all_written, with_pending};
ghost use Rattle.rr_desk.specs.Unwritten.{may_change};
ghost use Rattle.rr_desk.specs.Written.{CoverChanges};
ghost use Rattle.rr_desk.specs.Writers.{changes};
ghost use Rattle.rr_replica.specs.Becomes.{Becomes};

use crate::book::{Editions, Prefix};
use crate::change::Change;
use crate::naming::name_keys;
use crate::sampling::shares_rows;
use crate::shown::{CopyState, Shown};
use crate::unwritten::Unwritten;
use crate::writing::{DeskWriter, end_edition, publish};
use core::mem::replace_with;
use left_right::Absorb;
use rr_archive::Cells;
use rr_cells::Op;
use rr_changes::{ChangedSeries, is_held};
use rr_replica::{Hint, Replica};
use std::alloc::{AllocError, Global};
use std::marker::Model;
use std::sync::Wait;

/// Whether an operation may change cells of a replica: joining a cell that is already held doesn't.
fn may_change<A: Cells>(replica: &Replica<A>, op: &Op) -> bool
    requires { accepts (replica_state replica.now) op.now ≡ true }
    ensures { result ≡ may_change replica.now.cells op.now }
{
    match op {
        Op::Put(_) => true,
        Op::Join(cell) => !is_held(replica, cell),
    }
}

/// A keeper's replica, with all operations, published or pending, and the two copies shown to
/// readers in turn, with what is published.
///
/// It is not `Drop`: it ends with [`Copies::close`].
pub struct Copies<A: Cells>
where
    Shown<A>: Absorb<Change, State = CopyState>,
{
    alloc: Global,
    writer: DeskWriter<A>,
    own: Replica<A>,
    book: Editions,
    /// How many of the keeper's keys, from the first on, the copies have after the pending changes.
    named: usize,
    /// What isn't written yet.
    unwritten: Unwritten,
    /// Whether the last pending operation is followed by the end of an edition that has all of
    /// them.
    ended: bool,
}

impl<A: Cells> Model for Copies<A>
where
    Shown<A>: Absorb<Change, State = CopyState>,
{
    ghost use Rattle.std.specs.Prelude.{◌-◌, length};
    ghost use Rattle.rr_desk.specs.KeeperState.{KeeperState, IsKeeper};

    ghost Value = { KeeperState };

    ghost use Rattle.left_right.specs.Sides.{view as handle_view};
    ghost use Rattle.rr_replica.specs.ReplicaWithRoom.{replica_state};
    ghost use Rattle.rr_desk.specs.Changes.{AreNamed};
    ghost use Rattle.rr_desk.specs.Unwritten.{IsUnwritten};
    ghost use Rattle.rr_desk.specs.Writers.{all_ops, changes, pending_ops, shown_names};

    ghost view = { λ k. record {
      desk = (handle_view k.writer.desk.place).desk;
      schema = k.own.schema;
      origin = k.own.origin;
      next = k.own.next;
      published = (handle_view k.writer.desk.place).seen;
      pending = pending_ops k.writer;
      written = length (all_ops k.writer) - k.unwritten.count;
    } };

    ghost invariant = { λ k. IsKeeper (handle_view k.writer.desk.place)
        (replica_state k.writer.desk.shown.value.replica)
        (shown_names k.writer) (replica_state k.own)
        k.writer.desk.shown.value.prefix k.book (changes k.writer) k.ended
        × AreNamed (shown_names k.writer) k.own.keys (changes k.writer) k.named
        × IsUnwritten (replica_state k.own) k.own.keys k.unwritten (all_ops k.writer) };
}

impl<A: Cells> Copies<A> {
    /// A replica beside its two opened copies, with their book.
    pub fn new(alloc: Global, writer: DeskWriter<A>, own: Replica<A>, book: Editions) -> Copies<A>
        requires holds { IsReplicaState (replica_state own) }
        requires view { view writer.desk.place ≡ keeper_of (replica_state own) book.desk }
        requires copy { replica_state writer.desk.shown.value.replica ≡ replica_state own }
        requires keys { writer.desk.shown.value.replica.keys ≡ own.keys }
        requires prefix { writer.desk.shown.value.prefix ≡ book }
        requires pending { changes writer ≡ [] }
        requires book { flat book.editions ≡ joins_of own.cells }
        ensures { result ≡ keeper_at_opening (replica_state own) book.desk }
    {
        let named = own.key_count();
        let unwritten = Unwritten::new(alloc, own.schema());
        Copies {
            alloc,
            writer,
            own,
            book,
            named,
            unwritten,
            ended: false,
        }
    }

    /// The keeper's replica.
    pub fn replica(&self) -> &Replica<A>
        ensures state { replica_state result.now ≡ own_replica self.now }
        ensures cells { result.now.cells ≡ cells_of self.now }
        ensures next { result.now.next ≡ self.now.next }
        ensures origin { result.now.origin ≡ self.now.origin }
        ensures schema { result.now.schema ≡ self.now.schema }
    {
        &self.own
    }

    /// Makes pending an operation that the replica takes, and applies it there. Room is made first,
    /// so that it is taken whole or not at all.
    ///
    /// Before some operations, finished rows of the series at the hint are shared with the copy
    /// that is shown.
    #[inline(always)]
    pub fn push(&mut self, hint: Hint, op: Op) -> Result<(), AllocError>
        requires { accepts (own_replica self.old) op ≡ true }
        ensures state { Becomes self.old (with_pending self.old op) self.new result }
    {
        if shares_rows(&op) {
            self.share_rows(hint);
        }
        self.append(hint, &op)
    }

    /// Shares finished rows of the series at a hint with the copy that is shown.
    #[inline(always)]
    fn share_rows(&mut self, hint: Hint)
        ensures { self.new ≡ self.old }
    {
        self.own
            .share_rows(hint.index(), &self.writer.published().replica);
    }

    /// `push`, without sharing rows.
    fn append(&mut self, hint: Hint, op: &Op) -> Result<(), AllocError>
        requires { accepts (own_replica self.old) op.now ≡ true }
        ensures state { Becomes self.old (with_pending self.old op.now) self.new result }
    {
        let changes = may_change(&self.own, op);
        let series = self.own.ready_series(hint, op)?;
        self.unwritten.ready(series)?;
        name_keys(&mut self.writer, &self.own, &mut self.named)?;
        let change = Change::of(self.alloc, series, op)?;
        if self.writer.append(change).is_err() {
            return Err(AllocError);
        }
        self.own.apply_numbered(series, op)?;
        self.unwritten.add(series, op, changes);
        self.ended = false;
        Ok(())
    }

    /// The series that have changed since what is written.
    pub fn changed_series(&self, alloc: Global) -> Result<Vec<ChangedSeries>, AllocError>
        ensures { IfOk result (λ series. CoverChanges self.now series.items) }
    {
        // The proof needs the replica's invariant, which `schema` ensures.
        let _schema = self.own.schema();
        self.unwritten.tracker.series(alloc, &self.own)
    }

    /// Marks all operations as written.
    pub fn changes_written(&mut self)
        ensures { self.new ≡ with_all_written self.old }
    {
        self.unwritten.clear();
    }

    /// Shows readers all pending operations in one step. It waits for readers still in the copy
    /// that is not shown. If it is refused, nothing has changed, and readers see what they saw.
    ///
    /// The cost is that of applying the operations to each copy once, however large the replica is.
    pub fn publish<R: Wait>(&mut self, rt: &R) -> Result<(), AllocError>
        ensures state { Becomes self.old (with_all_published self.old) self.new result }
    {
        end_edition(&mut self.book, &mut self.writer, self.ended)?;
        self.ended = true;
        replace_with(&mut self.writer, rt, |writer, rt| publish(rt, writer))?;
        self.ended = false;
        Ok(())
    }

    /// The editions of the copy that is shown.
    pub fn prefix(&self) -> Prefix
        ensures desk { result.desk ≡ self.now.desk }
        ensures published { flat result.editions ≡ self.now.published }
    {
        self.writer.published().prefix.again()
    }

    /// Returns the replica. It waits for readers in a copy; after it no reader enters.
    pub fn close<R: Wait>(self, rt: &R) -> Replica<A>
        ensures { replica_state result ≡ own_replica self }
    {
        let Copies {
            alloc: _,
            writer,
            own,
            book: _,
            named: _,
            unwritten: _,
            ended: _,
        } = self;
        drop(writer.take(rt));
        own
    }
}
