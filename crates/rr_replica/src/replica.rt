//! A replica of the store.
ghost use Rattle.std.specs.Prelude.{◌≡◌, ℕ, ◌<◌, All, [], length, take, get_or, slice_get, true, false, Some, Err, IfOk, IfErr, IsOk, OnOk, OnErr, MatchOption};
ghost use mathlib.Core.List.{IsPrefix};
ghost use Rattle.std.specs.FinMap as fin;
ghost use Rattle.rr_cells.specs.CellBounds.{IsCellOf};
ghost use Rattle.rr_cells.specs.Cells.{row_at, archive_cells};
ghost use Rattle.rr_cells.specs.ReplicaState.{with_sample, with_put, IsReplicaState};
ghost use Rattle.rr_cells.specs.Operations.{accepts, op_key};
ghost use Rattle.rr_replica.specs.Numbered.{knows, with_key};
ghost use Rattle.rr_replica.specs.InMemory.{sample_of_unkeyed, keyed_sample};
ghost use Rattle.rr_cells.specs.Listing.{owned_cell};
ghost use Rattle.rr_replica.specs.ReplicaWithRoom.{replica_state, HasRoomFor};
ghost use Rattle.rr_replica.specs.Calls.{BecomesInRoom, IsNextUnkeyed, IsNextUnkeyedOf, MakesReady, PutsNext};
ghost use Rattle.rr_replica.specs.Writing.{lacks_numbers};
ghost use Rattle.rr_replica.specs.Becomes.{Becomes};

use crate::copies::copy_series;
use crate::fault::{JoinFault, PutFault};
use crate::hint::Hint;
use crate::joins::{join_at, join_in, next_after};
use crate::room::{add_key_in, make_room_in};
use crate::samples::{store_at, store_by_key};
use crate::series::SeriesMap;
use crate::unkeyed_sample::UnkeyedSample;
use rr_archive::{Archive, Cells, Entry};
use rr_cells::{Cell, Op};
use rr_key::SeriesKey;
use rr_schema::{Origin, Schema};
use rr_text::limits::MAX_NUMBER;
use std::alloc::{AllocError, Global};
use std::marker::Model;

/// All series of one host, seen as one map of cells: what each origin contributes to each slot of
/// each archive of each key.
///
/// It writes samples under its origin, each with the next number. Its cells are always live and
/// valid, and their number is bounded by the keys, rows and origins, whatever was written.
#[derive(Drop)]
pub struct Replica<A: Cells> {
    pub(crate) alloc: Global,
    schema: Schema,
    origin: Origin,
    next: u64,
    pub(crate) series: SeriesMap<A>,
    /// Where key texts of points are written, each over the last.
    pub(crate) text: Vec<u8>,
}

impl<A: Cells> Model for Replica<A> {
    ghost use Rattle.rr_replica.specs.ReplicaWithRoom.{ReplicaWithRoom, coded_replica_with_room, replica_with_room};
    ghost use Rattle.rr_replica.specs.InMemory.{IsReplicaInMemory};
    ghost use Rattle.rr_replica.specs.SeriesMap.{entries_of};

    ghost Value = { ReplicaWithRoom };

    ghost coded = { coded_replica_with_room };

    ghost view = { λ r. replica_with_room A.cells A.is_ready r.schema r.origin r.next
        r.series.keys.items (entries_of r.series) };

    ghost invariant = { λ r. IsReplicaInMemory A.cells A.row_limit r.schema r.origin r.next
        (entries_of r.series) };
}

impl<A: Cells> Replica<A> {
    /// A replica without cells, whose first sample gets number 1.
    pub fn new(alloc: Global, schema: &Schema, origin: Origin) -> Result<Replica<A>, AllocError>
        ensures { IfOk result (λ r.
            replica_state r ≡ record {
              schema = schema.now;
              origin = origin;
              next = 1;
              cells =
                  fin.empty;
            }) }
    {
        // The proof needs that the origin is from 1 to 65,535, which `get` ensures.
        let _number = origin.get();
        Ok(Replica {
            alloc,
            schema: schema.copy(alloc)?,
            origin,
            next: 1,
            series: SeriesMap::new(alloc),
            text: Vec::new(alloc),
        })
    }

    /// A replica that holds the same, under the same origin and next number; the keys' texts are
    /// shared. The cost is linear in the cells, and n log n in the number of series.
    pub fn copy(&self, alloc: Global) -> Result<Replica<A>, AllocError>
        ensures state { IfOk result (λ r. replica_state r ≡ replica_state self.now) }
        ensures keys { IfOk result (λ r. r.keys ≡ self.now.keys) }
    {
        Ok(Replica {
            alloc,
            schema: self.schema.copy(alloc)?,
            origin: self.origin,
            next: self.next,
            series: copy_series(alloc, &self.series)?,
            text: Vec::new(alloc),
        })
    }

    /// The schema of all series. Its contract also states the replica's invariant: its cells are
    /// live and are cells of this schema, and those of its own origin have numbers before the next.
    pub fn schema(&self) -> &Schema
        ensures value { result.now ≡ self.now.schema }
        ensures holds { IsReplicaState (replica_state self.now) }
    {
        &self.schema
    }

    /// The origin under which samples are written here.
    pub fn origin(&self) -> Origin
        ensures { result ≡ self.now.origin }
    {
        self.origin
    }

    /// The number that the next sample gets, past 2^40 if none is left.
    pub fn next_number(&self) -> u64
        ensures { result ≡ self.now.next }
    {
        self.next
    }

    /// Puts a sample of a key under the next number, and returns that. The time is in nanoseconds
    /// since the Unix epoch.
    ///
    /// In each archive where its slot is past the horizon, the sample leaves no trace; it has its
    /// number all the same. Refused as `NumbersSpent` if the next number is past 2^40. After a
    /// refusal, `Memory` included, nothing has changed: before a cell changes, room is made in all
    /// archives but the first, which is then written first.
    ///
    /// The cost is one lookup of the key and, in each archive, one of the slot, a second to make
    /// room first in all but the first archive, one more if a row is new, and the entries of a row,
    /// however many series there are.
    pub fn put(&mut self, key: &SeriesKey, time: i64, value: i64) -> Result<u64, PutFault>
        ensures { PutsNext self.old.next (replica_state self.old)
            (with_put (replica_state self.old) key.now time value) (replica_state self.new) result }
    {
        if self.next > MAX_NUMBER {
            return Err(PutFault::NumbersSpent);
        }
        let number = self.next;
        let sample = UnkeyedSample {
            origin: self.origin,
            number,
            time,
            value,
        };
        self.put_unkeyed(key, sample)?;
        Ok(number)
    }

    /// Puts a sample of a key under its own number, and moves the next number past it.
    pub(crate) fn put_unkeyed(
        &mut self,
        key: &SeriesKey,
        sample: UnkeyedSample,
    ) -> Result<(), AllocError>
        requires { IsNextUnkeyed self.old sample }
        ensures state { Becomes (replica_state self.old)
            (with_sample (replica_state self.old) (keyed_sample key.now sample))
            (replica_state self.new) result }
        ensures room { HasRoomFor self.old (Op.Put (sample_of_unkeyed key.now sample))
            → IsOk result }
    {
        let number = sample.number;
        store_by_key(&mut self.series, self.alloc, &self.schema, key, sample)?;
        self.next = number + 1;
        Ok(())
    }

    /// Puts a sample of the series with this number under its own number, and moves the next number
    /// past it.
    #[inline(always)]
    pub(crate) fn put_unkeyed_at(
        &mut self,
        series: usize,
        sample: UnkeyedSample,
    ) -> Result<(), AllocError>
        requires { IsNextUnkeyedOf self.old series sample }
        ensures { BecomesInRoom
            (HasRoomFor self.old
            (Op.Put (sample_of_unkeyed (get_or self.old.keys series []) sample)))
            (with_sample (replica_state self.old)
            (keyed_sample (get_or self.old.keys series []) sample))
            self.old self.new result }
    {
        let last = sample.number;
        store_at(&mut self.series, &self.schema, series, sample)?;
        self.next = last + 1;
        Ok(())
    }

    /// Makes room for an operation, so that the next [`Replica::apply`] of it can't fail. It
    /// changes no cell. An operation that isn't taken needs no room, and none is made.
    ///
    /// The archives of a key that has none are added for it, without a cell. The cost is one lookup
    /// of the key and one of the slot in each archive, or in the cell's.
    pub fn ready(&mut self, op: &Op) -> Result<(), AllocError>
        ensures { MakesReady op.now self.old self.new result }
    {
        if !self.accepts(op) {
            return Ok(());
        }
        self.ready_series(Hint::none(), op)?;
        Ok(())
    }

    /// Makes room as [`Replica::ready`] does for an operation that the replica takes, and returns
    /// the number of its series: series are counted from 0 in the order in which their keys came.
    /// If the hint is right, a comparison of two keys replaces the lookup.
    #[inline(always)]
    pub fn ready_series(&mut self, hint: Hint, op: &Op) -> Result<usize, AllocError>
        requires { accepts (replica_state self.old) op.now ≡ true }
        ensures ready { MakesReady op.now self.old self.new result }
        ensures key { IfOk result (λ i. slice_get self.new.keys i ≡ Some (op_key op.now)) }
        ensures keys_grow { IsPrefix self.old.keys self.new.keys }
    {
        // The proof needs the replica's invariant, which `accepts` ensures.
        let _accepted = self.accepts(op);
        make_room_in(&mut self.series, self.alloc, &self.schema, hint, op)
    }

    /// Adds a key without a cell, unless the replica has it. The cost is one lookup of the key.
    pub fn add_key(&mut self, key: &SeriesKey) -> Result<(), AllocError>
        ensures unchanged { replica_state self.new ≡ replica_state self.old }
        ensures added { OnOk result (self.new.keys ≡ with_key self.old.keys key.now) }
        ensures same_keys { OnErr result (self.new.keys ≡ self.old.keys) }
    {
        self.series_of(key)?;
        Ok(())
    }

    /// The number of the series of a key: series are counted from 0 in the order in which their
    /// keys came. A key that the replica lacks is added without a cell. The cost is one lookup of
    /// the key.
    pub fn series_of(&mut self, key: &SeriesKey) -> Result<usize, AllocError>
        ensures unchanged { replica_state self.new ≡ replica_state self.old }
        ensures number { IfOk result (λ i. slice_get self.new.keys i ≡ Some key.now) }
        ensures added { OnOk result (self.new.keys ≡ with_key self.old.keys key.now) }
        ensures same_keys { OnErr result (self.new.keys ≡ self.old.keys) }
    {
        add_key_in(&mut self.series, self.alloc, &self.schema, key)
    }

    /// Whether the replica has a key, with or without a cell. The cost is one lookup of the key.
    pub fn knows(&self, key: &SeriesKey) -> bool
        ensures { result ≡ knows self.now.keys key.now }
    {
        self.series.find(key).is_some()
    }

    /// How many keys the replica has, with or without a cell.
    pub fn key_count(&self) -> usize
        ensures { result ≡ length self.now.keys }
    {
        self.series.keys.len()
    }

    /// The key of the series with this number. None before it is the same.
    pub fn key_numbered(&self, series: usize) -> &SeriesKey
        requires { series < length self.now.keys }
        ensures key { slice_get self.now.keys series ≡ Some result.now }
        ensures first { knows (take series self.now.keys) result.now ≡ false }
    {
        &self.series.keys[series]
    }

    /// The key, and where its series is. The key of a known series shares its text with the one
    /// held here, so no memory is taken.
    ///
    /// The cost is one lookup of the key; if the hint is right, a comparison of two keys.
    pub fn known_key_near(
        &self,
        hint: Hint,
        key: &SeriesKey,
    ) -> Result<(SeriesKey, Hint), AllocError>
        ensures { IfOk result (λ known. known.0 ≡ key.now) }
    {
        let (known, index) = self.series.known_key(hint, key);
        Ok((known.copy()?, Hint { index }))
    }

    /// The key of the series at a hint, if one is there. No contract says which it is.
    pub fn key_at(&self, hint: Hint) -> Option<&SeriesKey> {
        self.series.keys.get(hint.index)
    }

    /// The archive of a key by number, from 0. There is none if the key is unknown, nor past the
    /// schema's last archive; then no cell is there. The cost is one lookup of the key.
    pub fn archive(&self, key: &SeriesKey, i: u8) -> Option<&A>
        ensures { MatchOption result (archive_cells self.now.cells key.now i ≡ fin.empty)
            (λ archive. A.cells archive.now ≡ archive_cells self.now.cells key.now i) }
    {
        self.archive_near(Hint::none(), key, i)
    }

    /// The archive of a key by number, as [`Replica::archive`] gives it. The cost is one lookup of
    /// the key; if the hint is right, a comparison of two keys.
    pub fn archive_near(&self, hint: Hint, key: &SeriesKey, i: u8) -> Option<&A>
        ensures { MatchOption result (archive_cells self.now.cells key.now i ≡ fin.empty)
            (λ archive. A.cells archive.now ≡ archive_cells self.now.cells key.now i) }
    {
        match self.series.get_near(hint, key) {
            Some(archives) => archives.get(i as usize),
            None => None,
        }
    }
}

impl<A: Archive> Replica<A> {
    /// The entries of a slot of an archive of a key, ascending by origin. There are none past the
    /// schema's last archive. The cost is one lookup of the key and one of the slot.
    pub fn row(&self, key: &SeriesKey, archive: u8, slot: i64) -> &[Entry]
        ensures { result.now ≡ row_at self.now.cells key.now archive slot }
    {
        match self.series.get(key) {
            Some(archives) => match archives.get(archive as usize) {
                Some(archive) => archive.row(slot),
                None => &[],
            },
            None => &[],
        }
    }
}

impl<A: Cells> Replica<A> {
    ghost use Rattle.rr_cells.specs.Joining.{with_cell, with_cells};
    ghost use Rattle.rr_replica.specs.Joining.{IsAfterJoined, IsJoinedWith};

    /// Whether fewer than `count` numbers are left.
    pub fn lacks_numbers(&self, count: usize) -> bool
        ensures { result ≡ lacks_numbers (replica_state self.now) count }
    {
        MAX_NUMBER + 1 - self.next < count as u64
    }

    /// Joins a cell from elsewhere, which is valid under the schema: the greater of it and what is
    /// at its name is kept, and then only the live cells. A cell of the replica's own origin whose
    /// version is the next number or past it moves the next number past it.
    ///
    /// A cell that is itself past the horizon leaves no trace among the cells. After an error
    /// nothing has changed. The cost is one lookup of the key and, in the cell's archive, one of
    /// the slot, the entries of a row, and the rows that go.
    pub fn join_cell(&mut self, cell: &Cell) -> Result<(), AllocError>
        requires { IsCellOf self.old.schema (owned_cell cell.now) }
        ensures state { Becomes (replica_state self.old)
            (with_cell (replica_state self.old) cell.now) (replica_state self.new) result }
        ensures room { HasRoomFor self.old (Op.Join cell.now) → IsOk result }
        ensures keys { knows self.old.keys cell.now.key ≡ true → self.new.keys ≡ self.old.keys }
    {
        join_in(&mut self.series, self.alloc, &self.schema, cell)?;
        self.next = next_after(self.origin, self.next, cell);
        Ok(())
    }

    /// Joins a cell as [`Replica::join_cell`] does, but with its series named by number, as
    /// [`Replica::series_of`] gives it. No key is looked up.
    pub fn join_cell_numbered(&mut self, series: usize, cell: &Cell) -> Result<(), AllocError>
        requires cell { IsCellOf self.old.schema (owned_cell cell.now) }
        requires key { slice_get self.old.keys series ≡ Some cell.now.key }
        ensures { BecomesInRoom (HasRoomFor self.old (Op.Join cell.now))
            (with_cell (replica_state self.old) cell.now) self.old self.new result }
    {
        join_at(&mut self.series, &self.schema, series, cell)?;
        self.next = next_after(self.origin, self.next, cell);
        Ok(())
    }

    /// Joins cells from elsewhere, in order, each as `join_cell` does. Joining all cells of a map
    /// this way is the join with that map. If memory runs out, `Memory` says how many cells, from
    /// the first on, were joined.
    pub fn join_cells(&mut self, cells: &[Cell]) -> Result<(), JoinFault>
        requires { All (λ c. IsCellOf self.old.schema (owned_cell c)) cells.now }
        ensures joined { OnOk result (replica_state self.new
            ≡ with_cells (replica_state self.old) cells.now) }
        ensures whole { OnOk result (IsJoinedWith (replica_state self.old) (replica_state self.new)
            cells.now) }
        ensures stopped { IfErr result (IsAfterJoined (replica_state self.old)
            (replica_state self.new) cells.now) }
        ensures cells_left { (joined : ℕ) → result ≡ Err (JoinFault.Memory joined)
            → joined < length cells.now }
    {
        // The proof needs the replica's invariant, which `schema` ensures.
        let _schema = self.schema();
        let mut joined = 0;
        for cell in cells {
            if self.join_cell(cell).is_err() {
                return Err(JoinFault::Memory { joined });
            }
            joined += 1;
        }
        Ok(())
    }
}
