//! The interface of an archive of one series: its cells, and its rows if they can be lent.
ghost use Rattle.std.specs.Prelude.{◌≡◌, ℕ, Bool, ◌≤◌, IsTrue, IsOk, OnOk, OnErr, IfOk, [], length, slice_get, vec_capacity};
ghost use Rattle.std.specs.Option.{option_map};
ghost use Rattle.std.specs.FinMap as fin;
ghost use Rattle.rr_contrib.specs.Contributions.{slot_sample};
ghost use Rattle.rr_archive.specs.CellSlots.{CellSlot, cell_slot, newest_of, IsSlot};
ghost use Rattle.rr_archive.specs.Cells.{ArchiveCells, AreInRange, IsTrimmed, changed_in_archive, put_in_archive, join_cell, row_of, cells_on, cell_of, next_cell};
ghost use Rattle.rr_archive.specs.Stored.{ArchiveTakes, CanPut, CanTake, IsRowCount, IsSameArchive};

use crate::change::Change;
use crate::entry::Entry;
use crate::new_sample::NewSample;
use rr_contrib::Contribution;
use rr_schema::Origin;
use std::alloc::{AllocError, Global};

/// The cells of one archive of one series, each the contribution of an origin to a slot.
///
/// It keeps the cells whose slots are live: above the newest slot less the rows of the archive. A
/// cell of any other slot is past the horizon and leaves no trace. Slots are from -9,223,372,037 to
/// 9,223,372,037. Only `ready`, `change`, `put`, `join_cell` and `copy` take memory, and
/// `entries_into` and `cells_into` if the list that they are given has too little.
pub trait Cells: Drop {
    ghost cells: { Self → ArchiveCells };

    ghost row_limit: { Self → ℕ };

    ghost is_ready: { Self → CellSlot → Bool };

    /// No cell is past the horizon.
    ghost is_trimmed: { (a : Self) → IsTrimmed (row_limit a) (cells a) };

    /// Each cell is of the slot of a time, and of an origin from 1 to 65,535.
    ghost in_range: { (a : Self) → AreInRange (cells a) };

    ghost has_rows: { (a : Self) → 1 ≤ row_limit a };

    /// An archive of `rows` rows, from 1 to 100,000, that holds no cell. It takes no memory yet.
    fn new(alloc: Global, rows: u32) -> Self
        requires { IsRowCount rows }
        ensures empty { cells result ≡ fin.empty }
        ensures limit { row_limit result ≡ rows };

    /// Makes room for a cell, so that the next change of the cell of this slot and origin can't
    /// fail. It changes no cell. Past the horizon no room is needed, and none is made; if there is
    /// room already, it can't fail.
    fn ready(&mut self, slot: i64, origin: Origin) -> Result<(), AllocError>
        requires { IsSlot slot }
        ensures same { IsSameArchive (row_limit self.old) (row_limit self.new) (cells self.old)
            (cells self.new) }
        ensures room { OnOk result (IsTrue (is_ready self.new (cell_slot slot origin))) }
        ensures room_suffices { IsTrue (is_ready self.old (cell_slot slot origin)) → IsOk result };

    /// Changes the cell of a slot and an origin, as `put` does with a sample and `join_cell` with a
    /// cell from elsewhere.
    ///
    /// Rows that are past the horizon afterwards are dropped; a change that is itself past it does
    /// nothing. After an error nothing has changed. The cost is at most logarithmic in the rows
    /// (one look-up of the slot), and linear in the entries of the row and in the rows dropped,
    /// empty ones included, and their entries.
    fn change(&mut self, slot: i64, origin: Origin, change: &Change) -> Result<(), AllocError>
        requires { CanTake (cells self.old) (cell_slot slot origin) change.now }
        ensures { ArchiveTakes (cell_slot slot origin)
            (changed_in_archive (row_limit self.old) (cells self.old) (cell_slot slot origin)
            change.now)
            (is_ready self.old (cell_slot slot origin)) (row_limit self.old) (row_limit self.new)
            (cells self.old) (cells self.new) result };

    /// Puts a sample of an origin into a slot. Its number, place, time and value are as for
    /// `Contribution::first`, or as for `Contribution::add` if there is such a cell. The horizon,
    /// errors and the cost are those of `change`.
    fn put(
        &mut self,
        slot: i64,
        origin: Origin,
        number: u64,
        place: u32,
        time: i64,
        value: i64,
    ) -> Result<(), AllocError>
        requires { CanPut (cells self.old) (cell_slot slot origin) number place }
        ensures { ArchiveTakes (cell_slot slot origin)
            (put_in_archive (row_limit self.old) (cells self.old) (cell_slot slot origin)
            (slot_sample number place time value))
            (is_ready self.old (cell_slot slot origin)) (row_limit self.old) (row_limit self.new)
            (cells self.old) (cells self.new) result }
    {
        let sample = NewSample {
            number,
            place,
            time,
            value,
        };
        self.change(slot, origin, &Change::Put(sample))
    }

    /// Joins a cell from elsewhere: the greater of the two contributions stays. The horizon, errors
    /// and the cost are those of `change`.
    fn join_cell(
        &mut self,
        slot: i64,
        origin: Origin,
        contribution: &Contribution,
    ) -> Result<(), AllocError>
        requires { IsSlot slot }
        ensures { ArchiveTakes (cell_slot slot origin)
            (join_cell (row_limit self.old) (cells self.old) (cell_slot slot origin)
            contribution.now)
            (is_ready self.old (cell_slot slot origin)) (row_limit self.old) (row_limit self.new)
            (cells self.old) (cells self.new) result }
    {
        self.change(slot, origin, &Change::Join(*contribution))
    }

    /// The greatest slot of a cell, if there is a cell.
    fn newest(&self) -> Option<i64>
        ensures { result ≡ newest_of (fin.keys (cells self.now)) };

    /// Replaces a row with the entries of a slot, ascending by origin. An error leaves the row
    /// empty; there is none if it has room for them. The cost is at most logarithmic in the rows,
    /// and linear in the entries.
    fn entries_into(&self, slot: i64, row: &mut Vec<Entry>) -> Result<(), AllocError>
        ensures written { OnOk result (row.new.items ≡ row_of (cells self.now) slot) }
        ensures emptied { OnErr result (row.new.items ≡ []) }
        ensures room { length (row_of (cells self.now) slot) ≤ vec_capacity row.old → IsOk result };

    /// Replaces a list with the cells of a run of slots from one on, in order, and returns how many
    /// slots the run has: as many as cost little to read together, so that whoever reads rows one
    /// after another asks once for many. An error leaves the list empty; there is none if it has
    /// room for the cells of each run from the slot on. The cost is that of `entries_into`, and
    /// linear in the slots and the cells of the run.
    fn cells_into(&self, slot: i64, run: &mut Vec<(i64, Entry)>) -> Result<u32, AllocError>
        ensures some { IfOk result (λ slots. 1 ≤ slots) }
        ensures written { IfOk result
            (λ slots. run.new.items ≡ cells_on (cells self.now) slot slots) }
        ensures emptied { OnErr result (run.new.items ≡ []) }
        ensures room { ((slots : ℕ)
            → length (cells_on (cells self.now) slot slots) ≤ vec_capacity run.old)
            → IsOk result };

    /// How many cells there are. The cost is at most linear in the rows.
    fn cell_count(&self) -> usize
        ensures { result ≡ fin.len (cells self.now) };

    /// The slot and the entry of a cell by its number, from 0, in order of slot and origin. The
    /// cost is linear in the rows before it, so a walk over many cells continues with `next_cell`.
    fn cell_at(&self, i: usize) -> Option<(i64, Entry)>
        ensures { result ≡ option_map cell_of (slice_get (fin.entries (cells self.now)) i) };

    /// The first cell after a slot and an origin, in order. The cost is at most logarithmic in the
    /// rows, and linear in those from the slot up to the one where it is found, and in the entries
    /// of that row.
    fn next_cell(&self, slot: i64, origin: Origin) -> Option<(i64, Entry)>
        ensures { result ≡ option_map cell_of
            (next_cell (cells self.now) (cell_slot slot origin)) };

    /// An archive with the same cells. The cost is linear in the cells.
    fn copy(&self, alloc: Global) -> Result<Self, AllocError>
        ensures cells { IfOk result (λ a. cells a ≡ cells self.now) }
        ensures limit { IfOk result (λ a. row_limit a ≡ row_limit self.now) };

    /// Makes rows that are likely to stay as they are ready to be shared by other archives; given
    /// another archive, takes the rows that it has made ready in place of its own, if both hold the
    /// same in them. It changes no cell. An archive that has no memory for it, or shares no rows,
    /// does nothing.
    fn share_rows(&mut self, other: Option<&Self>)
        ensures { IsSameArchive (row_limit self.old) (row_limit self.new) (cells self.old)
            (cells self.new) }
    {
        let _ = other;
    }
}

/// An archive that keeps its entries in memory as they are, and can lend them.
pub trait Archive: Cells {
    /// The entries of a slot, ascending by origin. The cost is at most logarithmic in the rows.
    fn row(&self, slot: i64) -> &[Entry]
        ensures { result.now ≡ row_of (Self.cells self.now) slot };
}
