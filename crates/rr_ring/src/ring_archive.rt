//! An archive as a ring of rows.
ghost use Rattle.std.specs.Prelude.{◌≡◌, ◌≤◌, ◌<◌, ◌+◌, ◌+ℤ◌, ◌≤ℤ◌, ℤ, pos, Some};
ghost use Rattle.std.proofs.Props.{props};
ghost use Rattle.std.specs.FinMap as fin;
ghost use Rattle.rr_join.specs.Horizon.{is_above};
ghost use Rattle.rr_archive.specs.CellSlots.{cell_slot, IsSlot};
ghost use Rattle.rr_archive.specs.Codes.{coded_rows};
ghost use Rattle.rr_archive.specs.Stored.{CanTake, ChangesCell};
ghost use Rattle.rr_ring.specs.RingCells.{AreInOrder, IsArchiveState, cells_in, is_ready_in};

use crate::ring::Ring;
use rr_archive::change::Change;
use rr_archive::live_slots::{first_live, is_live, later, rows_before};
use rr_archive::row::{first_after, push_cells};
use rr_archive::{Archive, Cells, Entry};
use rr_schema::Origin;
use std::alloc::{AllocError, Global};

/// The cells of one archive of one series, as a ring of rows.
///
/// `row` and `cell_count` take constant time. So do `ready`, `put` and `join_cell` in a row of one
/// origin that is not after the newest slot, and they take no memory if the block of the row is
/// made; in a row of several origins they are linear in its entries, and after the newest slot in
/// the slots passed, at most the rows. `cell_at` is linear in the rows before the cell, and
/// `next_cell` in those up to the cell.
#[derive(Drop)]
pub struct RingArchive {
    newest: Option<i64>,
    count: usize,
    ring: Ring,
    ghost held: { IsArchiveState newest count ring } by { Prim.hlevel (props, coded_rows) },
}

/// How many of `rows` rows fall past the horizon as the newest slot moves on to a later one.
fn rows_passed(newest: i64, top: i64, rows: u32) -> u32
    requires { AreInOrder newest top }
    ensures at_most { result ≤ rows }
    ensures before { (newest +ℤ pos result) ≤ℤ top }
    ensures all { result < rows → newest +ℤ pos result ≡ top }
{
    if i64::from(rows) <= top - newest {
        rows
    } else {
        (top - newest) as u32
    }
}

impl RingArchive {
    /// How many cells are past the horizon once the newest slot is this one.
    fn dead_cells(&self, top: i64) -> usize
        requires slot { IsSlot top }
        requires later { (newest : ℤ) → self.now.newest ≡ Some newest → newest ≤ℤ top }
        ensures { result + fin.len (fin.retain_keys (cells_in self.now.newest self.now.ring)
            (λ p. is_above self.now.ring.rows (Some top) p.slot))
            ≡ fin.len (cells_in self.now.newest self.now.ring) }
    {
        let Some(newest) = self.newest else {
            return 0;
        };
        let first = first_live(self.ring.rows, newest);
        let mut dead = 0;
        for k in 0..rows_passed(newest, top, self.ring.rows) {
            dead += self.ring.row(first + i64::from(k)).len();
        }
        dead
    }

    /// Changes the cell of a slot and an origin. A change past the horizon is skipped.
    fn change_cell(&mut self, slot: i64, origin: Origin, change: &Change) -> Result<(), AllocError>
        requires { CanTake (cells_in self.old.newest self.old.ring) (cell_slot slot origin)
            change.now }
        ensures { ChangesCell (cell_slot slot origin) change.now self.old.newest
            (is_ready_in self.old.newest self.old.ring (cell_slot slot origin))
            self.old.ring.rows self.new.ring.rows (cells_in self.old.newest self.old.ring)
            (cells_in self.new.newest self.new.ring) result }
    {
        if !is_live(self.ring.rows, self.newest, slot) {
            return Ok(());
        }
        // Origins have 16 bits, so the cells can be counted.
        let _number = origin.get();
        let newest = later(self.newest, slot);
        let dead = self.dead_cells(newest);
        let is_new = self.ring.change(slot, origin, change)?;
        self.count = self.count - dead + usize::from(is_new);
        self.newest = Some(newest);
        Ok(())
    }
}

impl Cells for RingArchive {
    ghost cells = { λ a. cells_in a.newest a.ring };

    ghost row_limit = { λ a. a.ring.rows };

    ghost is_ready = { λ a p. is_ready_in a.newest a.ring p };

    ghost is_trimmed = { λ a. a.held.live };

    ghost in_range = { λ a. a.held.in_range };

    ghost has_rows = { λ a. a.ring.rows_at_least };

    fn new(alloc: Global, rows: u32) -> RingArchive {
        RingArchive {
            newest: None,
            count: 0,
            ring: Ring::new(alloc, rows),
        }
    }

    fn ready(&mut self, slot: i64, origin: Origin) -> Result<(), AllocError> {
        if is_live(self.ring.rows, self.newest, slot) {
            self.ring.make_room(slot, origin)
        } else {
            Ok(())
        }
    }

    fn change(&mut self, slot: i64, origin: Origin, change: &Change) -> Result<(), AllocError> {
        self.change_cell(slot, origin, change)
    }

    fn newest(&self) -> Option<i64> {
        self.newest
    }

    fn entries_into(&self, slot: i64, row: &mut Vec<Entry>) -> Result<(), AllocError> {
        row.clear();
        row.extend_from_slice(self.row(slot))
    }

    fn cells_into(&self, slot: i64, run: &mut Vec<(i64, Entry)>) -> Result<u32, AllocError> {
        run.clear();
        if let Err(error) = push_cells(run, slot, self.row(slot)) {
            run.clear();
            return Err(error);
        }
        Ok(1)
    }

    fn cell_count(&self) -> usize {
        self.count
    }

    fn cell_at(&self, i: usize) -> Option<(i64, Entry)> {
        let Some(newest) = self.newest else {
            return None;
        };
        let first = first_live(self.ring.rows, newest);
        let mut left = i;
        let mut k = 0;
        while k < self.ring.rows {
            let slot = first + i64::from(k);
            let row = self.ring.row(slot);
            if left < row.len() {
                return Some((slot, row[left]));
            }
            left -= row.len();
            k += self.ring.slots_on(slot, self.ring.rows - k);
        }
        None
    }

    fn next_cell(&self, slot: i64, origin: Origin) -> Option<(i64, Entry)> {
        let Some(newest) = self.newest else {
            return None;
        };
        let first = first_live(self.ring.rows, newest);
        if newest < slot {
            return None;
        }
        let mut k = rows_before(slot, first, self.ring.rows);
        while k < self.ring.rows {
            let at = first + i64::from(k);
            if let Some(entry) = first_after(self.ring.row(at), slot < at, origin) {
                return Some((at, entry));
            }
            k += self.ring.slots_on(at, self.ring.rows - k);
        }
        None
    }

    fn copy(&self, alloc: Global) -> Result<RingArchive, AllocError> {
        Ok(RingArchive {
            newest: self.newest,
            count: self.count,
            ring: self.ring.copy(alloc)?,
        })
    }
}

impl Archive for RingArchive {
    fn row(&self, slot: i64) -> &[Entry] {
        if is_live(self.ring.rows, self.newest, slot) {
            self.ring.row(slot)
        } else {
            &[]
        }
    }
}
