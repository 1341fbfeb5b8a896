//! An archive of packed rows.
ghost use Rattle.std.specs.Prelude.{◌≡◌, ◌≤◌, IsTrue, OnOk};
ghost use Rattle.std.proofs.Props.{props};
ghost use Rattle.std.specs.FinMap.{entries};
ghost use Rattle.std.specs.List.{slice_get};
ghost use Rattle.std.specs.Option.{option_map};
ghost use Rattle.rr_archive.specs.CellSlots.{cell_slot};
ghost use Rattle.rr_archive.specs.Cells.{cell_of};
ghost use Rattle.rr_archive.specs.Codes.{coded_rows};
ghost use Rattle.rr_archive.specs.Stored.{CanTake, ChangesCell};
ghost use Rattle.rr_join.specs.Horizon.{is_above};
ghost use Rattle.rr_packed.specs.PackedCells.{HasNonePast, IsArchiveState, cells_in, is_ready_in};

use crate::blocks::Blocks;
use rr_archive::change::Change;
use rr_archive::live_slots::{first_live, is_live, later, rows_before};
use rr_archive::{Cells, Entry};
use rr_schema::Origin;
use std::alloc::{AllocError, Global};

/// The cells of one archive of one series, packed. 64 consecutive rows make a block, which is the
/// archive's own, or finished.
///
/// A block of its own takes 24 bytes for a row of one sample, and none for a row without samples.
/// The list of its rows takes memory for 1, 4, 16, 64. A finished block is held as the bytes of its
/// cells, as `rr_codec` packs them; the last one also keeps its rows, if each is of one sample.
/// Either takes 88 bytes besides, a finished one a few words more. The newest block is held in
/// place: a series with few rows needs no list of blocks. The list of the older ones takes memory
/// for 1, 2, 4, 8 .. blocks.
///
/// `ready`, `put` and `join_cell` find the newest block in one step, and another in time
/// logarithmic in the blocks; they are linear in the entries of the row, in the rows of its block
/// after it, and in the blocks that are then past the horizon. A call that makes a block of an
/// earlier slot moves the blocks before it, or those after it if these are fewer. A call for a
/// finished block copies its rows, or unpacks them: that is linear in its cells, and the block is
/// the archive's own from then on.
///
/// `ready` makes room for a row of either kind, and `put` and `join_cell` give back what was made
/// for entries if a block has none. A row of one sample that is to be changed is held as its
/// entries from then on, 112 bytes for the first of them.
///
/// `share_rows` packs the block before the newest, and the one packed before it no longer keeps its
/// rows. With another archive, it compares the rows with those of the other's block, and takes that
/// block in place of its own if they are the same; if the other's keeps none, it packs its own, and
/// compares the bytes. It goes on with the blocks before it, up to one that is already packed or
/// can't be. Without memory to pack it, a block keeps its rows, and gives back the memory that its
/// lists don't need.
///
/// `entries_into` finds its block as `put` does. Looking into packed rows reads the cells from the
/// first on. A run of `cells_into` is the rest of a block, or of a missing one, or the slots up to
/// the first block. `cell_count` looks for each block between the first and the last, there or not,
/// and is linear in these, in the rows held as their entries, and in the cells of the first block
/// if it is packed. `cell_at` finds the blocks up to that of the cell as `cell_count` does, and
/// looks at each row before it in that block; `next_cell`, and `cell_at` for the first cell, look
/// at the rows with an entry from a slot on, and are linear in the missing blocks between, each at
/// the cost of finding a block.
#[derive(Drop)]
pub struct PackedArchive {
    rows: u32,
    newest: Option<i64>,
    blocks: Blocks,
    ghost some_row: { 1 ≤ rows },
    ghost held: { IsArchiveState rows newest blocks } by { Prim.hlevel (props, coded_rows) },
}

impl PackedArchive {
    /// Changes the cell of a slot and an origin. A change past the horizon is ignored.
    #[inline(always)]
    fn change_cell(&mut self, slot: i64, origin: Origin, change: &Change) -> Result<(), AllocError>
        requires { CanTake (cells_in self.old.rows self.old.newest self.old.blocks)
            (cell_slot slot origin) change.now }
        ensures cells { ChangesCell (cell_slot slot origin) change.now self.old.newest
            (is_ready_in self.old.rows self.old.newest self.old.blocks (cell_slot slot origin))
            self.old.rows self.new.rows (cells_in self.old.rows self.old.newest self.old.blocks)
            (cells_in self.new.rows self.new.newest self.new.blocks) result }
        ensures none_past { OnOk result (IsTrue (is_above self.old.rows self.old.newest slot)
            → HasNonePast self.new.rows self.new.newest self.new.blocks) }
    {
        if !is_live(self.rows, self.newest, slot) {
            return Ok(());
        }
        // The proof needs that the origin is from 1 to 65,535, which `get` ensures.
        let _number = origin.get();
        let newest = later(self.newest, slot);
        self.blocks.change(slot, origin, change)?;
        self.blocks.drop_before(first_live(self.rows, newest));
        self.newest = Some(newest);
        Ok(())
    }

    /// The first cell. The rows before it are skipped by their masks, and no cell is counted.
    fn first_cell(&self) -> Option<(i64, Entry)>
        ensures { result ≡ option_map cell_of (slice_get
            (entries (cells_in self.now.rows self.now.newest self.now.blocks)) 0) }
    {
        let Some(newest) = self.newest else {
            return None;
        };
        let first = first_live(self.rows, newest);
        let mut k = 0;
        while k < self.rows {
            let slot = first + i64::from(k);
            if let Some(entry) = self.blocks.nth_entry(slot, 0) {
                return Some((slot, entry));
            }
            k += self.blocks.slots_on(slot, self.rows - k);
        }
        None
    }
}

impl Cells for PackedArchive {
    ghost cells = { λ a. cells_in a.rows a.newest a.blocks };

    ghost row_limit = { λ a. a.rows };

    ghost is_ready = { λ a p. is_ready_in a.rows a.newest a.blocks p };

    ghost is_trimmed = { λ a. a.held.live };

    ghost in_range = { λ a. a.held.in_range };

    ghost has_rows = { λ a. a.some_row };

    fn new(alloc: Global, rows: u32) -> PackedArchive {
        PackedArchive {
            rows,
            newest: None,
            blocks: Blocks::new(alloc),
        }
    }

    #[inline(always)]
    fn ready(&mut self, slot: i64, origin: Origin) -> Result<(), AllocError> {
        if is_live(self.rows, self.newest, slot) {
            self.blocks.make_room(slot, origin)
        } else {
            Ok(())
        }
    }

    #[inline(always)]
    fn change(&mut self, slot: i64, origin: Origin, change: &Change) -> Result<(), AllocError> {
        self.change_cell(slot, origin, change)
    }

    fn newest(&self) -> Option<i64> {
        self.newest
    }

    fn entries_into(&self, slot: i64, row: &mut Vec<Entry>) -> Result<(), AllocError> {
        row.clear();
        if !is_live(self.rows, self.newest, slot) {
            return Ok(());
        }
        if let Err(error) = self.blocks.row_into(slot, row) {
            row.clear();
            return Err(error);
        }
        Ok(())
    }

    fn cells_into(&self, slot: i64, run: &mut Vec<(i64, Entry)>) -> Result<u32, AllocError> {
        run.clear();
        let Some(newest) = self.newest else {
            return Ok(1);
        };
        if newest < slot || !is_live(self.rows, self.newest, slot) {
            return Ok(1);
        }
        let read = self.blocks.cells_into(slot, run);
        if read.is_err() {
            run.clear();
        }
        read
    }

    fn cell_count(&self) -> usize {
        let Some(newest) = self.newest else {
            return 0;
        };
        let first = first_live(self.rows, newest);
        let mut count = 0;
        let mut k = 0;
        while k < self.rows {
            let slot = first + i64::from(k);
            let (on, entries) = self.blocks.entries_on(slot, self.rows - k);
            count += entries;
            k += on;
        }
        count
    }

    fn cell_at(&self, i: usize) -> Option<(i64, Entry)> {
        if i == 0 {
            return self.first_cell();
        }
        let Some(newest) = self.newest else {
            return None;
        };
        let first = first_live(self.rows, newest);
        let mut left = i;
        let mut k = 0;
        while k < self.rows {
            let slot = first + i64::from(k);
            let (on, entries) = self.blocks.entries_on(slot, self.rows - k);
            if left < entries {
                return self.blocks.nth_cell(slot, on, left);
            }
            left -= entries;
            k += on;
        }
        None
    }

    fn next_cell(&self, slot: i64, origin: Origin) -> Option<(i64, Entry)> {
        let Some(newest) = self.newest else {
            return None;
        };
        let first = first_live(self.rows, newest);
        if newest < slot {
            return None;
        }
        let mut k = rows_before(slot, first, self.rows);
        while k < self.rows {
            let at = first + i64::from(k);
            if let Some(entry) = self.blocks.first_after(at, slot < at, origin) {
                return Some((at, entry));
            }
            k += self.blocks.slots_on(at, self.rows - k);
        }
        None
    }

    fn copy(&self, alloc: Global) -> Result<PackedArchive, AllocError> {
        Ok(PackedArchive {
            rows: self.rows,
            newest: self.newest,
            blocks: self.blocks.copy(alloc)?,
        })
    }

    fn share_rows(&mut self, other: Option<&PackedArchive>) {
        let others = match other {
            Some(other) => Some(&other.blocks),
            None => None,
        };
        self.blocks.share(others);
    }
}
