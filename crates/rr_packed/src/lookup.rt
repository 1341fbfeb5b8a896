//! What blocks store for a slot, and for those after it.
ghost use Rattle.std.specs.Prelude.{◌≡◌, ◌+◌, ◌++◌, ◌≤◌, ◌+ℤ◌, ◌≤ℤ◌, ℕ, pos, length, slice_get, vec_capacity, IfOk, IsOk, OnOk};
ghost use Rattle.std.specs.List.{find};
ghost use Rattle.std.specs.Option.{option_map};
ghost use Rattle.rr_text.specs.declared.limits.TheConstants.{MAX_SECOND};
ghost use Rattle.rr_archive.specs.Cells.{cell_of};
ghost use Rattle.rr_archive.specs.LiveRows.{cells_from};
ghost use Rattle.rr_archive.specs.Row.{is_after};
ghost use Rattle.rr_packed.specs.Blocks.{row_at};
ghost use Rattle.rr_packed.specs.PackedRows.{cells_of_rows};

use crate::blocks::{Blocks, block_of, row_of};
use crate::rows::Rows;
use rr_archive::Entry;
use rr_schema::Origin;
use std::alloc::AllocError;

impl Blocks {
    /// Adds the entries of a slot to a list.
    pub(crate) fn row_into(&self, slot: i64, row: &mut Vec<Entry>) -> Result<(), AllocError>
        ensures added { OnOk result (row.new.items ≡ row.old.items ++ row_at self.now slot) }
        ensures room { length row.old.items + length (row_at self.now slot)
            ≤ vec_capacity row.old → IsOk result }
    {
        let number = block_of(slot);
        match self.get(number) {
            Some(block) => block.row_into(row_of(slot), row),
            None => Ok(()),
        }
    }

    /// The first entry of a slot, if it is later than the origin's; else its first after the
    /// origin.
    pub(crate) fn first_after(&self, slot: i64, is_later: bool, origin: Origin) -> Option<Entry>
        ensures { result ≡ find (is_after is_later origin) (row_at self.now slot) }
    {
        let number = block_of(slot);
        match self.get(number) {
            Some(block) => block.first_after(row_of(slot), is_later, origin),
            None => None,
        }
    }

    /// The `i`th entry of a slot, from 0.
    pub(crate) fn nth_entry(&self, slot: i64, i: usize) -> Option<Entry>
        ensures { result ≡ slice_get (row_at self.now slot) i }
    {
        let number = block_of(slot);
        match self.get(number) {
            Some(block) => block.nth(row_of(slot), i),
            None => None,
        }
    }

    /// The `i`th cell, from 0, among those of `slots` slots from `slot` on. Each of the slots
    /// before it is looked at, so they should be few.
    pub(crate) fn nth_cell(&self, slot: i64, slots: u32, i: usize) -> Option<(i64, Entry)>
        requires { slot ≤ℤ pos MAX_SECOND }
        ensures { result
            ≡ option_map cell_of (slice_get (cells_from (row_at self.now) slot slots) i) }
    {
        let mut left = i;
        for k in 0..slots {
            let at = slot + i64::from(k);
            let (_, entries) = self.entries_on(at, 1);
            if left < entries {
                return self.nth_entry(at, left).map(|entry| (at, entry));
            }
            left -= entries;
        }
        None
    }

    /// Adds the cells of a run of slots from `slot` on to a list, and returns how many slots the
    /// run has: the rest of a block, or slots that store nothing. If the list has room for the
    /// cells of each run from `slot` on, it can't fail.
    pub(crate) fn cells_into(
        &self,
        slot: i64,
        run: &mut Vec<(i64, Entry)>,
    ) -> Result<u32, AllocError>
        requires { slot ≤ℤ pos MAX_SECOND }
        ensures some { IfOk result (λ slots. 1 ≤ slots) }
        ensures added { IfOk result (λ slots. run.new.items ≡ run.old.items
            ++ cells_of_rows (λ i. row_at self.now (slot +ℤ pos i)) slot slots) }
        ensures room { ((slots : ℕ) → length run.old.items + length (cells_of_rows
            (λ i. row_at self.now (slot +ℤ pos i)) slot slots) ≤ vec_capacity run.old)
            → IsOk result }
    {
        let number = block_of(slot);
        let row = row_of(slot);
        match self.get(number) {
            Some(block) => {
                block.cells_into(row, slot, run)?;
                Ok(64 - row.value)
            }
            None => Ok(self.missing_on(slot, u32::MAX)),
        }
    }
}
