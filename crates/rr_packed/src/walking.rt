//! Walks over the slots of blocks, skipping those that store nothing.
ghost use Rattle.std.specs.Prelude.{◌≡◌, ◌<◌, ◌≤◌, ◌+ℤ◌, ℕ, pos, None, []};
ghost use Rattle.rr_archive.specs.Stored.{PassesOver};
ghost use Rattle.rr_packed.specs.BlockRows.{entries_in_all};
ghost use Rattle.rr_packed.specs.Blocks.{all_blocks, block_at, row_at};
ghost use Rattle.rr_packed.specs.Slots.{block_of};

use crate::blocks::{Blocks, block_of, row_of};
use crate::row_number::RowRange;
use crate::rows::Rows;

impl Blocks {
    /// How many slots ahead the first block begins; 0 if it doesn't begin ahead.
    fn slots_to_first(&self, slot: i64) -> u128
        ensures { (i : ℕ) → i < result → row_at self.now (slot +ℤ pos i) ≡ [] }
    {
        let Some((first, _)) = self.nth(0) else {
            return 0;
        };
        let ahead = i128::from(*first) * 64 - i128::from(slot);
        if ahead <= 0 {
            return 0;
        }
        ahead as u128
    }

    /// How many slots ahead the next one to look at is, at most `most`: nothing is stored for those
    /// between. Slots before the first block, and a missing block, are skipped in one step.
    pub(crate) fn slots_on(&self, slot: i64, most: u32) -> u32
        ensures { PassesOver 1 most (λ i. row_at self.now (slot +ℤ pos i)) result }
    {
        let number = block_of(slot);
        match self.get(number) {
            Some(block) => most.min(block.rows_on(row_of(slot))),
            None => self.missing_on(slot, most),
        }
    }

    /// Like `slots_on`, for a slot whose block is missing: nothing is stored for it either.
    pub(crate) fn missing_on(&self, slot: i64, most: u32) -> u32
        requires { block_at (all_blocks self.now) (block_of slot) ≡ None }
        ensures { PassesOver 0 most (λ i. row_at self.now (slot +ℤ pos i)) result }
    {
        let to_first = self.slots_to_first(slot).min(u128::from(most)) as u32;
        most.min(64 - row_of(slot).value).max(to_first)
    }

    /// How many slots from `slot` on are looked at in one step, at most `most`, and how many
    /// entries are stored for them in all. A step ends with its block, or skips slots as `slots_on`
    /// does.
    pub(crate) fn entries_on(&self, slot: i64, most: u32) -> (u32, usize)
        requires { 1 ≤ most }
        ensures at_least_one { 1 ≤ result.0 }
        ensures at_most { result.0 ≤ most }
        ensures counted { result.1
            ≡ entries_in_all (λ i. row_at self.now (slot +ℤ pos i)) result.0 }
    {
        let number = block_of(slot);
        let row = row_of(slot);
        match self.get(number) {
            Some(block) => {
                let on = most.min(64 - row.value);
                (
                    on,
                    block.entries_on(RowRange {
                        first: row,
                        count: on,
                    }),
                )
            }
            None => (self.missing_on(slot, most), 0),
        }
    }
}
