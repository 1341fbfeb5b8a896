//! The trait through which the rows of a block are read, however they are held.
ghost use Rattle.std.specs.Prelude.{◌≡◌, ◌+◌, ◌-◌, ◌++◌, ◌≤◌, ◌≤ℤ◌, ℕ, pos, List, length, slice_get, vec_capacity, IsOk, OnOk};
ghost use Rattle.std.specs.List.{find};
ghost use Rattle.rr_text.specs.declared.limits.TheConstants.{MAX_SECOND};
ghost use Rattle.rr_archive.specs.declared.entry.Entry.{Entry};
ghost use Rattle.rr_archive.specs.Row.{is_after};
ghost use Rattle.rr_archive.specs.Stored.{PassesOver};
ghost use Rattle.rr_packed.specs.BlockRows.{entries_in_all};
ghost use Rattle.rr_packed.specs.PackedRows.{cells_of_rows};

use crate::row_number::{RowNumber, RowRange};
use rr_archive::Entry;
use rr_schema::Origin;
use std::alloc::AllocError;

/// The rows of a block, by their numbers in it from 0 to 63.
pub(crate) trait Rows {
    ghost items: { Self → ℕ → List Entry };

    /// Adds the entries of a row to a list.
    fn row_into(&self, number: RowNumber, row: &mut Vec<Entry>) -> Result<(), AllocError>
        ensures added { OnOk result (row.new.items
            ≡ row.old.items ++ items self.now number.value) }
        ensures room { length row.old.items + length (items self.now number.value)
            ≤ vec_capacity row.old → IsOk result };

    /// The first entry of a row, if it is in a later slot than the origin's; else its first after
    /// the origin.
    fn first_after(&self, number: RowNumber, is_later: bool, origin: Origin) -> Option<Entry>
        ensures { result ≡ find (is_after is_later origin) (items self.now number.value) };

    /// The `i`th entry of a row, from 0.
    fn nth(&self, number: RowNumber, i: usize) -> Option<Entry>
        ensures { result ≡ slice_get (items self.now number.value) i };

    /// Adds the cells of the rows from `first` on to a list, in the slots from `slot` on. If the
    /// list has room for them, it can't fail.
    fn cells_into(
        &self,
        first: RowNumber,
        slot: i64,
        run: &mut Vec<(i64, Entry)>,
    ) -> Result<(), AllocError>
        requires { slot ≤ℤ pos MAX_SECOND }
        ensures added { OnOk result (run.new.items ≡ run.old.items
            ++ cells_of_rows (λ i. items self.now (first.value + i)) slot (64 - first.value)) }
        ensures room { length run.old.items + length (cells_of_rows
            (λ i. items self.now (first.value + i)) slot (64 - first.value))
            ≤ vec_capacity run.old → IsOk result };

    /// The distance from a number to the next that has a row, or to the end of the block: those
    /// between have no entry. The cost is constant.
    fn rows_on(&self, number: RowNumber) -> u32
        ensures { PassesOver 1 (64 - number.value) (λ i. items self.now (number.value + i))
            result };

    /// How many entries some rows have in all.
    fn entries_on(&self, rows: RowRange) -> usize
        ensures { result
            ≡ entries_in_all (λ i. items self.now (rows.first.value + i)) rows.count };
}
