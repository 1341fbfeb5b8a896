//! What a block stores for a row, and for those after it.
ghost use Rattle.rr_packed.specs.BlockRows.{items_in};

use crate::block::{BLOCK_ROWS, Block};
use crate::mask::{next_on, ones_on};
use crate::row_number::{RowNumber, RowRange};
use crate::rows::Rows;
use rr_archive::Entry;
use rr_archive::row::{first_after, push_cells};
use rr_schema::Origin;
use std::alloc::AllocError;

impl Rows for Block {
    ghost items = { λ b. items_in b };

    fn row_into(&self, number: RowNumber, row: &mut Vec<Entry>) -> Result<(), AllocError> {
        row.extend_from_slice(self.row(number).as_slice())
    }

    fn first_after(&self, number: RowNumber, is_later: bool, origin: Origin) -> Option<Entry> {
        first_after(self.row(number).as_slice(), is_later, origin)
    }

    fn nth(&self, number: RowNumber, i: usize) -> Option<Entry> {
        self.row(number).as_slice().get(i).copied()
    }

    fn cells_into(
        &self,
        first: RowNumber,
        slot: i64,
        run: &mut Vec<(i64, Entry)>,
    ) -> Result<(), AllocError> {
        for i in 0..BLOCK_ROWS - first.value {
            let row = self.row(RowNumber {
                value: first.value + i,
            });
            push_cells(run, slot + i64::from(i), row.as_slice())?;
        }
        Ok(())
    }

    fn rows_on(&self, number: RowNumber) -> u32 {
        next_on(self.mask(), number)
    }

    /// Rows held as samples are counted at once, by their bits; others one by one.
    fn entries_on(&self, rows: RowRange) -> usize {
        let read = self.samples.mask & !self.rows.mask;
        let mut count = match self.source {
            Some(_) => ones_on(read, rows),
            None => 0,
        };
        for entries in self.rows.items_on(rows) {
            count += entries.as_slice().len();
        }
        count
    }
}
