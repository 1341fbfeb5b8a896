//! The rows of a block, packed.
ghost use Rattle.std.specs.Prelude.{◌≡◌, ℕ, pos, [], length, IfOk, IfSome, IsTrue, Ok};
ghost use Rattle.rr_codec.specs.Reading.{packed_at};
ghost use Rattle.std.proofs.Props.{props};
ghost use Rattle.rr_packed.specs.PackedRows.{AreMasked, ArePackedRows, cells_of_rows, cells_packed, coded_entry, entries_at, is_on, items_packed, left_of};

use crate::block::{BLOCK_ROWS, Block};
use crate::cells_left::CellsLeft;
use crate::mask::next_on;
use crate::row_number::{RowNumber, RowRange};
use crate::rows::Rows;
use rr_archive::Entry;
use rr_archive::row::is_after;
use rr_codec::encode;
use rr_schema::Origin;
use std::alloc::{AllocError, Global};

/// The rows of a block as packed bytes, as `rr_codec` packs them. They never change. Reading a row
/// costs as much as reading all cells up to its end.
///
/// The mask has a bit for each row that has an entry, so that a walk skips the others.
#[derive(Drop)]
pub(crate) struct PackedRows {
    mask: u64,
    count: usize,
    bytes: Vec<u8>,
    ghost packed: { ArePackedRows bytes.items } by { Prim.hlevel (props, coded_entry) },
    ghost masked: { AreMasked mask bytes.items } by { Prim.hlevel (props, coded_entry) },
    ghost counted: { count ≡ length (cells_packed bytes.items) },
}

/// Cells as packed bytes, in no more memory than they need; none without memory for it, or of 2^32
/// cells or more.
fn packed(alloc: Global, cells: &[(i64, Entry)]) -> Option<Vec<u8>>
    ensures { IfSome result (λ bytes. packed_at bytes.items ≡ Ok (cells.now, [])) }
{
    if cells.len() >= 1 << 32 {
        return None;
    }
    match encode(alloc, cells) {
        Ok(mut bytes) => {
            bytes.shrink_to_fit();
            Some(bytes)
        }
        Err(_) => None,
    }
}

/// Whether a row is one of these.
fn is_in(number: RowNumber, rows: RowRange) -> bool
    ensures { result ≡ is_on rows.first.value rows.count (pos number.value) }
{
    rows.first.value <= number.value && number.value - rows.first.value < rows.count
}

impl PackedRows {
    ghost use Rattle.rr_packed.specs.BlockRows.{items_in};

    /// The cells of a block, in order of their rows.
    fn cells_of(alloc: Global, block: &Block) -> Result<Vec<(i64, Entry)>, AllocError>
        ensures { IfOk result
            (λ cells. cells.items ≡ cells_of_rows (items_in block.now) (pos 0) 64) }
    {
        let all = RowRange {
            first: RowNumber { value: 0 },
            count: BLOCK_ROWS,
        };
        let mut cells = Vec::with_capacity(alloc, block.entries_on(all))?;
        block.cells_into(all.first, 0, &mut cells)?;
        Ok(cells)
    }

    /// The rows of a block, packed in no more memory than they need; none without memory for it, or
    /// of 2^32 entries or more. The cost is that of packing their cells.
    pub(crate) fn of(alloc: Global, block: &Block) -> Option<PackedRows>
        ensures { IfSome result (λ packed. items_packed packed.bytes.items ≡ items_in block.now) }
    {
        let Ok(cells) = PackedRows::cells_of(alloc, block) else {
            return None;
        };
        let bytes = packed(alloc, &cells)?;
        Some(PackedRows {
            mask: block.mask(),
            count: cells.len(),
            bytes,
        })
    }

    /// All cells, to be read in order.
    fn cells(&self) -> CellsLeft<'_>
        ensures all { left_of result.decoder.cells ≡ cells_packed self.now.bytes.items }
        ensures rows { (number : ℕ) → entries_at (left_of result.decoder.cells) (pos number)
            ≡ items_packed self.now.bytes.items number }
    {
        CellsLeft::of(&self.bytes)
    }

    /// Whether other rows are packed as the same bytes, and so are the same.
    pub(crate) fn is_same(&self, other: &PackedRows) -> bool
        ensures { IsTrue result
            → items_packed self.now.bytes.items ≡ items_packed other.now.bytes.items }
    {
        self.bytes == other.bytes
    }

    /// The same rows, in a block that can be changed. The cost is that of reading the cells and
    /// adding each to its row.
    pub(crate) fn unpack(&self, alloc: Global) -> Result<Block, AllocError>
        ensures { IfOk result (λ block. items_in block ≡ items_packed self.now.bytes.items) }
    {
        let mut block = Block::new(alloc);
        let mut cells = self.cells();
        while let Some(cell) = cells.next() {
            block.append(cell.number, cell.entry)?;
        }
        Ok(block)
    }
}

impl Rows for PackedRows {
    ghost items = { λ p. items_packed p.bytes.items };

    fn row_into(&self, number: RowNumber, row: &mut Vec<Entry>) -> Result<(), AllocError> {
        let mut cells = self.cells();
        while let Some(entry) = cells.next_of(number) {
            row.push(entry)?;
        }
        Ok(())
    }

    fn first_after(&self, number: RowNumber, is_later: bool, origin: Origin) -> Option<Entry> {
        let mut cells = self.cells();
        while let Some(entry) = cells.next_of(number) {
            if is_after(&entry, is_later, origin) {
                return Some(entry);
            }
        }
        None
    }

    fn nth(&self, number: RowNumber, i: usize) -> Option<Entry> {
        let mut cells = self.cells();
        let mut before = i;
        while let Some(entry) = cells.next_of(number) {
            if before == 0 {
                return Some(entry);
            }
            before -= 1;
        }
        None
    }

    fn cells_into(
        &self,
        first: RowNumber,
        slot: i64,
        run: &mut Vec<(i64, Entry)>,
    ) -> Result<(), AllocError> {
        let mut cells = self.cells();
        while let Some(cell) = cells.next() {
            if cell.number.value < first.value {
                continue;
            }
            let on = cell.number.value - first.value;
            run.push((slot + i64::from(on), cell.entry))?;
        }
        Ok(())
    }

    fn rows_on(&self, number: RowNumber) -> u32 {
        next_on(self.mask, number)
    }

    /// The cost is constant for all rows, and that of reading the cells for some of them.
    fn entries_on(&self, rows: RowRange) -> usize {
        let all = self.count;
        if rows.count == BLOCK_ROWS {
            return all;
        }
        let mut count = 0;
        let mut cells = self.cells();
        while let Some(cell) = cells.next() {
            if is_in(cell.number, rows) {
                count += 1;
            }
        }
        count
    }
}
