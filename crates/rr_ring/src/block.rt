//! A block of stored rows, whose positions follow one another.
ghost use Rattle.std.specs.Prelude.{◌≡◌, ◌<◌, [], length, map, is_none, IsTrue, IsOk, OnOk, OnErr, IfOk};
ghost use Rattle.rr_archive.specs.Row.{entry_at};
ghost use Rattle.rr_archive.specs.Changes.{Fits, entry_after};
ghost use Rattle.rr_archive.specs.Stored.{MakesRoom};
ghost use Rattle.rr_ring.specs.StoredRows.{slot_and_entries};
ghost use Rattle.rr_ring.specs.Blocks.{block_items, has_room_in, IsChanged};

use crate::stored_row::StoredRow;
use rr_archive::Entry;
use rr_archive::change::Change;
use rr_schema::Origin;
use std::alloc::{AllocError, Global};

/// The rows of a block; the last block of a ring may have fewer.
pub(crate) const BLOCK_ROWS: usize = 64;

const _: () = prove!(BLOCK_ROWS == 64);

/// The stored rows of a block, by their number in it. Those at its end may not be made yet.
#[derive(Drop)]
pub(crate) struct Block {
    alloc: Global,
    rows: Vec<StoredRow>,
}

impl Block {
    /// A block with no rows made. It takes no memory yet.
    pub(crate) fn new(alloc: Global) -> Block
        ensures { result.rows.items ≡ [] }
    {
        Block {
            alloc,
            rows: Vec::new(alloc),
        }
    }

    /// The entries of a slot in the row with this number.
    pub(crate) fn entries(&self, number: usize, slot: i64) -> &[Entry]
        ensures { result.now ≡ block_items self.now number slot }
    {
        match self.rows.get(number) {
            Some(row) => row.entries(slot),
            None => &[],
        }
    }

    /// How many rows are made: those with a number from this one on have no entry.
    pub(crate) fn rows_made(&self) -> usize
        ensures { result ≡ length self.now.rows.items }
    {
        self.rows.len()
    }

    /// Makes the rows up to a number, in a block that is to have `len` rows. Memory is taken as it
    /// fills, for 4, 8, 16, 32 and 64 rows.
    fn make_rows(&mut self, number: usize, len: usize) -> Result<(), AllocError>
        ensures same { block_items self.new ≡ block_items self.old }
        ensures made { OnOk result (number < length self.new.rows.items) }
        ensures rows_stay { number < length self.old.rows.items
            → self.new.rows.items ≡ self.old.rows.items }
        ensures room { number < length self.old.rows.items → IsOk result }
    {
        if number < self.rows.len() {
            return Ok(());
        }
        let few = number.saturating_add(1).min(len);
        self.rows.reserve(few.saturating_sub(self.rows.len()))?;
        while self.rows.len() <= number {
            self.rows.push(StoredRow::blank())?;
        }
        Ok(())
    }

    /// Makes room for an entry of an origin in a slot, in the row with this number.
    pub(crate) fn make_room(
        &mut self,
        len: usize,
        number: usize,
        slot: i64,
        origin: Origin,
    ) -> Result<(), AllocError>
        ensures { MakesRoom (has_room_in self.old number slot origin)
            (has_room_in self.new number slot origin) (block_items self.old) (block_items self.new)
            result }
    {
        self.make_rows(number, len)?;
        self.rows[number].make_room(self.alloc, slot, origin)
    }

    /// Changes the entry of an origin in a slot, in the row with this number, and returns whether
    /// it is new.
    pub(crate) fn change(
        &mut self,
        len: usize,
        number: usize,
        slot: i64,
        origin: Origin,
        change: &Change,
    ) -> Result<bool, AllocError>
        requires { Fits (entry_at (block_items self.old number slot) origin) change.now }
        ensures changed { OnOk result (IsChanged number slot
            (entry_after (block_items self.old number slot) origin change.now)
            (block_items self.old) (block_items self.new)) }
        ensures is_new { IfOk result (λ is_new. is_new
            ≡ is_none (entry_at (block_items self.old number slot) origin)) }
        ensures unchanged { OnErr result (block_items self.new ≡ block_items self.old) }
        ensures room { IsTrue (has_room_in self.old number slot origin) → IsOk result }
    {
        self.make_rows(number, len)?;
        self.rows[number].change(self.alloc, slot, origin, change)
    }

    pub(crate) fn copy(&self, alloc: Global) -> Result<Block, AllocError>
        ensures { IfOk result (λ new. map slot_and_entries new.rows.items
            ≡ map slot_and_entries self.now.rows.items) }
    {
        let mut rows = Vec::with_capacity(alloc, self.rows.len())?;
        for row in &self.rows {
            rows.push(row.copy(alloc)?)?;
        }
        Ok(Block { alloc, rows })
    }
}
