//! Reading, changing and copying what is stored in a ring.
ghost use Rattle.std.specs.Prelude.{◌≡◌, ◌<◌, ◌≤◌, ◌+◌, ◌/◌, ◌+ℤ◌, ℕ, ℤ, pos, [], length, is_none, slice_get, IsTrue, IsOk, OnOk, OnErr, IfOk};
ghost use Rattle.rr_archive.specs.Row.{entry_at};
ghost use Rattle.rr_archive.specs.Changes.{Fits, entry_after};
ghost use Rattle.rr_archive.specs.Stored.{MakesRoom, PassesOver};
ghost use Rattle.rr_ring.specs.Blocks.{items_by_position, made_in};
ghost use Rattle.rr_ring.specs.Ring.{ring_row, has_room, IsRowChanged};

use crate::block::{BLOCK_ROWS, Block};
use crate::ring::Ring;
use rr_archive::Entry;
use rr_archive::change::Change;
use rr_schema::Origin;
use std::alloc::{AllocError, Global};

impl Ring {
    /// A ring of `rows` rows, none of them made. It takes no memory yet.
    pub(crate) fn new(alloc: Global, rows: u32) -> Ring
        requires { 1 ≤ rows }
        ensures rows { result.rows ≡ rows }
        ensures empty { (slot : ℤ) → ring_row result slot ≡ [] }
    {
        Ring {
            alloc,
            rows,
            blocks: Vec::new(alloc),
        }
    }

    /// The entries that are stored of a slot.
    pub(crate) fn row(&self, slot: i64) -> &[Entry]
        ensures { result.now ≡ ring_row self.now slot }
    {
        let position = self.position(slot);
        match self.blocks.get(position / BLOCK_ROWS) {
            Some(block) => block.entries(position % BLOCK_ROWS, slot),
            None => &[],
        }
    }

    /// How many rows of the block of a position are made.
    fn rows_made(&self, position: usize) -> usize
        ensures { result ≡ made_in (slice_get self.now.blocks.items (position / BLOCK_ROWS)) }
    {
        match self.blocks.get(position / BLOCK_ROWS) {
            Some(block) => block.rows_made(),
            None => 0,
        }
    }

    /// How many slots ahead of one the next to look at is, at most `most`: nothing is stored of
    /// those between. The rows of a block that aren't made, and a block that isn't, are skipped in
    /// one step.
    pub(crate) fn slots_on(&self, slot: i64, most: u32) -> u32
        ensures { PassesOver 1 most (λ i. ring_row self.now (slot +ℤ pos i)) result }
    {
        let position = self.position(slot);
        let number = position % BLOCK_ROWS;
        if number + 1 < self.rows_made(position) {
            return most.min(1);
        }
        most.min((self.block_len(position) - number) as u32)
    }

    /// Adds blocks up to a number; none of them takes memory for rows yet.
    fn add_blocks(&mut self, number: usize) -> Result<(), AllocError>
        ensures same { items_by_position self.new.blocks.items
            ≡ items_by_position self.old.blocks.items }
        ensures added { OnOk result (number < length self.new.blocks.items) }
        ensures blocks_stay { number < length self.old.blocks.items
            → self.new.blocks.items ≡ self.old.blocks.items }
        ensures room { number < length self.old.blocks.items → IsOk result }
        ensures rows { self.new.rows ≡ self.old.rows }
    {
        if number < self.blocks.len() {
            return Ok(());
        }
        let all = (self.rows as usize).div_ceil(BLOCK_ROWS);
        self.blocks
            .reserve_exact(all.saturating_sub(self.blocks.len()))?;
        while self.blocks.len() <= number {
            self.blocks.push(Block::new(self.alloc))?;
        }
        Ok(())
    }

    /// Makes room for an entry of an origin in a slot.
    pub(crate) fn make_room(&mut self, slot: i64, origin: Origin) -> Result<(), AllocError>
        ensures made { MakesRoom (has_room self.old slot origin) (has_room self.new slot origin)
            (ring_row self.old) (ring_row self.new) result }
        ensures rows { self.new.rows ≡ self.old.rows }
    {
        let position = self.position(slot);
        let len = self.block_len(position);
        self.add_blocks(position / BLOCK_ROWS)?;
        self.blocks[position / BLOCK_ROWS].make_room(len, position % BLOCK_ROWS, slot, origin)
    }

    /// Changes the entry of an origin in a slot, and returns whether it is new. What is stored of
    /// another slot at the same position is overwritten.
    pub(crate) fn change(
        &mut self,
        slot: i64,
        origin: Origin,
        change: &Change,
    ) -> Result<bool, AllocError>
        requires { Fits (entry_at (ring_row self.old slot) origin) change.now }
        ensures changed { OnOk result (IsRowChanged self.old.rows slot
            (entry_after (ring_row self.old slot) origin change.now) (ring_row self.old)
            (ring_row self.new)) }
        ensures is_new { IfOk result (λ is_new. is_new
            ≡ is_none (entry_at (ring_row self.old slot) origin)) }
        ensures unchanged { OnErr result (ring_row self.new ≡ ring_row self.old) }
        ensures room { IsTrue (has_room self.old slot origin) → IsOk result }
        ensures rows { self.new.rows ≡ self.old.rows }
    {
        let position = self.position(slot);
        let len = self.block_len(position);
        self.add_blocks(position / BLOCK_ROWS)?;
        self.blocks[position / BLOCK_ROWS].change(len, position % BLOCK_ROWS, slot, origin, change)
    }

    /// The same rows.
    pub(crate) fn copy(&self, alloc: Global) -> Result<Ring, AllocError>
        ensures row { IfOk result (λ new. ring_row new ≡ ring_row self.now) }
        ensures rows { IfOk result (λ new. new.rows ≡ self.now.rows) }
    {
        let mut blocks = Vec::with_capacity(alloc, self.blocks.len())?;
        for block in &self.blocks {
            blocks.push(block.copy(alloc)?)?;
        }
        Ok(Ring {
            alloc,
            rows: self.rows,
            blocks,
        })
    }
}
