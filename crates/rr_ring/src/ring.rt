//! A ring of stored rows, and where a slot is in it.
ghost use Rattle.std.specs.Prelude.{◌≡◌, ◌+◌, ◌%◌, ◌<◌, ◌≤◌};
ghost use Rattle.rr_ring.specs.Positions.{position_of};

use crate::block::{BLOCK_ROWS, Block};
use std::alloc::Global;

/// Stored rows by position: a slot's position is the slot modulo the rows, by floor division.
#[derive(Drop)]
pub(crate) struct Ring {
    pub(crate) alloc: Global,
    pub(crate) rows: u32,
    pub(crate) blocks: Vec<Block>,
    ghost rows_at_least: { 1 ≤ rows },
}

impl Ring {
    /// The position of a slot.
    pub(crate) fn position(&self, slot: i64) -> usize
        ensures position { result ≡ position_of self.now.rows slot }
        ensures below { result < self.now.rows }
    {
        slot.rem_euclid(i64::from(self.rows)) as usize
    }

    /// How many rows the block of a position is to have.
    pub(crate) fn block_len(&self, position: usize) -> usize
        requires { position < self.now.rows }
        ensures at_most { result ≤ BLOCK_ROWS }
        ensures has { position % BLOCK_ROWS < result }
        ensures within { position + result ≤ self.now.rows + position % BLOCK_ROWS }
    {
        let start = position - position % BLOCK_ROWS;
        BLOCK_ROWS.min(self.rows as usize - start)
    }
}
