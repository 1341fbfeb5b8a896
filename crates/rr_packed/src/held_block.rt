//! A block that one archive has, or a finished one that several may share.
ghost use Rattle.std.specs.Prelude.{◌≡◌, ℕ, [], IfOk, IsTrue};
ghost use Rattle.rr_archive.specs.Row.{entry_at, with_entry};
ghost use Rattle.rr_archive.specs.Changes.{Fits, entry_after};
ghost use Rattle.rr_archive.specs.Stored.{ChangesStored, MakesRoom};
ghost use Rattle.rr_packed.specs.BlockRows.{has_room_in, items_in, IsRowSet};
ghost use Rattle.rr_packed.specs.Blocks.{stored_in, has_room_held, is_shared};

use crate::block::Block;
use crate::finished_rows::FinishedRows;
use crate::packed_rows::PackedRows;
use crate::row_number::{RowNumber, RowRange};
use crate::rows::Rows;
use rr_archive::Entry;
use rr_archive::change::Change;
use rr_schema::Origin;
use std::alloc::{AllocError, Global};
use std::sync::Arc;

/// A block as an archive holds it. A shared one never changes: an archive that has to change it
/// takes a block of its own with the same rows in its place.
#[derive(Drop)]
pub(crate) enum HeldBlock {
    /// Only this archive has it.
    Own(Box<Block>),
    /// It was finished last, and its rows are held both as they came and packed. Others may have
    /// them too.
    Finished(Arc<FinishedRows>),
    /// It is finished, and its rows are packed. Others may have them too.
    Packed(Arc<PackedRows>),
}

/// The rows of a block, in one of the archive's own.
fn own_copy(held: &HeldBlock, alloc: Global) -> Result<Block, AllocError>
    ensures { IfOk result (λ new. items_in new ≡ stored_in held.now) }
{
    match held {
        HeldBlock::Own(block) => block.copy(alloc),
        HeldBlock::Finished(finished) => finished.rows.copy(alloc),
        HeldBlock::Packed(packed) => packed.unpack(alloc),
    }
}

/// The rows of a block in one of the archive's own, with room for an entry of an origin in a row.
fn copy_with_room(
    held: &HeldBlock,
    alloc: Global,
    number: RowNumber,
    origin: Origin,
) -> Result<Block, AllocError>
    ensures same { IfOk result (λ new. items_in new ≡ stored_in held.now) }
    ensures room { IfOk result (λ new. IsTrue (has_room_in new number.value origin)) }
{
    let mut own = own_copy(held, alloc)?;
    own.make_room(number, origin)?;
    Ok(own)
}

/// The rows of a block in one of the archive's own, with the entry of an origin in a row changed.
fn changed_copy(
    held: &HeldBlock,
    alloc: Global,
    number: RowNumber,
    origin: Origin,
    change: &Change,
) -> Result<Block, AllocError>
    requires { Fits (entry_at (stored_in held.now number.value) origin) change.now }
    ensures { IfOk result (λ new. IsRowSet number.value
        (with_entry (stored_in held.now number.value)
        (entry_after (stored_in held.now number.value) origin change.now))
        (stored_in held.now) (items_in new)) }
{
    let mut own = own_copy(held, alloc)?;
    own.change(number, origin, change)?;
    Ok(own)
}

impl HeldBlock {
    /// A block without entries, of one archive.
    pub(crate) fn new(alloc: Global) -> Result<HeldBlock, AllocError>
        ensures { IfOk result (λ new. (number : ℕ) → stored_in new number ≡ []) }
    {
        Ok(HeldBlock::Own(Box::new(alloc, Block::new(alloc))?))
    }

    /// Whether others may have it too.
    pub(crate) fn is_shared(&self) -> bool
        ensures { result ≡ is_shared self.now }
    {
        match self {
            HeldBlock::Own(_) => false,
            HeldBlock::Finished(_) => true,
            HeldBlock::Packed(_) => true,
        }
    }

    /// Makes room for an entry of an origin in a row, in a block of this archive's own. The rows of
    /// a shared one are copied first, or unpacked.
    #[inline(always)]
    pub(crate) fn make_room(
        &mut self,
        alloc: Global,
        number: RowNumber,
        origin: Origin,
    ) -> Result<(), AllocError>
        ensures { MakesRoom (has_room_held self.old number.value origin)
            (has_room_held self.new number.value origin) (stored_in self.old) (stored_in self.new)
            result }
    {
        if let HeldBlock::Own(block) = self {
            return block.make_room(number, origin);
        }
        let own = copy_with_room(self, alloc, number, origin)?;
        *self = HeldBlock::Own(Box::new(alloc, own)?);
        Ok(())
    }

    /// Changes the entry of an origin in a row. The rows of a shared block are copied first, or
    /// unpacked.
    #[inline(always)]
    pub(crate) fn change(
        &mut self,
        alloc: Global,
        number: RowNumber,
        origin: Origin,
        change: &Change,
    ) -> Result<(), AllocError>
        requires { Fits (entry_at (stored_in self.old number.value) origin) change.now }
        ensures { ChangesStored (IsRowSet number.value (with_entry (stored_in self.old number.value)
            (entry_after (stored_in self.old number.value) origin change.now)))
            (has_room_held self.old number.value origin) (stored_in self.old) (stored_in self.new)
            result }
    {
        if let HeldBlock::Own(block) = self {
            return block.change(number, origin, change);
        }
        let own = changed_copy(self, alloc, number, origin, change)?;
        *self = HeldBlock::Own(Box::new(alloc, own)?);
        Ok(())
    }

    /// The same rows: shared, or copied if the block is this archive's own.
    pub(crate) fn copy(&self, alloc: Global) -> Result<HeldBlock, AllocError>
        ensures same { IfOk result (λ new. stored_in new ≡ stored_in self.now) }
        ensures shared { IfOk result (λ new. is_shared new ≡ is_shared self.now) }
    {
        match self {
            HeldBlock::Own(block) => Ok(HeldBlock::Own(Box::new(alloc, block.copy(alloc)?)?)),
            HeldBlock::Finished(rows) => Ok(HeldBlock::Finished(Arc::try_clone(rows)?)),
            HeldBlock::Packed(packed) => Ok(HeldBlock::Packed(Arc::try_clone(packed)?)),
        }
    }
}

impl Rows for HeldBlock {
    ghost items = { λ b. stored_in b };

    fn row_into(&self, number: RowNumber, row: &mut Vec<Entry>) -> Result<(), AllocError> {
        match self {
            HeldBlock::Own(block) => block.row_into(number, row),
            HeldBlock::Finished(finished) => finished.rows.row_into(number, row),
            HeldBlock::Packed(packed) => packed.row_into(number, row),
        }
    }

    fn first_after(&self, number: RowNumber, is_later: bool, origin: Origin) -> Option<Entry> {
        match self {
            HeldBlock::Own(block) => block.first_after(number, is_later, origin),
            HeldBlock::Finished(finished) => finished.rows.first_after(number, is_later, origin),
            HeldBlock::Packed(packed) => packed.first_after(number, is_later, origin),
        }
    }

    fn nth(&self, number: RowNumber, i: usize) -> Option<Entry> {
        match self {
            HeldBlock::Own(block) => block.nth(number, i),
            HeldBlock::Finished(finished) => finished.rows.nth(number, i),
            HeldBlock::Packed(packed) => packed.nth(number, i),
        }
    }

    fn cells_into(
        &self,
        first: RowNumber,
        slot: i64,
        run: &mut Vec<(i64, Entry)>,
    ) -> Result<(), AllocError> {
        match self {
            HeldBlock::Own(block) => block.cells_into(first, slot, run),
            HeldBlock::Finished(finished) => finished.rows.cells_into(first, slot, run),
            HeldBlock::Packed(packed) => packed.cells_into(first, slot, run),
        }
    }

    fn rows_on(&self, number: RowNumber) -> u32 {
        match self {
            HeldBlock::Own(block) => block.rows_on(number),
            HeldBlock::Finished(finished) => finished.rows.rows_on(number),
            HeldBlock::Packed(packed) => packed.rows_on(number),
        }
    }

    fn entries_on(&self, rows: RowRange) -> usize {
        match self {
            HeldBlock::Own(block) => block.entries_on(rows),
            HeldBlock::Finished(finished) => finished.rows.entries_on(rows),
            HeldBlock::Packed(packed) => packed.entries_on(rows),
        }
    }
}
