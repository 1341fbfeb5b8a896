//! Making blocks ready to be shared, and taking them from other archives.
ghost use Rattle.std.specs.Prelude.{◌≡◌, IfSome, IsTrue};
ghost use Rattle.rr_packed.specs.BlockRows.{items_in};
ghost use Rattle.rr_packed.specs.Blocks.{is_shared, stored_in};
ghost use Rattle.rr_packed.specs.PackedRows.{items_packed};

use crate::block::Block;
use crate::finished_rows::FinishedRows;
use crate::held_block::HeldBlock;
use crate::packed_rows::PackedRows;
use std::alloc::Global;
use std::sync::Arc;

/// The rows of a block, packed to be shared; none without memory for that.
fn packed(alloc: Global, block: &Block) -> Option<Arc<PackedRows>>
    ensures { IfSome result (λ packed. items_packed packed.value.bytes.items ≡ items_in block.now) }
{
    let packed = PackedRows::of(alloc, block)?;
    Arc::new(alloc, packed).ok()
}

/// The rows of a block with the same rows packed, to be shared; none without memory for that.
fn finished(alloc: Global, block: &Block, packed: Arc<PackedRows>) -> Option<Arc<FinishedRows>>
    requires { items_packed packed.value.bytes.items ≡ items_in block.now }
    ensures { IfSome result (λ finished. items_in finished.value.rows ≡ items_in block.now) }
{
    let rows = FinishedRows::of(alloc, block, packed)?;
    Arc::new(alloc, rows).ok()
}

/// The rows of a block in one that can be shared: packed, and also as they are if these are to be
/// kept. None without memory for that.
fn ready(alloc: Global, block: &Block, keeps_rows: bool) -> Option<HeldBlock>
    ensures same { IfSome result (λ held. stored_in held ≡ items_in block.now) }
    ensures shared { IfSome result (λ held. IsTrue (is_shared held)) }
{
    let packed = packed(alloc, block)?;
    if !keeps_rows {
        return Some(HeldBlock::Packed(packed));
    }
    let finished = finished(alloc, block, packed)?;
    Some(HeldBlock::Finished(finished))
}

impl HeldBlock {
    /// Makes a block of this archive's own ready to be shared, its rows packed. The archive's last
    /// one also keeps its rows, if each is held as a lone sample. Returns whether it did. Without
    /// memory for that, the block stays as it is, and gives back the memory that its lists don't
    /// need.
    pub(crate) fn finish(&mut self, alloc: Global, is_last: bool) -> bool
        ensures same { stored_in self.new ≡ stored_in self.old }
        ensures shared { IsTrue result → IsTrue (is_shared self.new) }
    {
        let HeldBlock::Own(block) = self else {
            return false;
        };
        match ready(alloc, block, is_last && block.has_samples_alone()) {
            Some(held) => {
                *self = held;
                true
            }
            None => {
                block.shrink();
                false
            }
        }
    }

    /// Whether it is finished, and has the same rows as a block of another archive. Rows as they
    /// came are compared with the other's; for packed ones, the other's are packed too, and the
    /// bytes compared. Without memory for that, it isn't.
    fn has_rows_of(&self, alloc: Global, block: &Block) -> bool
        ensures same { IsTrue result → stored_in self.now ≡ items_in block.now }
        ensures shared { IsTrue result → IsTrue (is_shared self.now) }
    {
        match self {
            HeldBlock::Own(_) => false,
            HeldBlock::Finished(finished) => finished.rows.is_same(block),
            HeldBlock::Packed(packed) => match PackedRows::of(alloc, block) {
                Some(rows) => packed.is_same(&rows),
                None => false,
            },
        }
    }

    /// Shares the block of another archive in place of its own, if that is finished and both hold
    /// the same rows. Returns whether it did.
    pub(crate) fn share(&mut self, alloc: Global, other: &HeldBlock) -> bool
        ensures same { stored_in self.new ≡ stored_in self.old }
        ensures shared { IsTrue result → IsTrue (is_shared self.new) }
    {
        let HeldBlock::Own(own) = self else {
            return false;
        };
        if !other.has_rows_of(alloc, own) {
            return false;
        }
        let Ok(further) = other.copy(alloc) else {
            return false;
        };
        *self = further;
        true
    }

    /// Keeps only the packed rows of a block that has both. Returns whether it did.
    pub(crate) fn keep_packed(&mut self) -> bool
        ensures same { stored_in self.new ≡ stored_in self.old }
        ensures shared { IsTrue result → IsTrue (is_shared self.new) }
    {
        let HeldBlock::Finished(finished) = self else {
            return false;
        };
        let Ok(packed) = Arc::try_clone(&finished.packed) else {
            return false;
        };
        *self = HeldBlock::Packed(packed);
        true
    }
}
