//! The rows of a block that was finished last.
ghost use Rattle.std.specs.Prelude.{◌≡◌, IfSome};
ghost use Rattle.std.proofs.Props.{props};
ghost use Rattle.rr_packed.specs.BlockRows.{items_in};
ghost use Rattle.rr_packed.specs.PackedRows.{coded_entry, items_packed};

use crate::block::Block;
use crate::packed_rows::PackedRows;
use std::alloc::Global;
use std::sync::Arc;

/// The rows of a block that was finished last, both as they came and packed. They never change.
///
/// So archives with such a block compare rows with rows, and the newest rows are read without
/// unpacking; once the next block is finished, only the packed rows are kept.
#[derive(Drop)]
pub(crate) struct FinishedRows {
    pub(crate) rows: Block,
    pub(crate) packed: Arc<PackedRows>,
    ghost same: { items_in rows ≡ items_packed packed.value.bytes.items } by { Prim.hlevel (props, coded_entry) },
}

impl FinishedRows {
    /// The rows of a block with the same rows packed; none without memory for a copy of them.
    pub(crate) fn of(alloc: Global, block: &Block, packed: Arc<PackedRows>) -> Option<FinishedRows>
        requires { items_packed packed.value.bytes.items ≡ items_in block.now }
        ensures { IfSome result (λ finished. items_in finished.rows ≡ items_in block.now) }
    {
        match block.copy(alloc) {
            Ok(rows) => Some(FinishedRows { rows, packed }),
            Err(_) => None,
        }
    }
}
