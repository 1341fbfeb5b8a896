//! Blocks that archives share.
ghost use Rattle.std.specs.Prelude.{◌≡◌, map, IfOk, IsTrue};
ghost use Rattle.std.specs.Option.{option_to_list};
ghost use Rattle.rr_packed.specs.Blocks.{all_blocks, is_shared, row_at, stored, stored_in};

use crate::blocks::Blocks;
use crate::held_block::HeldBlock;
use std::alloc::{AllocError, Global};
use std::collections::VecDeque;

/// Makes a block of this archive's own ready to be shared; with another archive's blocks, takes the
/// one of the same number in its place, if both hold the same rows. One that is already ready, but
/// must not keep its rows as they came, keeps only its packed rows. Returns whether it did any of
/// these.
fn share_block(
    block: &mut HeldBlock,
    alloc: Global,
    number: i64,
    others: Option<&Blocks>,
    keeps_rows: bool,
) -> bool
    ensures same { stored_in block.new ≡ stored_in block.old }
    ensures shared { IsTrue result → IsTrue (is_shared block.new) }
{
    if block.is_shared() {
        if keeps_rows {
            return false;
        }
        return block.keep_packed();
    }
    match others {
        None => block.finish(alloc, keeps_rows),
        Some(others) => match others.get(number) {
            Some(other) => block.share(alloc, other),
            None => false,
        },
    }
}

impl Blocks {
    /// Whether the block at a place keeps its rows as they came once it is finished: it is the last
    /// of the older ones, and the one before it, if any, is already shared. If blocks are finished
    /// together, as those of a snapshot are, none keeps them: all replicas have these blocks from
    /// then on, and need not compare them.
    fn keeps_rows(&self, at: usize) -> bool {
        if at.saturating_add(1) < self.older.len() {
            return false;
        }
        match self.older.get(at.wrapping_sub(1)) {
            Some((_, before)) => before.is_shared(),
            None => true,
        }
    }

    /// Shares the older blocks as [`share_block`] does one, from the last back to one that keeps
    /// only its packed rows, or that can't be shared.
    pub(crate) fn share(&mut self, others: Option<&Blocks>)
        ensures { row_at self.new ≡ row_at self.old }
    {
        let mut at = self.older.len();
        while at > 0 {
            at -= 1;
            let keeps_rows = self.keeps_rows(at);
            let number = self.older[at].0;
            if !share_block(
                &mut self.older[at].1,
                self.alloc,
                number,
                others,
                keeps_rows,
            ) {
                return;
            }
        }
    }

    /// The newest block with its number, as `copy` copies it.
    fn copy_newest(&self, alloc: Global) -> Result<Option<(i64, HeldBlock)>, AllocError>
        ensures { IfOk result (λ new. map stored (option_to_list new)
            ≡ map stored (option_to_list self.now.newest)) }
    {
        match &self.newest {
            Some((number, block)) => Ok(Some((*number, block.copy(alloc)?))),
            None => Ok(None),
        }
    }

    /// The same rows, in blocks that are shared if they were.
    pub(crate) fn copy(&self, alloc: Global) -> Result<Blocks, AllocError>
        ensures rows { IfOk result (λ new. row_at new ≡ row_at self.now) }
        ensures blocks { IfOk result (λ new. map stored (all_blocks new)
            ≡ map stored (all_blocks self.now)) }
    {
        let mut older = VecDeque::with_capacity(alloc, self.older.len())?;
        for (number, block) in &self.older {
            older.push_back((*number, block.copy(alloc)?))?;
        }
        Ok(Blocks {
            alloc,
            older,
            newest: self.copy_newest(alloc)?,
            dropped: self.dropped,
        })
    }
}
