//! Whether blocks have the same rows.
ghost use Rattle.std.specs.Prelude.{◌≡◌, [], IsTrue};
ghost use Rattle.rr_packed.specs.BlockRows.{items_in};

use crate::block::Block;
use crate::lone_sample::{are_same_samples, is_same_source};

impl Block {
    /// Whether each row that has an entry is held as a lone sample.
    pub(crate) fn has_samples_alone(&self) -> bool
        ensures { IsTrue result → self.now.rows.items.items ≡ [] }
    {
        self.rows.items.is_empty()
    }

    /// Whether another block has the same rows, and in both each is held as a lone sample. The cost
    /// is that of comparing the samples.
    pub(crate) fn is_same(&self, other: &Block) -> bool
        ensures { IsTrue result → items_in self.now ≡ items_in other.now }
    {
        self.has_samples_alone()
            && other.has_samples_alone()
            && self.samples.mask == other.samples.mask
            && is_same_source(&self.source, &other.source)
            && are_same_samples(&self.samples.items, &other.samples.items)
    }
}
