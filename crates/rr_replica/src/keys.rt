//! The keys that have a cell, in order.
ghost use Rattle.std.specs.Prelude.{◌≡◌, IfOk};
ghost use Rattle.std.specs.FinMap.{entries};
ghost use Rattle.std.specs.Option.{option_map};
ghost use Rattle.rr_cells.specs.Listing.{seen_cell};
ghost use Rattle.rr_replica.specs.Keys.{first_behind, keys_after, lent_key};

use crate::replica::Replica;
use rr_archive::Cells;
use rr_cells::CellRef;
use rr_key::SeriesKey;
use std::alloc::{AllocError, Global};

impl<A: Cells> Replica<A> {
    /// The first cell of a key after this one, or the first of all.
    fn first_behind(&self, after: Option<&SeriesKey>) -> Option<CellRef<'_>>
        ensures { option_map seen_cell result
            ≡ first_behind (lent_key after.entry) (entries self.now.cells) }
    {
        // The proof needs the replica's invariant, which `schema` ensures.
        let _schema = self.schema();
        match after {
            Some(key) => self.next_cell(key, u8::MAX, i64::MAX, self.origin()),
            None => self.cell_at(0),
        }
    }

    /// The next `count` keys that have a cell, in order, from the first one after a key on, or from
    /// the first of all; fewer if there are fewer. A series with no sample kept by any archive has
    /// no cell. The cost is that of [`Replica::next_cell`] for each of them.
    pub fn keys_after(
        &self,
        alloc: Global,
        after: Option<&SeriesKey>,
        count: usize,
    ) -> Result<Vec<SeriesKey>, AllocError>
        ensures { IfOk result (λ keys. keys.items
            ≡ keys_after (lent_key after.entry) count (entries self.now.cells)) }
    {
        let mut keys = Vec::new(alloc);
        let mut next = self.first_behind(after);
        for _ in 0..count {
            let Some(cell) = next else {
                return Ok(keys);
            };
            keys.push(cell.key.copy()?)?;
            next = self.first_behind(Some(cell.key));
        }
        Ok(keys)
    }
}
