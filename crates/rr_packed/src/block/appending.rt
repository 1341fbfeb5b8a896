//! Appending entries to rows, as packed rows are read.
ghost use Rattle.std.specs.Prelude.{◌≡◌, [], ◌∷◌, ◌++◌, OnOk};
ghost use Rattle.rr_archive.specs.Entries.{items_of};
ghost use Rattle.rr_packed.specs.BlockRows.{items_in, IsRowSet};

use crate::block::Block;
use crate::row_number::RowNumber;
use rr_archive::Entry;
use rr_archive::change::Change;
use rr_archive::entries::Entries;
use std::alloc::{AllocError, Global};

/// Appends an entry.
fn append_to(row: &mut Entries, alloc: Global, entry: Entry) -> Result<(), AllocError>
    ensures { OnOk result (items_of row.new ≡ items_of row.old ++ entry ∷ []) }
{
    match row {
        Entries::Empty => {
            *row = Entries::One(entry);
            Ok(())
        }
        Entries::One(first) => {
            let mut two = Vec::with_capacity(alloc, 2)?;
            two.push(*first)?;
            two.push(entry)?;
            *row = Entries::Many(two);
            Ok(())
        }
        Entries::Many(entries) => {
            entries.push(entry)?;
            Ok(())
        }
    }
}

impl Block {
    /// Appends an entry to a row. A row of one entry is held as a lone sample, if it can be one.
    /// The cost is that of `change`.
    pub(crate) fn append(&mut self, number: RowNumber, entry: Entry) -> Result<(), AllocError>
        ensures { OnOk result (IsRowSet number.value
            (items_in self.old number.value ++ entry ∷ []) (items_in self.old)
            (items_in self.new)) }
    {
        let change = Change::Join(entry.contribution);
        if self.is_free(number) {
            return self.add(number, entry.origin, &change);
        }
        self.unpack(number)?;
        match self.rows.find(number) {
            Some(at) => append_to(&mut self.rows.items[at], self.alloc, entry),
            None => self.add(number, entry.origin, &change),
        }
    }
}
