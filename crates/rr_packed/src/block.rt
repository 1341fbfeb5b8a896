//! The rows of 64 consecutive slots.
ghost use Rattle.std.specs.Prelude.{◌≡◌, ◌&&◌, ℕ, None, Some, is_some, [], ◌∷◌, IfOk, IfSome, IsTrue};
ghost use Rattle.std.specs.Int.{bit_at};
ghost use Rattle.rr_archive.specs.Row.{entry_at, with_entry};
ghost use Rattle.rr_archive.specs.Changes.{Fits, entry_after};
ghost use Rattle.rr_archive.specs.Stored.{ChangesStored, MakesRoom};
ghost use Rattle.rr_packed.specs.Sparse.{place_at, item_in};
ghost use Rattle.rr_packed.specs.Sparse.{has_room as has_spare};
ghost use Rattle.rr_packed.specs.LoneSamples.{entries_of, entries_read};
ghost use Rattle.rr_packed.specs.BlockRows.{items_in, has_room_in, IsRowSet, IsUnheld, SetsSource, Unpacks};

mod appending;
mod comparing;
mod lookup;

use crate::lone_sample::{LoneSample, Source};
use crate::row::Row;
use crate::row_number::RowNumber;
use crate::sparse::Sparse;
use rr_archive::Entry;
use rr_archive::change::Change;
use rr_archive::entries::{Entries, first_entry};
use rr_schema::Origin;
use std::alloc::{AllocError, Global};

/// How many slots a block covers.
pub(crate) const BLOCK_ROWS: u32 = 64;

const _: () = prove!(BLOCK_ROWS == 64);

/// The rows of a block by their numbers in it, from 0 to 63.
///
/// A row of one sample is held as a lone sample, if its origin and place are those of the block's
/// other samples; any other as its entries.
#[derive(Drop)]
pub(crate) struct Block {
    alloc: Global,
    source: Option<Source>,
    samples: Sparse<LoneSample>,
    rows: Sparse<Entries>,
}

impl Block {
    /// A block without entries. It takes no memory yet.
    pub(crate) fn new(alloc: Global) -> Block
        ensures { (number : ℕ) → items_in result number ≡ [] }
    {
        Block {
            alloc,
            source: None,
            samples: Sparse::new(alloc),
            rows: Sparse::new(alloc),
        }
    }

    /// The entry of a row, if it is held as its sample.
    fn entry_read(&self, number: RowNumber) -> Option<Entry>
        ensures found { IfSome result (λ e. entries_read self.now.source
            (item_in self.now.samples number.value) ≡ e ∷ []) }
        ensures none { result ≡ None → entries_read self.now.source
            (item_in self.now.samples number.value) ≡ [] }
    {
        let Some(source) = self.source else {
            return None;
        };
        match self.samples.get(number) {
            Some(sample) => Some(sample.entry(&source)),
            None => None,
        }
    }

    /// The entries of a row.
    pub(crate) fn row(&self, number: RowNumber) -> Row<'_>
        ensures { entries_of result ≡ items_in self.now number.value }
    {
        if let Some(entries) = self.rows.get(number) {
            return Row::Lent(entries.as_slice());
        }
        match self.entry_read(number) {
            Some(entry) => Row::Made(entry),
            None => Row::Lent(&[]),
        }
    }

    /// A mask with a bit for each row that has an entry.
    pub(crate) fn mask(&self) -> u64
        ensures { (number : ℕ) → bit_at result number ≡ 0 → items_in self.now number ≡ [] }
    {
        self.samples.mask | self.rows.mask
    }

    /// Whether a row is held as its entries.
    fn has_entries(&self, number: RowNumber) -> bool
        ensures held { result ≡ is_some (item_in self.now.rows number.value) }
        ensures placed { result ≡ is_some (place_at self.now.rows.mask number.value) }
    {
        match self.rows.find(number) {
            Some(_at) => true,
            None => false,
        }
    }

    /// Holds a row as its entries, if it was held as a lone sample.
    fn unpack(&mut self, number: RowNumber) -> Result<(), AllocError>
        ensures { Unpacks number.value self.old self.new result }
    {
        if !self.has_entries(number) {
            if let Some(entry) = self.entry_read(number) {
                self.rows.insert(number, Entries::One(entry))?;
            }
        }
        self.samples.remove(number);
        Ok(())
    }

    /// Whether a row has no entry.
    #[inline(always)]
    fn is_free(&self, number: RowNumber) -> bool
        ensures { IsTrue result → IsUnheld self.now number.value }
    {
        self.samples.lacks(number) && self.rows.lacks(number)
    }

    /// Makes room for an entry of an origin in a row.
    #[inline(always)]
    pub(crate) fn make_room(&mut self, number: RowNumber, origin: Origin) -> Result<(), AllocError>
        ensures { MakesRoom (has_room_in self.old number.value origin)
            (has_room_in self.new number.value origin) (items_in self.old) (items_in self.new)
            result }
    {
        if self.is_free(number) {
            return self.make_free_room(number);
        }
        self.unpack(number)?;
        match self.rows.find(number) {
            Some(at) => self.rows.items[at].make_room(self.alloc, origin),
            None => self.make_free_room(number),
        }
    }

    /// Makes room for either kind of row, for one without an entry.
    #[inline(always)]
    fn make_free_room(&mut self, number: RowNumber) -> Result<(), AllocError>
        requires { IsUnheld self.old number.value }
        ensures { (origin : ℕ) → MakesRoom (has_room_in self.old number.value origin)
            (has_room_in self.new number.value origin) (items_in self.old) (items_in self.new)
            result }
    {
        self.samples.make_room()?;
        self.rows.make_room()
    }

    /// The lone sample that a change makes of a row without an entry, if it can be one of this
    /// block. The first lone sample of a block decides what the others have in common with it.
    #[inline(always)]
    fn sample_of(&mut self, origin: Origin, change: &Change) -> Option<LoneSample>
        ensures source { SetsSource self.old self.new }
        ensures read { IfSome result (λ r. entries_read self.new.source (Some r)
            ≡ entry_after [] origin change.now ∷ []) }
    {
        let Some((source, sample)) = LoneSample::after(origin, change) else {
            return None;
        };
        if self.samples.items.is_empty() {
            self.source = Some(source);
            return Some(sample);
        }
        match self.source {
            Some(own) => {
                if own.origin == source.origin && own.place == source.place {
                    return Some(sample);
                }
                None
            }
            None => None,
        }
    }

    /// Adds the entry of a row that has none. Gives back the room made for entries, if there are
    /// none and the samples have filled theirs: so it is asked for a few times a block, not at each
    /// sample.
    #[inline(always)]
    fn add(&mut self, number: RowNumber, origin: Origin, change: &Change) -> Result<(), AllocError>
        requires { IsUnheld self.old number.value }
        ensures { ChangesStored (IsRowSet number.value (entry_after [] origin change.now ∷ []))
            (has_spare self.old.samples && has_spare self.old.rows) (items_in self.old)
            (items_in self.new) result }
    {
        match self.sample_of(origin, change) {
            Some(sample) => {
                let added = self.samples.insert(number, sample);
                if !self.samples.has_room() && self.rows.items.is_empty() {
                    self.rows.shrink();
                }
                added
            }
            None => self
                .rows
                .insert(number, Entries::One(first_entry(origin, change))),
        }
    }

    /// Changes the entry of an origin in a row.
    #[inline(always)]
    pub(crate) fn change(
        &mut self,
        number: RowNumber,
        origin: Origin,
        change: &Change,
    ) -> Result<(), AllocError>
        requires { Fits (entry_at (items_in self.old number.value) origin) change.now }
        ensures { ChangesStored (IsRowSet number.value (with_entry (items_in self.old number.value)
            (entry_after (items_in self.old number.value) origin change.now)))
            (has_room_in self.old number.value origin) (items_in self.old) (items_in self.new)
            result }
    {
        if self.is_free(number) {
            return self.add(number, origin, change);
        }
        self.unpack(number)?;
        match self.rows.find(number) {
            Some(at) => {
                self.rows.items[at].change(self.alloc, origin, change)?;
                Ok(())
            }
            None => self.add(number, origin, change),
        }
    }

    /// Gives back the memory that its lists don't need.
    pub(crate) fn shrink(&mut self)
        ensures { items_in self.new ≡ items_in self.old }
    {
        self.samples.shrink();
        self.rows.shrink();
    }

    /// The same rows, in no more memory than they need.
    pub(crate) fn copy(&self, alloc: Global) -> Result<Block, AllocError>
        ensures { IfOk result (λ new. items_in new ≡ items_in self.now) }
    {
        let samples = Vec::from_slice(alloc, &self.samples.items)?;
        let mut rows = Vec::with_capacity(alloc, self.rows.items.len())?;
        for entries in &self.rows.items {
            rows.push(entries.copy(alloc)?)?;
        }
        Ok(Block {
            alloc,
            source: self.source,
            samples: Sparse {
                mask: self.samples.mask,
                items: samples,
            },
            rows: Sparse {
                mask: self.rows.mask,
                items: rows,
            },
        })
    }
}
