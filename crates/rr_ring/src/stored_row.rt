//! One stored row: a slot and its entries.
ghost use Rattle.std.specs.Prelude.{◌≡◌, is_none, IsTrue, IsOk, OnOk, OnErr, IfOk, Some};
ghost use Rattle.rr_archive.specs.Row.{entry_at, with_entry};
ghost use Rattle.rr_archive.specs.Changes.{Fits, entry_after};
ghost use Rattle.rr_archive.specs.Stored.{MakesRoom};
ghost use Rattle.rr_ring.specs.StoredRows.{items_at, has_room_at, is_blank, slot_and_entries};

use rr_archive::Entry;
use rr_archive::change::Change;
use rr_archive::entries::Entries;
use rr_schema::Origin;
use std::alloc::{AllocError, Global};
use std::mem::size_of;

/// A slot and its entries, until another slot at the same position is written.
#[derive(Drop)]
pub(crate) struct StoredRow {
    slot: i64,
    entries: Entries,
}

const _: () = prove!(size_of::<StoredRow>() == 128);

impl StoredRow {
    /// A row that holds no entry. It takes no memory.
    pub(crate) fn blank() -> StoredRow
        ensures { IsTrue (is_blank result) }
    {
        StoredRow {
            slot: 0,
            entries: Entries::Empty,
        }
    }

    /// The entries of a slot; none if the row is another slot's.
    pub(crate) fn entries(&self, slot: i64) -> &[Entry]
        ensures { result.now ≡ items_at (Some self.now) slot }
    {
        if self.slot == slot {
            self.entries.as_slice()
        } else {
            &[]
        }
    }

    /// Changes the entry of an origin in a slot, and returns whether it is new. The row of another
    /// slot is overwritten.
    pub(crate) fn change(
        &mut self,
        alloc: Global,
        slot: i64,
        origin: Origin,
        change: &Change,
    ) -> Result<bool, AllocError>
        requires { Fits (entry_at (items_at (Some self.old) slot) origin) change.now }
        ensures changed { OnOk result (slot_and_entries self.new ≡ (
          slot,
          with_entry (items_at (Some self.old) slot)
              (entry_after (items_at (Some self.old) slot) origin change.now),
        )) }
        ensures is_new { IfOk result (λ is_new. is_new
            ≡ is_none (entry_at (items_at (Some self.old) slot) origin)) }
        ensures unchanged { OnErr result (slot_and_entries self.new ≡ slot_and_entries self.old) }
        ensures room { IsTrue (has_room_at (Some self.old) slot origin) → IsOk result }
    {
        if self.slot == slot {
            return self.entries.change(alloc, origin, change);
        }
        self.slot = slot;
        self.entries.restart(origin, change);
        Ok(true)
    }

    /// Makes room for an entry of an origin in a slot. Another slot's row is room enough.
    pub(crate) fn make_room(
        &mut self,
        alloc: Global,
        slot: i64,
        origin: Origin,
    ) -> Result<(), AllocError>
        ensures { MakesRoom (has_room_at (Some self.old) slot origin)
            (has_room_at (Some self.new) slot origin) (slot_and_entries self.old)
            (slot_and_entries self.new) result }
    {
        if self.slot == slot {
            self.entries.make_room(alloc, origin)
        } else {
            Ok(())
        }
    }

    pub(crate) fn copy(&self, alloc: Global) -> Result<StoredRow, AllocError>
        ensures { IfOk result (λ new. slot_and_entries new ≡ slot_and_entries self.now) }
    {
        Ok(StoredRow {
            slot: self.slot,
            entries: self.entries.copy(alloc)?,
        })
    }
}
