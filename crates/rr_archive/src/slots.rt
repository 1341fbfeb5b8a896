//! Rows by their slots.
ghost use Rattle.std.specs.Prelude.{◌≡◌, ℕ, [], is_none, IsTrue, IsOk, OnOk, OnErr, IfOk, slice_get};
ghost use Rattle.std.proofs.Props.{props};
ghost use Rattle.std.specs.Option.{option_map};
ghost use Rattle.std.specs.Ordering.{int_cmp};
ghost use Rattle.std.specs.BTreeMap.{IsOrdered};
ghost use Rattle.std.specs.FinMap as fin;
ghost use Rattle.rr_archive.specs.CellSlots.{cell_slot};
ghost use Rattle.rr_archive.specs.Cells.{with_change, cell_of, next_cell};
ghost use Rattle.rr_archive.specs.Changes.{Fits};
ghost use Rattle.rr_archive.specs.ArchiveState.{cells_in, has_room_in, RowsAscend};

use crate::change::{Change, contribution_after};
use crate::entry::Entry;
use crate::row::{change_entry, first_after};
use rr_schema::Origin;
use std::alloc::{AllocError, Global};
use std::collections::BTreeMap;

/// The rows of an archive by their slots, each ascending by origin.
#[derive(Drop)]
pub(crate) struct Slots {
    pub(crate) rows: BTreeMap<i64, Vec<Entry>>,
    ghost ascend: { RowsAscend rows.entries } by { Prim.hlevel props },
    ghost ordered: { IsOrdered int_cmp rows } by { Prim.hlevel props },
}

impl Slots {
    /// No rows. It takes no memory yet.
    pub(crate) fn new(alloc: Global) -> Slots
        ensures { result.rows.entries ≡ [] }
    {
        Slots {
            rows: BTreeMap::new(alloc),
        }
    }

    /// Changes the cell of a slot and an origin, and returns whether it is new. The map is searched
    /// for the slot once, and again only if the row is new.
    pub(crate) fn change_cell(
        &mut self,
        alloc: Global,
        slot: i64,
        origin: Origin,
        change: &Change,
    ) -> Result<bool, AllocError>
        requires { Fits (fin.get (cells_in self.old.rows.entries) (cell_slot slot origin))
            change.now }
        ensures changed { OnOk result (cells_in self.new.rows.entries
            ≡ with_change (cells_in self.old.rows.entries) (cell_slot slot origin) change.now) }
        ensures is_new { IfOk result (λ is_new. is_new
            ≡ is_none (fin.get (cells_in self.old.rows.entries) (cell_slot slot origin))) }
        ensures unchanged { OnErr result (cells_in self.new.rows.entries
            ≡ cells_in self.old.rows.entries) }
        ensures room { IsTrue (has_room_in self.old.rows.entries (cell_slot slot origin))
            → IsOk result }
    {
        match self.rows.get_mut(&slot) {
            Some(row) => change_entry(row, origin, change),
            None => {
                let contribution = contribution_after(None, change);
                let mut row = Vec::new(alloc);
                row.push(Entry {
                    origin,
                    contribution,
                })?;
                self.rows.insert(slot, row)?;
                Ok(true)
            }
        }
    }

    /// Makes room for one more entry in the row of a slot.
    pub(crate) fn make_room(&mut self, alloc: Global, slot: i64) -> Result<(), AllocError>
        ensures cells { cells_in self.new.rows.entries ≡ cells_in self.old.rows.entries }
        ensures room { (origin : ℕ)
            → OnOk result (IsTrue (has_room_in self.new.rows.entries (cell_slot slot origin))) }
        ensures room_suffices { (origin : ℕ)
            → IsTrue (has_room_in self.old.rows.entries (cell_slot slot origin)) → IsOk result }
    {
        match self.rows.get_mut(&slot) {
            Some(row) => row.reserve(1),
            None => {
                // Most rows stay of one origin, so room is taken only for its entry.
                let row = Vec::with_capacity(alloc, 1)?;
                self.rows.insert(slot, row)?;
                Ok(())
            }
        }
    }

    /// The slot and the entry of a cell by its number, from 0, in order.
    pub(crate) fn nth_cell(&self, i: usize) -> Option<(i64, Entry)>
        ensures { result ≡ option_map cell_of
            (slice_get (fin.entries (cells_in self.now.rows.entries)) i) }
    {
        let mut left = i;
        for (slot, row) in &self.rows {
            if left < row.len() {
                return Some((*slot, row[left]));
            }
            left -= row.len();
        }
        None
    }

    /// The first cell after a slot and an origin, in order.
    pub(crate) fn next_cell(&self, slot: i64, origin: Origin) -> Option<(i64, Entry)>
        ensures { result
            ≡ option_map cell_of (next_cell (cells_in self.now.rows.entries)
            (cell_slot slot origin)) }
    {
        for (at, row) in self.rows.range(slot..) {
            if let Some(entry) = first_after(row, slot < *at, origin) {
                return Some((*at, entry));
            }
        }
        None
    }

    /// The same rows.
    pub(crate) fn copy(&self, alloc: Global) -> Result<Slots, AllocError>
        ensures { IfOk result (λ new. cells_in new.rows.entries ≡ cells_in self.now.rows.entries) }
    {
        let mut rows = BTreeMap::new(alloc);
        for (slot, row) in &self.rows {
            rows.insert(*slot, Vec::from_slice(alloc, row)?)?;
        }
        Ok(Slots { rows })
    }
}
