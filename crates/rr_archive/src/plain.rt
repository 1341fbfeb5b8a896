//! An archive as an ordered map from slots to rows.
ghost use Rattle.std.specs.Prelude.{Some};
ghost use Rattle.std.proofs.Props.{props};
ghost use Rattle.rr_archive.specs.CellSlots.{cell_slot};
ghost use Rattle.rr_archive.specs.Codes.{coded_rows};
ghost use Rattle.rr_archive.specs.ArchiveState.{IsArchiveState, cells_in, is_ready_in};
ghost use Rattle.rr_archive.specs.Stored.{CanTake, ChangesCell};

use crate::archive::{Archive, Cells};
use crate::change::Change;
use crate::entry::Entry;
use crate::live_slots::{is_live, later};
use crate::row::push_cells;
use crate::slots::Slots;
use rr_schema::Origin;
use std::alloc::{AllocError, Global};

/// The cells of one archive of one series, as an ordered map from slots to rows of entries.
#[derive(Drop)]
pub struct PlainArchive {
    alloc: Global,
    rows: u32,
    count: usize,
    newest: Option<i64>,
    slots: Slots,
    ghost held: { IsArchiveState rows count newest slots.rows.entries } by { Prim.hlevel (props, coded_rows) },
}

impl PlainArchive {
    /// Changes the cell of a slot and an origin, and drops the rows that are then past the horizon.
    /// A change that is itself past it is skipped.
    fn change_cell(&mut self, slot: i64, origin: Origin, change: &Change) -> Result<(), AllocError>
        requires { CanTake (cells_in self.old.slots.rows.entries) (cell_slot slot origin)
            change.now }
        ensures { ChangesCell (cell_slot slot origin) change.now self.old.newest
            (is_ready_in self.old.rows self.old.newest self.old.slots.rows.entries
            (cell_slot slot origin)) self.old.rows self.new.rows
            (cells_in self.old.slots.rows.entries) (cells_in self.new.slots.rows.entries) result }
    {
        if !is_live(self.rows, self.newest, slot) {
            return Ok(());
        }
        // Origins have 16 bits, so the cells can be counted.
        let _number = origin.get();
        let is_new = self.slots.change_cell(self.alloc, slot, origin, change)?;
        let cells = self.count + usize::from(is_new);
        let newest = later(self.newest, slot);
        self.count = self.slots.drop_dead(cells, self.rows, newest);
        self.newest = Some(newest);
        Ok(())
    }
}

impl Cells for PlainArchive {
    ghost cells = { λ a. cells_in a.slots.rows.entries };

    ghost row_limit = { λ a. a.rows };

    ghost is_ready = { λ a p. is_ready_in a.rows a.newest a.slots.rows.entries p };

    ghost is_trimmed = { λ a. a.held.live };

    ghost in_range = { λ a. a.held.in_range };

    ghost has_rows = { λ a. a.held.rows_at_least };

    fn new(alloc: Global, rows: u32) -> PlainArchive {
        PlainArchive {
            alloc,
            rows,
            count: 0,
            newest: None,
            slots: Slots::new(alloc),
        }
    }

    fn ready(&mut self, slot: i64, _origin: Origin) -> Result<(), AllocError> {
        if !is_live(self.rows, self.newest, slot) {
            return Ok(());
        }
        self.slots.make_room(self.alloc, slot)
    }

    fn change(&mut self, slot: i64, origin: Origin, change: &Change) -> Result<(), AllocError> {
        self.change_cell(slot, origin, change)
    }

    fn newest(&self) -> Option<i64> {
        self.newest
    }

    fn entries_into(&self, slot: i64, row: &mut Vec<Entry>) -> Result<(), AllocError> {
        row.clear();
        row.extend_from_slice(self.row(slot))
    }

    fn cells_into(&self, slot: i64, run: &mut Vec<(i64, Entry)>) -> Result<u32, AllocError> {
        run.clear();
        if let Err(error) = push_cells(run, slot, self.row(slot)) {
            run.clear();
            return Err(error);
        }
        Ok(1)
    }

    fn cell_count(&self) -> usize {
        self.count
    }

    fn cell_at(&self, i: usize) -> Option<(i64, Entry)> {
        self.slots.nth_cell(i)
    }

    fn next_cell(&self, slot: i64, origin: Origin) -> Option<(i64, Entry)> {
        self.slots.next_cell(slot, origin)
    }

    fn copy(&self, alloc: Global) -> Result<PlainArchive, AllocError> {
        Ok(PlainArchive {
            alloc,
            rows: self.rows,
            count: self.count,
            newest: self.newest,
            slots: self.slots.copy(alloc)?,
        })
    }
}

impl Archive for PlainArchive {
    fn row(&self, slot: i64) -> &[Entry] {
        match self.slots.rows.get(&slot) {
            Some(row) => row.as_slice(),
            None => &[],
        }
    }
}
