//! Consecutive cells of one archive, read together.
ghost use Rattle.std.specs.Prelude.{◌≡◌, [], Some, IfSome};
ghost use Rattle.std.specs.Option.{option_map};
ghost use Rattle.rr_archive.specs.CellSlots.{cell_slot};
ghost use Rattle.rr_archive.specs.Cells.{ArchiveCells, cell_of, next_cell};
ghost use Rattle.rr_replica.specs.Runs.{AreInTurn};

use rr_archive::{Cells, Entry};
use rr_schema::Origin;
use std::alloc::Global;

/// Consecutive cells of one archive, and the place of the one given last.
#[derive(Drop)]
pub(crate) struct CellRun {
    pub(crate) cells: Vec<(i64, Entry)>,
    at: usize,
}

/// The place of a cell among these, or their count if it isn't there.
fn place_of(cells: &[(i64, Entry)], cell: &(i64, Entry)) -> usize {
    for i in 0..cells.len() {
        if cells[i].0 == cell.0 && cells[i].1.origin == cell.1.origin {
            return i;
        }
    }
    cells.len()
}

/// Reads the run that an archive has from a slot on. If memory runs out, it has no cell.
fn read_run<A: Cells>(archive: &A, slot: i64, run: &mut Vec<(i64, Entry)>)
    ensures { AreInTurn (A.cells archive.now) run.new.items }
{
    if let Ok(_slots) = archive.cells_into(slot, run) {
        return;
    }
    run.clear();
}

impl CellRun {
    /// No cell yet. Takes no memory.
    pub(crate) fn new(alloc: Global) -> CellRun
        ensures { result.cells.items ≡ [] }
    {
        CellRun {
            cells: Vec::new(alloc),
            at: 0,
        }
    }

    /// Removes all cells from it.
    pub(crate) fn clear(&mut self)
        ensures { self.new.cells.items ≡ [] }
    {
        self.cells.clear();
    }

    /// The cell after that of a slot and an origin, if that one was given last and the run goes on.
    /// The cost is constant.
    fn behind(&mut self, slot: i64, origin: Origin) -> Option<(i64, Entry)>
        ensures same { self.new.cells ≡ self.old.cells }
        ensures next { IfSome result (λ cell. (own : ArchiveCells)
            → AreInTurn own self.old.cells.items
            → option_map cell_of (next_cell own (cell_slot slot origin)) ≡ Some cell) }
    {
        let here = self.cells.get(self.at)?;
        if here.0 != slot || here.1.origin != origin {
            return None;
        }
        let next = *self.cells.get(self.at + 1)?;
        self.at += 1;
        Some(next)
    }

    /// The first cell of an archive after a slot and an origin, as `Cells::next_cell` gives it. If
    /// it is in the run, after the one given last, the cost is constant; otherwise it is that of
    /// `Cells::next_cell` and of reading a run.
    pub(crate) fn next_cell<A: Cells>(
        &mut self,
        archive: &A,
        slot: i64,
        origin: Origin,
    ) -> Option<(i64, Entry)>
        requires { AreInTurn (A.cells archive.now) self.old.cells.items }
        ensures next { result ≡ option_map cell_of
            (next_cell (A.cells archive.now) (cell_slot slot origin)) }
        ensures in_turn { AreInTurn (A.cells archive.now) self.new.cells.items }
    {
        if let Some(cell) = self.behind(slot, origin) {
            return Some(cell);
        }
        let cell = archive.next_cell(slot, origin)?;
        read_run(archive, cell.0, &mut self.cells);
        self.at = place_of(&self.cells, &cell);
        Some(cell)
    }
}
