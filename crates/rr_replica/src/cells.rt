//! The cells of a replica, in order.
ghost use Rattle.std.specs.Prelude.{◌≡◌, All, map, take, drop, IfOk, IfSome, slice_get};
ghost use Rattle.std.specs.FinMap as fin;
ghost use Rattle.rr_cells.specs.CellBounds.{IsCellOf};
ghost use Rattle.rr_cells.specs.Listing.{owned_cell, at_most_usize, cell_name, next_cell};
ghost use Rattle.rr_replica.specs.Listing.{LendsCell};
ghost use Rattle.rr_replica.specs.Runs.{IsNextOfAll};

use crate::cell_walk::CellWalk;
use crate::next::{KeyArchive, NameRef, key_archive, next_cell};
use crate::nth_cell::{count_cells, nth_cell};
use crate::replica::Replica;
use rr_archive::Cells;
use rr_cells::{Cell, CellRef};
use rr_key::SeriesKey;
use rr_schema::Origin;
use std::alloc::{AllocError, Global};

impl<A: Cells> Replica<A> {
    /// How many cells there are. It saturates. The cost is linear in the series.
    pub fn cell_count(&self) -> usize
        ensures { result ≡ at_most_usize (fin.len self.now.cells) }
    {
        count_cells(&self.series)
    }

    /// The `i`th cell, from 0, in order of key, archive, slot and origin. The cost is linear in the
    /// series before it, each skipped by its count, and in the rows of its archive.
    pub fn cell_at(&self, i: usize) -> Option<CellRef<'_>>
        ensures { LendsCell self.now.schema (slice_get (fin.entries self.now.cells) i) result }
    {
        nth_cell(&self.series, i)
    }

    /// The first cell after a name, in the same order, whether or not a cell has that name. The
    /// cost is one lookup of the key and that of the archives' `next_cell`: no series before the
    /// key is walked over.
    pub fn next_cell(
        &self,
        key: &SeriesKey,
        archive: u8,
        slot: i64,
        origin: Origin,
    ) -> Option<CellRef<'_>>
        ensures { LendsCell self.now.schema
            (next_cell self.now.cells (cell_name key.now archive slot origin)) result }
    {
        let name = NameRef {
            key,
            archive,
            slot,
            origin,
        };
        next_cell(&self.series, &name)
    }

    /// The archive of a key by number, if it has one. The cost is one lookup of the key.
    pub(crate) fn key_archive(&self, key: &SeriesKey, number: u8) -> Option<KeyArchive<'_, A>>
        ensures { IfSome result (λ own.
            IsNextOfAll self.now.cells own.key.now own.number (A.cells own.archive.now)) }
    {
        key_archive(&self.series, key, number)
    }

    /// The `count` cells from an offset on, in the same order; fewer if there are fewer. The cost
    /// is that of `cell_at` for the first, and for each further cell that of
    /// [`CellWalk::next_cell`].
    pub fn cells_from(
        &self,
        alloc: Global,
        from: usize,
        count: usize,
    ) -> Result<Vec<Cell>, AllocError>
        ensures listed { IfOk result (λ cells.
            map owned_cell cells.items ≡ take count (drop from (fin.entries self.now.cells))) }
        ensures of_schema { IfOk result (λ cells. All (λ c. IsCellOf self.now.schema (owned_cell c))
            cells.items) }
    {
        // The proof needs the replica's invariant, which `schema` ensures.
        let _schema = self.schema();
        let mut cells = Vec::new(alloc);
        let mut walk = CellWalk::new(alloc, self);
        let mut next = self.cell_at(from);
        for _ in 0..count {
            let Some(cell) = next else {
                return Ok(cells);
            };
            cells.push(cell.to_cell()?)?;
            next = walk.next_cell(cell.key, cell.archive, cell.slot, cell.origin);
        }
        Ok(cells)
    }
}
