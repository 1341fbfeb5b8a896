//! A walk over the cells of a replica.
ghost use Rattle.std.specs.Prelude.{◌≡◌, Some, IfSome};
ghost use Rattle.rr_cells.specs.Listing.{cell_name, next_cell, seen_cell};
ghost use Rattle.rr_replica.specs.Listing.{LendsCell};

use crate::cell_run::CellRun;
use crate::next::KeyArchive;
use crate::nth_cell::named;
use crate::replica::Replica;
use rr_archive::Cells;
use rr_cells::CellRef;
use rr_key::SeriesKey;
use rr_schema::Origin;
use std::alloc::Global;
use std::marker::Model;

/// A walk over the cells of a replica in their order, for reading one after the other: it reads a
/// run of the cells of an archive at a time. Contracts see it as the replica, which it lends.
#[derive(Drop)]
pub struct CellWalk<'a, A: Cells> {
    replica: &'a Replica<A>,
    /// The archive that the run is of.
    own: Option<KeyArchive<'a, A>>,
    run: CellRun,
}

impl<'a, A: Cells> Model for CellWalk<'a, A> {
    ghost use Rattle.rr_replica.specs.ReplicaWithRoom.{ReplicaWithRoom, coded_replica_with_room};
    ghost use Rattle.rr_replica.specs.Walking.{IsWalkOver};

    ghost Value = { ReplicaWithRoom };

    ghost coded = { coded_replica_with_room };

    ghost view = { λ w. w.replica.now };

    ghost invariant = { λ w. IsWalkOver A.cells w.replica.now.cells w.own w.run.cells.items };
}

impl<'a, A: Cells> CellWalk<'a, A> {
    /// A walk over the cells of a replica. It takes no memory yet.
    pub fn new(alloc: Global, replica: &'a Replica<A>) -> CellWalk<'a, A>
        ensures { result ≡ replica.now }
    {
        CellWalk {
            replica,
            own: None,
            run: CellRun::new(alloc),
        }
    }

    /// The first cell after a name, as [`Replica::next_cell`] gives it.
    ///
    /// At the name of the cell given last, the cost is that of comparing two keys or, where the run
    /// ends, that of the archive's `next_cell` and of reading a run. Where the walk leaves the
    /// archive, it is that of [`Replica::next_cell`] and one lookup of a key. If memory runs out,
    /// no run is read, and the walk goes on with the archive's `next_cell`.
    pub fn next_cell(
        &mut self,
        key: &SeriesKey,
        archive: u8,
        slot: i64,
        origin: Origin,
    ) -> Option<CellRef<'a>>
        ensures same { self.new ≡ self.old }
        ensures next { LendsCell self.old.schema
            (next_cell self.old.cells (cell_name key.now archive slot origin)) result }
    {
        let replica = self.replica;
        // The proof needs the replica's invariant, which `schema` ensures.
        let _schema = replica.schema();
        if let Some(cell) = self.next_here(key, archive, slot, origin) {
            return Some(cell);
        }
        let Some(cell) = replica.next_cell(key, archive, slot, origin) else {
            return None;
        };
        self.enter(&cell);
        Some(cell)
    }

    /// The first cell after a name, if the walk is in the name's archive and that has one.
    fn next_here(
        &mut self,
        key: &SeriesKey,
        archive: u8,
        slot: i64,
        origin: Origin,
    ) -> Option<CellRef<'a>>
        ensures same { self.new ≡ self.old }
        ensures next { IfSome result (λ c. next_cell self.old.cells
            (cell_name key.now archive slot origin) ≡ Some (seen_cell c)) }
    {
        let Some(own) = &self.own else {
            return None;
        };
        if archive != own.number || key != own.key {
            return None;
        }
        let cell = self.run.next_cell(own.archive, slot, origin)?;
        Some(named(own.key, own.number, cell))
    }

    /// Enters the archive of a cell.
    fn enter(&mut self, cell: &CellRef<'a>)
        ensures { self.new ≡ self.old }
    {
        let replica = self.replica;
        self.run.clear();
        self.own = replica.key_archive(cell.key, cell.archive);
    }
}
