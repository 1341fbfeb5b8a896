//! The side of a session that takes cells.
ghost use Rattle.std.specs.Prelude.{◌≡◌, ◌++◌, ◌∷◌, [], List, All, OnOk, OnErr, map, take, drop, refl};
ghost use Rattle.std.specs.FinMap.{entries};
ghost use Rattle.rr_schema.specs.Schema.{Layout, IsLayout};
ghost use Rattle.rr_cells.specs.CellBounds.{IsCellOf, NamedCell};
ghost use Rattle.rr_cells.specs.Cells.{Cells, IsTrimmed};
ghost use Rattle.rr_cells.specs.Joins.{join_cells};
ghost use Rattle.rr_cells.specs.Listing.{owned_cell};
ghost use Rattle.rr_replica.specs.ReplicaWithRoom.{replica_state};
ghost use Rattle.rr_delta.specs.Names.{name_in, named_version, versions_of};
ghost use Rattle.rr_delta.specs.Listed.{ListsNames};
ghost use Rattle.rr_delta.specs.Joining.{HasJoined, map_joined, then_joined};
ghost use Rattle.rr_delta.specs.Summaries.{cells_after};

use crate::listing::{summary, summary_after};
use crate::name::Name;
use rr_archive::Cells;
use rr_cells::Cell;
use rr_replica::Replica;
use rr_schema::Schema;
use std::alloc::{AllocError, Global};

/// Takes cells from elsewhere: it says which it has, and joins those it is given.
///
/// Contracts see it as a map of cells of a schema, none of them past the horizon, and by which
/// cells it has joined: a relation, of its own choice, between its states before and after calls
/// and these cells, one by one and in order. Whatever the relation, they are then joined into the
/// map.
pub trait Target {
    ghost layout: { Self → Layout };

    ghost cells: { Self → Cells };

    ghost has_joined: { Self → Self → List NamedCell → Type 0 };

    /// The schema of all cells. It never changes.
    fn schema(&self) -> &Schema
        ensures value { result.now ≡ layout self.now }
        ensures within { IsLayout (layout self.now) }
        ensures live { IsTrimmed (layout self.now) (cells self.now) }
        ensures of_schema { All (IsCellOf (layout self.now)) (entries (cells self.now)) };

    /// The names and versions of `count` cells from an offset on, in the order of the names; fewer
    /// if there are fewer.
    fn names(&self, alloc: Global, from: usize, count: usize) -> Result<Vec<Name>, AllocError>
        ensures { ListsNames (layout self.now)
            (take count (drop from (versions_of (cells self.now)))) result };

    /// The names and versions of `count` cells after a name, or of the first ones if there is none,
    /// in the order of the names; fewer if there are fewer. With it, a walk over all cells goes on
    /// from the last name it has, at a cost that does not grow with what it has passed.
    fn names_after(
        &self,
        alloc: Global,
        after: Option<&Name>,
        count: usize,
    ) -> Result<Vec<Name>, AllocError>
        ensures { ListsNames (layout self.now) (take count (map named_version
            (cells_after (name_in after.entry) (entries (cells self.now))))) result };

    /// Joins a cell, which is valid under the schema: the greater of it and what is at its name is
    /// kept, and then only the live cells. After an error nothing has changed.
    fn join_cell(&mut self, cell: &Cell) -> Result<(), AllocError>
        requires { IsCellOf (layout self.old) (owned_cell cell.now) }
        ensures joined { OnOk result (has_joined self.old self.new (owned_cell cell.now ∷ [])) }
        ensures unchanged { OnErr result (has_joined self.old self.new []) };

    ghost joins_none: { (x : Self) → has_joined x x [] };

    ghost joins_then: { (x y z : Self) (es fs : List NamedCell) → has_joined x y es → has_joined y z fs → has_joined x z (es ++ fs) };

    ghost joins_in_map: { (x y : Self) (es : List NamedCell) → has_joined x y es → (layout y ≡ layout x) × (cells y ≡ join_cells (layout x) (cells x) es) };
}

impl<A: Cells> Target for Replica<A> {
    ghost layout = { λ r. r.schema };

    ghost cells = { λ r. r.cells };

    ghost has_joined = { λ r s. HasJoined (replica_state r) (replica_state s) };

    ghost joins_none = { λ r. refl };

    ghost joins_then = { λ r s t. then_joined (replica_state r) (replica_state s) (replica_state t) };

    ghost joins_in_map = { λ r s. map_joined (replica_state r) (replica_state s) };

    fn schema(&self) -> &Schema {
        Replica::schema(self)
    }

    fn names(&self, alloc: Global, from: usize, count: usize) -> Result<Vec<Name>, AllocError> {
        summary(alloc, self, from, count)
    }

    fn names_after(
        &self,
        alloc: Global,
        after: Option<&Name>,
        count: usize,
    ) -> Result<Vec<Name>, AllocError> {
        summary_after(alloc, self, after, count)
    }

    fn join_cell(&mut self, cell: &Cell) -> Result<(), AllocError> {
        Replica::join_cell(self, cell)
    }
}
