//! The keeper and a reader as the sides of a session.

use crate::keeper::Keeper;
use crate::reader::Reader;
use rr_archive::Cells;
use rr_cells::Cell;
use rr_delta::{Name, Source, Target};
use rr_schema::Schema;
use std::alloc::{AllocError, Global};

impl<A: Cells> Target for Keeper<A> {
    ghost use Rattle.std.specs.Prelude.{refl};
    ghost use Rattle.rr_desk.specs.KeeperState.{cells_of};
    ghost use Rattle.rr_desk.specs.Joining.{map_joined, then_joined};
    ghost use Rattle.rr_desk.specs.ReaderState.{HasJoined};

    ghost layout = { λ k. k.schema };

    ghost cells = { cells_of };

    ghost has_joined = { HasJoined };

    ghost joins_none = { λ k. refl };

    ghost joins_then = { then_joined };

    ghost joins_in_map = { map_joined };

    fn schema(&self) -> &Schema {
        Keeper::schema(self)
    }

    fn names(&self, alloc: Global, from: usize, count: usize) -> Result<Vec<Name>, AllocError> {
        Keeper::names(self, alloc, from, count)
    }

    fn names_after(
        &self,
        alloc: Global,
        after: Option<&Name>,
        count: usize,
    ) -> Result<Vec<Name>, AllocError> {
        Keeper::names_after(self, alloc, after, count)
    }

    fn join_cell(&mut self, cell: &Cell) -> Result<(), AllocError> {
        Keeper::join_cell(self, cell)
    }
}

impl<A: Cells> Source for Reader<A> {
    ghost use Rattle.std.specs.Prelude.{[], ◌++◌, refl};
    ghost use Rattle.std.proofs.Common.{◌∙◌, append_assoc, ap, sym};
    ghost use Rattle.std.proofs.lemmas.List.{append-nil};
    ghost use Rattle.rr_desk.specs.ReaderState.{HasSeenMore, cells_seen};

    ghost layout = { λ r. r.schema };

    ghost cells = { cells_seen };

    ghost may_become = { HasSeenMore };

    ghost may_stay = { λ r. record { desk = refl; schema = refl; list = ([], append-nil r.list) } };

    ghost may_go_on = { λ r s t p q. record {
      desk = q.desk ∙ p.desk;
      schema = q.schema ∙ p.schema;
      list = (
        p.list.0 ++ q.list.0,
        sym (append_assoc r.list p.list.0 q.list.0) ∙ ap (λ l. l ++ q.list.0) p.list.1 ∙ q.list.1,
      );
    } };

    fn schema(&self) -> &Schema {
        Reader::schema(self)
    }

    fn difference(&mut self, alloc: Global, summary: &[Name]) -> Result<Vec<Cell>, AllocError> {
        Reader::difference(self, alloc, summary)
    }
}
