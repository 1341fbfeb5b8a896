//! The side of a session that gives cells.
ghost use Rattle.std.specs.Prelude.{◌≡◌, map, refl};
ghost use Rattle.std.proofs.Common.{◌∙◌};
ghost use Rattle.std.specs.FinMap.{entries};
ghost use Rattle.rr_schema.specs.Schema.{Layout, IsLayout};
ghost use Rattle.rr_cells.specs.Cells.{Cells};
ghost use Rattle.rr_delta.specs.Names.{owned_name};
ghost use Rattle.rr_delta.specs.Difference.{IsSummary, newer_cells};
ghost use Rattle.rr_delta.specs.Listed.{ListsCells};

use crate::differing::difference;
use crate::name::Name;
use rr_archive::Cells;
use rr_cells::Cell;
use rr_replica::Replica;
use rr_schema::Schema;
use std::alloc::{AllocError, Global};

/// Gives cells to others: those that a summary lacks.
///
/// Contracts see it as a map of cells of a schema, those that it answered from last, and by what it
/// may become: a relation, of its own choice, between its states before and after calls.
pub trait Source {
    ghost layout: { Self → Layout };

    ghost cells: { Self → Cells };

    ghost may_become: { Self → Self → Type 0 };

    /// The schema of all cells. It never changes.
    fn schema(&self) -> &Schema
        ensures value { result.now ≡ layout self.now }
        ensures within { IsLayout (layout self.now) };

    /// The cells whose name a summary lacks, or has with a smaller version, in the order of their
    /// names. The names of the summary strictly ascend. The whole answer is of one moment.
    fn difference(&mut self, alloc: Global, summary: &[Name]) -> Result<Vec<Cell>, AllocError>
        requires { IsSummary (map owned_name summary.now) }
        ensures lists { ListsCells (layout self.new)
            (newer_cells (map owned_name summary.now) (entries (cells self.new))) result }
        ensures schema { layout self.new ≡ layout self.old }
        ensures may_become { may_become self.old self.new };

    ghost may_stay: { (x : Self) → may_become x x };

    ghost may_go_on: { (x y z : Self) → may_become x y → may_become y z → may_become x z };
}

impl<A: Cells> Source for Replica<A> {
    ghost layout = { λ r. r.schema };

    ghost cells = { λ r. r.cells };

    ghost may_become = { λ r s. s ≡ r };

    ghost may_stay = { λ r. refl };

    ghost may_go_on = { λ r s t p q. q ∙ p };

    fn schema(&self) -> &Schema {
        Replica::schema(self)
    }

    fn difference(&mut self, alloc: Global, summary: &[Name]) -> Result<Vec<Cell>, AllocError> {
        difference(alloc, self, summary)
    }
}
