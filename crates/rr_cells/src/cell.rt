//! Cells by their names.
ghost use Rattle.std.specs.Prelude.{◌≡◌, ◌↔◌, ℕ, List, IsTrue};
ghost use Rattle.rr_schema.specs.Origin.{IsOrigin};
ghost use Rattle.rr_key.specs.Series.{IsKeyText};
ghost use Rattle.rr_cells.specs.CellBounds.{IsCellOf, is_cell_of};
ghost use Rattle.rr_cells.specs.Listing.{cell_name};

use rr_contrib::Contribution;
use rr_key::SeriesKey;
use rr_schema::{Origin, Schema};
use std::alloc::AllocError;

/// A cell: what an origin contributes to a slot of an archive of a key. The key is lent.
#[derive(Clone, Copy)]
pub struct CellRef<'a> {
    /// The key of the series.
    pub key: &'a SeriesKey,
    /// Which of the schema's archives, from 0.
    pub archive: u8,
    /// Which slot.
    pub slot: i64,
    /// Whose samples these are.
    pub origin: Origin,
    /// What they contribute.
    pub contribution: Contribution,
}

/// A cell that owns its key, as one from elsewhere does.
#[derive(Drop)]
pub struct Cell {
    /// The key of the series.
    pub key: SeriesKey,
    /// Which of the schema's archives, from 0.
    pub archive: u8,
    /// Which slot.
    pub slot: i64,
    /// Whose samples these are.
    pub origin: Origin,
    /// What they contribute.
    pub contribution: Contribution,
}

impl CellRef<'_> {
    ghost use Rattle.std.specs.Prelude.{◌≡◌, IfOk};
    ghost use Rattle.rr_cells.specs.Listing.{seen_cell, owned_cell};

    /// The same cell, with a key of its own. The key's bytes are shared, so no memory is taken.
    pub fn to_cell(&self) -> Result<Cell, AllocError>
        ensures { IfOk result (λ cell. owned_cell cell ≡ seen_cell self.now) }
    {
        Ok(Cell {
            key: self.key.copy()?,
            archive: self.archive,
            slot: self.slot,
            origin: self.origin,
            contribution: self.contribution,
        })
    }
}

impl Cell {
    ghost use Rattle.std.specs.Prelude.{◌≡◌, ◌↔◌, IsTrue, IfOk};
    ghost use Rattle.rr_cells.specs.CellBounds.{IsCellOf, is_cell_of};
    ghost use Rattle.rr_cells.specs.Listing.{owned_cell};

    /// Whether it is a cell of a schema: of one of the schema's archives, and valid in its slot.
    pub fn is_of(&self, schema: &Schema) -> bool
        ensures tested { result ≡ is_cell_of schema.now (owned_cell self.now) }
        ensures cell { IsTrue result ↔ IsCellOf schema.now (owned_cell self.now) }
    {
        // The proof needs the invariants of the key and the origin, which these ensure.
        let _text = self.key.text();
        let _number = self.origin.get();
        is_cell_of(schema, self.archive, self.slot, self.contribution)
    }

    /// The same cell. The key's bytes are shared, so no memory is taken.
    pub fn copy(&self) -> Result<Cell, AllocError>
        ensures { IfOk result (λ cell. cell ≡ self.now) }
    {
        Ok(Cell {
            key: self.key.copy()?,
            archive: self.archive,
            slot: self.slot,
            origin: self.origin,
            contribution: self.contribution,
        })
    }
}

/// Whether a contribution makes a cell of a slot of an archive, for any key and origin.
fn is_cell_of(schema: &Schema, archive: u8, slot: i64, contribution: Contribution) -> bool
    ensures tested { (key : List ℕ) (origin : ℕ)
        → result ≡ is_cell_of schema.now (cell_name key archive slot origin, contribution) }
    ensures cell { (key : List ℕ) (origin : ℕ) → IsKeyText key → IsOrigin origin
        → IsTrue result ↔ IsCellOf schema.now (cell_name key archive slot origin, contribution) }
{
    (archive as usize) < schema.archives().len() && contribution.is_valid(schema, archive, slot)
}
