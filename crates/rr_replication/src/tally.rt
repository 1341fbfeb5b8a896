//! What was read of a peer's checkpoint, by which it is told whether that was all.

ghost use Rattle.std.specs.Prelude.{◌≡◌, All, OnOk};
ghost use Rattle.rr_cells.specs.CellBounds.{IsCellOf};
ghost use Rattle.rr_cells.specs.Listing.{owned_cell};
ghost use Rattle.rr_replication.specs.Tally.{ReadsTallied, is_whole, no_tally};

use crate::fault::PartFault;
use crate::records::read_to_end;
use rr_cells::Cell;
use rr_journal::Cursor;
use rr_schema::Schema;
use std::alloc::Global;

/// What was read of a checkpoint.
#[derive(Clone, Copy, Debug, PartialEq, Eq)]
pub struct Tally {
    /// How many cells. It saturates.
    pub cells: u64,
    /// How many cells the checkpoint has, if the last record is its end.
    pub end: Option<u64>,
}

impl Tally {
    /// Nothing yet.
    pub(crate) fn new() -> Tally
        ensures { result ≡ no_tally }
    {
        Tally {
            cells: 0,
            end: None,
        }
    }

    /// Whether all of the checkpoint was read: an end came last, and states as many cells as came.
    pub(crate) fn is_whole(&self) -> bool
        ensures { result ≡ is_whole self.now }
    {
        match self.end {
            Some(count) => count == self.cells,
            None => false,
        }
    }
}

/// Reads a part of a checkpoint from a place on, after what was read of it before.
pub(crate) fn read_tallied(
    alloc: Global,
    bytes: &[u8],
    place: Cursor,
    before: Tally,
    schema: &Schema,
    cells: &mut Vec<Cell>,
) -> Result<(Cursor, Tally), PartFault>
    ensures read { ReadsTallied schema.now before place cells.old.items cells.new.items bytes.now
        result }
    ensures of_schema { OnOk result (All (λ c. IsCellOf schema.now (owned_cell c)) cells.old.items
        → All (λ c. IsCellOf schema.now (owned_cell c)) cells.new.items) }
{
    let had = cells.len();
    let mut next = place;
    let mut end = before.end;
    read_to_end(alloc, bytes, &mut next, schema, cells, &mut end)?;
    let more = cells.len().saturating_sub(had) as u64;
    let cells = before.cells.saturating_add(more);
    Ok((next, Tally { cells, end }))
}
