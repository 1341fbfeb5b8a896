//! Names of cells, with their versions.
ghost use Rattle.std.specs.Prelude.{◌≡◌, IfOk};
ghost use Rattle.rr_cells.specs.CellNames.{cell_name_cmp};
ghost use Rattle.rr_cells.specs.Listing.{seen_cell};
ghost use Rattle.rr_delta.specs.Names.{named_version, owned_name};

use rr_cells::CellRef;
use rr_key::SeriesKey;
use rr_schema::Origin;
use std::alloc::AllocError;
use std::cmp::Ordering;

/// The name of a cell, and its version: what a summary says of a cell.
#[derive(Drop)]
pub struct Name {
    /// The key of the series.
    pub key: SeriesKey,
    /// Which of the schema's archives, from 0.
    pub archive: u8,
    /// Which slot.
    pub slot: i64,
    /// Whose samples are there.
    pub origin: Origin,
    /// The greatest number of these samples.
    pub version: u64,
}

impl Name {
    /// The name and the version of a cell. The key's bytes are shared, so no memory is taken.
    pub(crate) fn of(cell: &CellRef<'_>) -> Result<Name, AllocError>
        ensures { IfOk result (λ name. owned_name name ≡ named_version (seen_cell cell.now)) }
    {
        Ok(Name {
            key: cell.key.copy()?,
            archive: cell.archive,
            slot: cell.slot,
            origin: cell.origin,
            version: cell.contribution.version,
        })
    }

    /// Compares it with the name of a cell.
    pub(crate) fn cmp_cell(&self, cell: &CellRef<'_>) -> Ordering
        ensures { result ≡ cell_name_cmp (owned_name self.now).0 (seen_cell cell.now).0 }
    {
        let cell_slot = self
            .slot
            .cmp(&cell.slot)
            .then(self.origin.cmp(&cell.origin));
        self.key
            .cmp(cell.key)
            .then(self.archive.cmp(&cell.archive).then(cell_slot))
    }
}
