//! A keeper's changes as records.
ghost use Rattle.std.specs.Prelude.{IfOk, map};
ghost use Rattle.rr_changes.specs.Listing.{changes_of};
ghost use Rattle.rr_desk.specs.KeeperState.{cells_of};
ghost use Rattle.rr_commit.specs.Packing.{ArePacked};

use crate::packing::Packing;
use rr_archive::Cells;
use rr_changes::{ArchiveChanges, ChangedSeries};
use rr_desk::Keeper;
use rr_journal::RawRecord;
use std::alloc::{AllocError, Global};

/// The changes of a keeper as records: its live cells of these series in the slots of their ranges,
/// series by series and archive by archive. The changes of a series are in one record, unless they
/// are more than [`MAX_RECORD_CELLS`](crate::MAX_RECORD_CELLS) cells: so a crash, which may tear a
/// record, leaves a sample of them in all archives or in none. The cost is that of
/// [`Keeper::list_changes`] plus that of packing the cells.
pub fn change_records<A: Cells>(
    alloc: Global,
    keeper: &Keeper<A>,
    series: &[ChangedSeries],
) -> Result<Vec<RawRecord>, AllocError>
    ensures { IfOk result (λ records. ArePacked
        (map (changes_of keeper.now.schema (cells_of keeper.now)) series.now) records.items) }
{
    let mut packing = Packing::new(alloc);
    let mut changes = ArchiveChanges::new(alloc);
    for own in series {
        packing.add_series(keeper, own, &mut changes)?;
    }
    packing.into_records()
}
