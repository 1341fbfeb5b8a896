//! Copies of the archives of all keys.
ghost use Rattle.std.specs.Prelude.{◌≡◌, map, IfOk};
ghost use Rattle.rr_replica.specs.InMemory.{seen_archive};
ghost use Rattle.rr_replica.specs.SeriesMap.{IsSeenAlike};

use crate::series::SeriesMap;
use rr_archive::Cells;
use std::alloc::{AllocError, Global};

/// Archives with the same cells and rows, in the same order.
fn copy_archives<A: Cells>(alloc: Global, archives: &[A]) -> Result<Vec<A>, AllocError>
    ensures { IfOk result (λ new. map (seen_archive A.cells A.row_limit) new.items
        ≡ map (seen_archive A.cells A.row_limit) archives.now) }
{
    let mut copies = Vec::new(alloc);
    for archive in archives {
        copies.push(archive.copy(alloc)?)?;
    }
    Ok(copies)
}

/// The same archives for each key. The keys' texts are shared.
pub(crate) fn copy_series<A: Cells>(
    alloc: Global,
    series: &SeriesMap<A>,
) -> Result<SeriesMap<A>, AllocError>
    ensures { IfOk result (IsSeenAlike A.cells A.row_limit series.now) }
{
    let mut copies = SeriesMap::new(alloc);
    for i in 0..series.keys.len() {
        copies.insert(&series.keys[i], copy_archives(alloc, &series.archives[i])?)?;
    }
    Ok(copies)
}
