//! Changed series by their numbers.
ghost use Rattle.std.specs.Prelude.{◌≡◌, ◌++◌, IfOk, OnOk};
ghost use Rattle.rr_changes.specs.Tracking.{AreChangedSeries, AreListed, numbered_series};

use crate::changed_series::ChangedSeries;
use crate::time_range::ChangeTimes;
use rr_archive::Cells;
use rr_replica::Replica;
use std::alloc::{AllocError, Global};

/// Adds the series with this number, if the replica has a key for it. The key's bytes are shared.
fn push_series<A: Cells>(
    list: &mut Vec<ChangedSeries>,
    replica: &Replica<A>,
    number: usize,
    times: &ChangeTimes,
) -> Result<(), AllocError>
    ensures { OnOk result (list.new.items
        ≡ list.old.items ++ numbered_series replica.now.keys number times.now) }
{
    if number >= replica.key_count() {
        return Ok(());
    }
    list.push(ChangedSeries {
        number,
        key: replica.key_numbered(number).copy()?,
        times: *times,
    })?;
    Ok(())
}

/// The series with these numbers, which are all that have changed, each with its ranges and the key
/// that the replica has for it. The cost is linear in the number of these series.
pub(crate) fn series_numbered<A: Cells>(
    alloc: Global,
    replica: &Replica<A>,
    changed: &[usize],
    times: &[ChangeTimes],
) -> Result<Vec<ChangedSeries>, AllocError>
    requires { AreListed times.now changed.now }
    ensures { IfOk result (λ series. AreChangedSeries replica.now.keys times.now series.items) }
{
    let mut list = Vec::with_capacity(alloc, changed.len())?;
    for number in changed {
        push_series(&mut list, replica, *number, &times[*number])?;
    }
    Ok(list)
}
