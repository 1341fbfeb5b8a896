//! Storing samples in the archives of their keys.
ghost use Rattle.std.specs.Prelude.{◌≡◌, ◌<◌, [], length, get_or};
ghost use Rattle.rr_replica.specs.SeriesMap.{entries_of};
ghost use Rattle.rr_replica.specs.InMemory.{IsReplicaInMemory, PutsUnkeyed};

use crate::archives::{empty_archives, store_in};
use crate::series::SeriesMap;
use crate::unkeyed_sample::UnkeyedSample;
use rr_archive::Cells;
use rr_key::SeriesKey;
use rr_schema::Schema;
use std::alloc::{AllocError, Global};

/// Stores a sample of the series at an index in each of its archives, or in none.
#[inline(always)]
pub(crate) fn store_at<A: Cells>(
    series: &mut SeriesMap<A>,
    schema: &Schema,
    index: usize,
    sample: UnkeyedSample,
) -> Result<(), AllocError>
    requires there { index < length series.old.keys.items }
    requires held { IsReplicaInMemory A.cells A.row_limit schema.now sample.origin sample.number
        (entries_of series.old) }
    ensures sample { PutsUnkeyed A.cells A.row_limit A.is_ready schema.now
        (get_or series.old.keys.items index []) sample (entries_of series.old)
        (entries_of series.new) result }
    ensures keys { series.new.keys.items ≡ series.old.keys.items }
{
    // The proof needs that the text is a key text, which `text` ensures.
    let _text = series.keys[index].text();
    store_in(&mut series.archives[index], schema, &sample)
}

/// Stores a sample of a key in each of its archives, or in none.
pub(crate) fn store_by_key<A: Cells>(
    series: &mut SeriesMap<A>,
    alloc: Global,
    schema: &Schema,
    key: &SeriesKey,
    sample: UnkeyedSample,
) -> Result<(), AllocError>
    requires held { IsReplicaInMemory A.cells A.row_limit schema.now sample.origin sample.number
        (entries_of series.old) }
    ensures { PutsUnkeyed A.cells A.row_limit A.is_ready schema.now key.now sample
        (entries_of series.old) (entries_of series.new) result }
{
    // The proof needs that the text is a key text, which `text` ensures.
    let _text = key.text();
    match series.find(key) {
        Some(index) => store_at(series, schema, index, sample),
        None => {
            let mut archives = empty_archives(alloc, schema)?;
            store_in(&mut archives, schema, &sample)?;
            series.insert(key, archives)?;
            Ok(())
        }
    }
}
