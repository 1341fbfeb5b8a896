//! Room for operations, made before they are applied.
ghost use Rattle.std.specs.Prelude.{◌≡◌, Some, slice_get, IfOk, OnErr, OnOk};
ghost use mathlib.Core.List.{IsPrefix};
ghost use Rattle.rr_cells.specs.Operations.{op_key};
ghost use Rattle.rr_replica.specs.Numbered.{with_key};
ghost use Rattle.rr_replica.specs.Series.{cells_of};
ghost use Rattle.rr_replica.specs.SeriesMap.{entries_of};
ghost use Rattle.rr_replica.specs.InMemory.{held_series, AreAllSized, MakesRoom, SuitsEntries};

use crate::archives::{empty_archives, make_room};
use crate::hint::Hint;
use crate::series::SeriesMap;
use rr_archive::Cells;
use rr_cells::Op;
use rr_key::SeriesKey;
use rr_schema::Schema;
use std::alloc::{AllocError, Global};

/// Makes room for an operation in the archives of its key, which are added if there are none, and
/// returns which series it is. No cell changes.
#[inline(always)]
pub(crate) fn make_room_in<A: Cells>(
    series: &mut SeriesMap<A>,
    alloc: Global,
    schema: &Schema,
    hint: Hint,
    op: &Op,
) -> Result<usize, AllocError>
    requires { SuitsEntries A.row_limit schema.now op.now (entries_of series.old) }
    ensures made { MakesRoom A.cells A.row_limit A.is_ready schema.now op.now
        (entries_of series.old) (entries_of series.new) result }
    ensures key { IfOk result (λ i. slice_get series.new.keys.items i ≡ Some (op_key op.now)) }
    ensures keys_grow { IsPrefix series.old.keys.items series.new.keys.items }
{
    let key = op.key();
    match series.find_near(hint, key) {
        Some(index) => {
            make_room(&mut series.archives[index], schema, op)?;
            Ok(index)
        }
        None => {
            let mut archives = empty_archives(alloc, schema)?;
            make_room(&mut archives, schema, op)?;
            let index = series.keys.len();
            series.insert(key, archives)?;
            Ok(index)
        }
    }
}

/// Adds a key with archives that hold no cell, unless it is known, and returns which series it is.
pub(crate) fn add_key_in<A: Cells>(
    series: &mut SeriesMap<A>,
    alloc: Global,
    schema: &Schema,
    key: &SeriesKey,
) -> Result<usize, AllocError>
    requires sized { AreAllSized A.row_limit schema.now (entries_of series.old) }
    ensures unchanged { cells_of (held_series A.cells (entries_of series.new))
        ≡ cells_of (held_series A.cells (entries_of series.old)) }
    ensures sized { AreAllSized A.row_limit schema.now (entries_of series.new) }
    ensures added { OnOk result (series.new.keys.items
        ≡ with_key series.old.keys.items key.now) }
    ensures same_keys { OnErr result (series.new.keys.items ≡ series.old.keys.items) }
    ensures key { IfOk result (λ i. slice_get series.new.keys.items i ≡ Some key.now) }
{
    match series.find(key) {
        Some(index) => Ok(index),
        None => {
            let archives = empty_archives(alloc, schema)?;
            let index = series.keys.len();
            series.insert(key, archives)?;
            Ok(index)
        }
    }
}
