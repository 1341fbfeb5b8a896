//! A row, made from the contributions of its origins.

ghost use Rattle.std.specs.Prelude.{◌≡◌, ◌∷◌, [], Some, map, count_ones};
ghost use Rattle.std.specs.Option.{option_map};
ghost use Rattle.std.specs.Ordering.{int_cmp, is_lt, flip_args};
ghost use Rattle.rr_join.specs.Maps.{greater, greatest};
ghost use Rattle.rr_cells.specs.Rows.{average};
ghost use Rattle.rr_fetch.specs.Consolidation.{consolidation_of, count_of, last_cmp, total_of, mask_of_entries, IsRow, IsRowOf};

use crate::sum::{sum_of, sum_of_one};
use rr_archive::Entry;
use rr_contrib::Mask;
use rr_schema::{ConsolidationFunction, Schema};

/// The value of a function for the entries of a row, or `None` if the row is unknown: if more than
/// the fraction xff of its steps has no sample of any origin.
///
/// An average is the floor of the mean of all samples. The last sample is the one with the greatest
/// time, and at equal times with the greatest origin.
///
/// The origins of the entries must ascend, and each contribution must have a count from 1 to
/// [`MAX_NUMBER`](rr_text::limits::MAX_NUMBER) and a sum from `count * min` to `count * max`. The
/// cost is linear in the entries.
#[tactic(auto, unfolding(crate::specs::Consolidation::consolidation_of))]
pub fn consolidate(
    row: &[Entry],
    schema: &Schema,
    archive: u8,
    cf: ConsolidationFunction,
) -> Option<i64>
    requires { IsRowOf schema.now archive row.now }
    ensures { result ≡ consolidation_of schema.now archive cf row.now }
{
    if !schema.known_enough(archive, known_places(row)) {
        return None;
    }
    match cf {
        ConsolidationFunction::Average => average(row),
        ConsolidationFunction::Min => least(row),
        ConsolidationFunction::Max => greatest(row),
        ConsolidationFunction::Last => last_value(row),
    }
}

/// The value of a function for a row of one entry, as [`consolidate`] gives it.
#[tactic(auto, unfolding(crate::specs::Consolidation::consolidation_of))]
pub(crate) fn consolidate_one(
    entry: &Entry,
    schema: &Schema,
    archive: u8,
    cf: ConsolidationFunction,
) -> Option<i64>
    requires { IsRowOf schema.now archive (entry.now ∷ []) }
    ensures { result ≡ consolidation_of schema.now archive cf (entry.now ∷ []) }
{
    let contribution = &entry.contribution;
    if !schema.known_enough(archive, contribution.mask.count_ones()) {
        return None;
    }
    match cf {
        ConsolidationFunction::Average => sum_of_one(contribution).average(),
        ConsolidationFunction::Min => Some(contribution.min),
        ConsolidationFunction::Max => Some(contribution.max),
        ConsolidationFunction::Last => Some(contribution.last_value),
    }
}

/// How many places have a sample of some origin.
fn known_places(row: &[Entry]) -> u32
    ensures { result ≡ count_ones (mask_of_entries row.now) }
{
    let mut mask: Mask = 0;
    for entry in row {
        mask |= entry.contribution.mask;
    }
    mask.count_ones()
}

/// The floor of the mean of all samples.
fn average(row: &[Entry]) -> Option<i64>
    requires { IsRow row.now }
    ensures { result ≡ average (total_of row.now) (count_of row.now) }
{
    let last = row.last()?;
    // Origins ascend, so there are no more entries than numbers up to the last origin.
    let origin = last.origin.get();
    prove!(row.len() <= usize::from(origin) + 1);
    sum_of(row).average()
}

/// The smallest sample.
fn least(row: &[Entry]) -> Option<i64>
    ensures { result ≡ greatest (flip_args int_cmp) (map (λ e. e.contribution.min) row.now) }
{
    let mut least = None;
    for entry in row {
        least = lesser(least, entry.contribution.min);
    }
    least
}

fn lesser(least: Option<i64>, value: i64) -> Option<i64>
    ensures { result ≡ greater (flip_args int_cmp) least (Some value) }
{
    match least {
        Some(least) => Some(least.min(value)),
        None => Some(value),
    }
}

/// The greatest sample.
fn greatest(row: &[Entry]) -> Option<i64>
    ensures { result ≡ greatest int_cmp (map (λ e. e.contribution.max) row.now) }
{
    let mut greatest = None;
    for entry in row {
        greatest = greater(greatest, entry.contribution.max);
    }
    greatest
}

fn greater(greatest: Option<i64>, value: i64) -> Option<i64>
    ensures { result ≡ greater int_cmp greatest (Some value) }
{
    match greatest {
        Some(greatest) => Some(greatest.max(value)),
        None => Some(value),
    }
}

/// The last sample.
fn last_value(row: &[Entry]) -> Option<i64>
    ensures { result ≡ option_map (λ e. e.contribution.last_value) (greatest last_cmp row.now) }
{
    match last(row) {
        Some(entry) => Some(entry.contribution.last_value),
        None => None,
    }
}

/// The entry with the last sample.
fn last(row: &[Entry]) -> Option<Entry>
    ensures { result ≡ greatest last_cmp row.now }
{
    let mut last = None;
    for entry in row {
        last = later(last, *entry);
    }
    last
}

fn later(last: Option<Entry>, entry: Entry) -> Option<Entry>
    ensures { result ≡ greater last_cmp last (Some entry) }
{
    match last {
        Some(last) if is_before(&entry, &last) => Some(last),
        _ => Some(entry),
    }
}

/// Whether the last sample of an entry is before that of another.
fn is_before(entry: &Entry, other: &Entry) -> bool
    ensures { result ≡ is_lt (last_cmp entry.now other.now) }
{
    (entry.contribution.last_time, entry.origin) < (other.contribution.last_time, other.origin)
}
