//! Which slots are live, for any kind of archive.
ghost use Rattle.std.specs.Prelude.{◌≡◌, ◌<◌, ◌≤◌, ◌+ℤ◌, ◌-ℤ◌, ◌<ℤ◌, ◌≤ℤ◌, pos, Some};
ghost use Rattle.std.specs.Ordering.{int_cmp};
ghost use Rattle.rr_join.specs.Maps.{greater};
ghost use Rattle.rr_join.specs.Horizon.{is_above};
ghost use Rattle.rr_archive.specs.CellSlots.{IsSlot};

/// Whether a slot is among the last `rows` up to the newest, or after it.
pub(crate) fn is_above(rows: u32, newest: i64, slot: i64) -> bool
    ensures { result ≡ is_above rows (Some newest) slot }
{
    i128::from(newest) - i128::from(rows) < i128::from(slot)
}

/// Whether a slot is not past the horizon of `rows` rows up to the newest slot, if there is one.
pub fn is_live(rows: u32, newest: Option<i64>, slot: i64) -> bool
    ensures { result ≡ is_above rows newest slot }
{
    match newest {
        Some(newest) => is_above(rows, newest, slot),
        None => true,
    }
}

/// The later of a slot and the newest slot so far, if there is one.
pub fn later(newest: Option<i64>, slot: i64) -> i64
    ensures { Some result ≡ greater int_cmp newest (Some slot) }
{
    match newest {
        Some(newest) => newest.max(slot),
        None => slot,
    }
}

/// The first of the last `rows` slots up to the newest.
pub fn first_live(rows: u32, newest: i64) -> i64
    requires { IsSlot newest }
    ensures { result ≡ (newest -ℤ pos rows) +ℤ pos 1 }
{
    newest - i64::from(rows) + 1
}

/// How many of `rows` rows from a first one on are before a slot.
pub fn rows_before(slot: i64, first: i64, rows: u32) -> u32
    requires { slot <ℤ (first +ℤ pos rows) }
    ensures at_most { result ≤ rows }
    ensures before { 0 < result → (first +ℤ pos result) ≤ℤ slot }
    ensures from { slot ≤ℤ (first +ℤ pos result) }
{
    if slot < first {
        return 0;
    }
    (slot - first) as u32
}
