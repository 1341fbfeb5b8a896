//! The slots and places of times, without a division where possible.
ghost use Rattle.std.specs.Prelude.{◌≡◌, ◌<◌, ◌+◌, ◌*◌, ◌/◌, length, pos, IfSome};
ghost use Rattle.std.specs.Int.{int_div_euclid};
ghost use Rattle.rr_schema.specs.Schema.{IsPlaceIn, IsSpan, slot_of};

use rr_schema::Schema;

/// How many nanoseconds are in a second.
const NANOSECONDS: u64 = 1_000_000_000;

const _: () = prove!(NANOSECONDS == 1_000_000_000);

/// The slot of an archive in which a time falls. Usually it is that of the newest cell or the next
/// one: these are tried first, since a multiplication takes a tenth of the time of a division.
pub(crate) fn slot_near(schema: &Schema, archive: u8, time: i64, newest: Option<i64>) -> i64
    requires { archive < length schema.now.archives }
    ensures { result ≡ slot_of schema.now archive time }
{
    match near(schema.span(archive), time, newest) {
        Some(slot) => slot,
        None => schema.slot(archive, time),
    }
}

/// The place of a time in its slot of an archive: which step of the row, from 0.
pub(crate) fn place_in(schema: &Schema, archive: u8, time: i64) -> u32
    requires { archive < length schema.now.archives }
    ensures { IsPlaceIn schema.now archive time result }
{
    if schema.archive(archive).steps == 1 {
        return 0;
    }
    schema.place(archive, time)
}

/// Whichever of the newest slot and the next one a time falls in, if it falls in either and neither
/// is before the epoch.
fn near(span: u32, time: i64, newest: Option<i64>) -> Option<i64>
    requires { IsSpan span }
    ensures { IfSome result (λ slot. int_div_euclid time (pos (span * 1_000_000_000)) ≡ slot) }
{
    let newest = newest?;
    let (Ok(slot), Ok(since)) = (u64::try_from(newest), u64::try_from(time)) else {
        return None;
    };
    let length = u64::from(span) * NANOSECONDS;
    match slots_on(slot, since, length) {
        Some(on) => newest.checked_add(i64::from(on)),
        None => None,
    }
}

/// How many slots of `length` nanoseconds that of a time is after another: 0 or 1. All are since
/// the epoch.
fn slots_on(slot: u64, time: u64, length: u64) -> Option<u32>
    requires { 0 < length }
    ensures { IfSome result (λ on. time / length ≡ slot + on) }
{
    let Some(start) = slot.checked_mul(length) else {
        return None;
    };
    if time < start {
        return None;
    }
    let left = time - start;
    if left < length {
        return Some(0);
    }
    if left - length < length {
        return Some(1);
    }
    None
}
