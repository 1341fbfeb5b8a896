//! The last origin of a journal's records.
ghost use Rattle.std.specs.Prelude.{◌≡◌, ℕ, Some, Err, IfSome};
ghost use Rattle.rr_io.specs.Counted.{inner_of};
ghost use Rattle.rr_io.specs.Stream.{HasFailed};
ghost use Rattle.rr_text.specs.Results.{GivesUnless};
ghost use Rattle.rr_journal.specs.Body.{HasOrigin, meaning_of};
ghost use Rattle.rr_journal.specs.Text.{raw_of};
ghost use Rattle.rr_recovery.specs.Replaying.{FindsOrigin, origin_after};

use crate::fault::RecoveryFault;
use crate::step::step_from;
use crate::taking::meaning_of;
use rr_io::Counted;
use rr_journal::{Cursor, RawRecord, Record, Step, Stop};
use rr_schema::{Origin, Schema};
use std::alloc::Global;
use std::io::Read;

/// The kind of records of an origin.
const ORIGIN: u8 = 2;

/// What is added to the kind of the first record after a sync.
const FIRST: u8 = 128;

const _: () = prove!(ORIGIN == 2);

const _: () = prove!(FIRST == 128);

/// The origin that a record names, if any.
fn origin_in(meaning: &Record) -> Option<Origin>
    ensures { (origin : ℕ) → meaning_of meaning.now ≡ HasOrigin origin → result ≡ Some origin }
{
    match meaning {
        Record::Origin(origin) => Some(*origin),
        _ => None,
    }
}

/// The origin of a record, if it is one of an origin; else `before`.
fn origin_after(
    alloc: Global,
    before: Option<Origin>,
    raw: &RawRecord,
    schema: &Schema,
) -> Result<Option<Origin>, RecoveryFault>
    ensures { GivesUnless RecoveryFault.Memory (λ origin. origin) result
        (origin_after before (raw_of raw.now)) }
{
    if raw.kind % FIRST != ORIGIN {
        return Ok(before);
    }
    let meaning = meaning_of(alloc, raw, schema)?;
    Ok(origin_in(&meaning))
}

/// Goes through the records at `place` until none is whole, and returns why none follows and the
/// origin of the last record of an origin, if any, so that a node can choose the next one before it
/// replays them. `place` is then past the last whole record. Cells aren't looked at.
///
/// Refused as `ReadFailed`, as `BadRecord` at the first record of an origin that means none, or as
/// `Memory`. The cost is linear in the bytes.
pub fn last_origin<R: Read>(
    alloc: Global,
    input: &mut Counted<R>,
    place: &mut Cursor,
    schema: &Schema,
) -> Result<(Stop, Option<Origin>), RecoveryFault>
    ensures read { IfSome (R.remaining (inner_of input.old)) (λ bytes.
        FindsOrigin place.old place.new bytes result) }
    ensures failed { result ≡ Err RecoveryFault.ReadFailed → HasFailed input.old input.new }
{
    let mut origin = None;
    for _ in 0..u64::MAX {
        match step_from(alloc, input, place)? {
            Step::Whole(raw) => origin = origin_after(alloc, origin, &raw, schema)?,
            Step::Stopped(stop) => return Ok((stop, origin)),
        }
    }
    // No host reads that many records.
    Err(RecoveryFault::Memory)
}
