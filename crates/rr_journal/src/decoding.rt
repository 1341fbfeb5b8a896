//! What records mean, from their bytes.
ghost use Rattle.rr_text.specs.Results.{GivesUnless, NeedsMemoryAfter};
ghost use Rattle.rr_journal.specs.Body.{alone, count_of, cursor_of, witness_of, meaning_of, origin_of, record_meaning};
ghost use Rattle.rr_journal.specs.Fault.{Finds};
ghost use Rattle.rr_journal.specs.Text.{raw_of};

use crate::cursor::Cursor;
use crate::digest::DIGEST_LEN;
use crate::fault::JournalFault;
use crate::fields::{array_at, cursor_at, u16_at, u64_at};
use crate::grouping::groups_of;
use crate::kind::{CELLS, CURSOR, END, ORIGIN, WITNESS};
use crate::meaning::Record;
use crate::raw::{FIRST, RawRecord};
use rr_schema::{Origin, Schema};
use std::alloc::Global;

/// Refuses bytes after the last field.
fn no_more(rest: &[u8]) -> Result<(), JournalFault>
    ensures { Finds (λ x. x) result (alone (tt, rest.now)) }
{
    if !rest.is_empty() {
        return Err(JournalFault::TrailingBytes);
    }
    Ok(())
}

/// The origin that a body holds.
fn origin_of(body: &[u8]) -> Result<Origin, JournalFault>
    ensures { Finds (λ x. x) result (origin_of body.now) }
{
    let (number, rest) = u16_at(body)?;
    let Ok(origin) = Origin::new(number) else {
        return Err(JournalFault::BadOrigin);
    };
    no_more(rest)?;
    Ok(origin)
}

/// The place in a journal that a body holds.
fn cursor_of(body: &[u8]) -> Result<Cursor, JournalFault>
    ensures { Finds (λ x. x) result (cursor_of body.now) }
{
    let (cursor, rest) = cursor_at(body)?;
    no_more(rest)?;
    Ok(cursor)
}

/// The number that a body holds.
fn count_of(body: &[u8]) -> Result<u64, JournalFault>
    ensures { Finds (λ x. x) result (count_of body.now) }
{
    let (count, rest) = u64_at(body)?;
    no_more(rest)?;
    Ok(count)
}

/// The witness that a body holds.
fn witness_of(body: &[u8]) -> Result<[u8; DIGEST_LEN], JournalFault>
    ensures { Finds (λ x. x) result (witness_of body.now) }
{
    let (witness, rest) = array_at(body)?;
    no_more(rest)?;
    Ok(witness)
}

/// What a record means. One from elsewhere is checked: the cells taken are of the schema, valid in
/// their slots and ascending in each group.
///
/// Refused as the first fault from left to right: `BadKind`; `Short` if fewer bytes are left than a
/// field has; in each group `BadKey`, if the length of the key is 0 or above 1,024, before its text
/// is read, or the text is not a key text, `BadArchive`, and what [`rr_codec::check`] refuses in
/// the packed cells; `BadOrigin`; `TrailingBytes`. `Memory` comes only if nothing is refused. The
/// cost is linear in the bytes.
#[tactic(auto, unfolding(crate::specs::Body::meaning_at))]
pub fn decode(alloc: Global, raw: &RawRecord, schema: &Schema) -> Result<Record, JournalFault>
    ensures read { GivesUnless JournalFault.Memory meaning_of result
        (record_meaning schema.now (raw_of raw.now)) }
    ensures memory { NeedsMemoryAfter JournalFault.Memory
        (record_meaning schema.now (raw_of raw.now)) result }
{
    match raw.kind % FIRST {
        CELLS => {
            let groups = groups_of(alloc, &raw.body, schema)?;
            Ok(Record::Cells(groups))
        }
        ORIGIN => {
            let origin = origin_of(&raw.body)?;
            Ok(Record::Origin(origin))
        }
        CURSOR => {
            let cursor = cursor_of(&raw.body)?;
            Ok(Record::Cursor(cursor))
        }
        END => {
            let count = count_of(&raw.body)?;
            Ok(Record::End(count))
        }
        WITNESS => {
            let witness = witness_of(&raw.body)?;
            Ok(Record::Witness(witness))
        }
        _ => Err(JournalFault::BadKind),
    }
}
