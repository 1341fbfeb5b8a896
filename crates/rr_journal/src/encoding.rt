//! Records as bytes.
ghost use Rattle.std.specs.Prelude.{◌≡◌, ◌≤◌, ◌++◌, IfErr, IfOk, OnOk, length, map};
ghost use Rattle.std.specs.List.{flat_map};
ghost use Rattle.rr_journal.specs.Body.{IsEncodeFault, body_text, group_text, kind_of, meaning_of, packed_cells, raw_text};
ghost use Rattle.rr_journal.specs.Cursor.{cursor_text};
ghost use Rattle.rr_journal.specs.Text.{raw_of};

use crate::cursor::Cursor;
use crate::fault::JournalFault;
use crate::group::Group;
use crate::kind::{CELLS, CURSOR, END, ORIGIN, WITNESS};
use crate::meaning::Record;
use crate::raw::{MAX_BODY_LEN, RawRecord};
use std::alloc::{AllocError, Global};

/// Adds a group.
#[tactic(auto, unfolding(crate::specs::Body::group_text))]
fn push_group(bytes: &mut Vec<u8>, group: &Group) -> Result<(), AllocError>
    requires { length group.now.packed.items ≤ MAX_BODY_LEN }
    ensures { OnOk result (bytes.new.items ≡ bytes.old.items ++ group_text (packed_cells group.now)) }
{
    let key = group.key.text();
    bytes.extend_from_slice(&(key.len() as u16).to_be_bytes())?;
    bytes.extend_from_slice(key)?;
    bytes.push(group.archive)?;
    bytes.extend_from_slice(&(group.packed.len() as u32).to_be_bytes())?;
    bytes.extend_from_slice(&group.packed)?;
    Ok(())
}

/// The body of a record of groups.
fn groups_bytes(alloc: Global, groups: &[Group]) -> Result<Vec<u8>, JournalFault>
    ensures bytes { IfOk result (λ bytes.
        bytes.items ≡ flat_map group_text (map packed_cells groups.now)) }
    ensures faults { IfErr result
        (IsEncodeFault (flat_map group_text (map packed_cells groups.now))) }
{
    let mut bytes = Vec::new(alloc);
    for group in groups {
        if group.packed.len() > MAX_BODY_LEN {
            return Err(JournalFault::TooLong);
        }
        push_group(&mut bytes, group)?;
    }
    Ok(bytes)
}

/// The bytes of a place in a journal.
#[tactic(auto, unfolding(crate::specs::Cursor::cursor_text))]
fn cursor_bytes(alloc: Global, cursor: &Cursor) -> Result<Vec<u8>, AllocError>
    ensures { IfOk result (λ bytes. bytes.items ≡ cursor_text cursor.now) }
{
    let mut bytes = Vec::new(alloc);
    bytes.extend_from_slice(&cursor.id)?;
    bytes.extend_from_slice(&cursor.offset.to_be_bytes())?;
    bytes.extend_from_slice(&cursor.digest)?;
    Ok(bytes)
}

/// The byte of a record's kind.
fn kind_of(meaning: &Record) -> u8
    ensures { result ≡ kind_of (meaning_of meaning.now) }
{
    match meaning {
        Record::Cells(_) => CELLS,
        Record::Origin(_) => ORIGIN,
        Record::Cursor(_) => CURSOR,
        Record::End(_) => END,
        Record::Witness(_) => WITNESS,
    }
}

/// The body of a record.
#[tactic(auto, unfolding(crate::specs::Body::body_text))]
fn body_bytes(alloc: Global, meaning: &Record) -> Result<Vec<u8>, JournalFault>
    ensures bytes { IfOk result (λ bytes. bytes.items ≡ body_text (meaning_of meaning.now)) }
    ensures faults { IfErr result (IsEncodeFault (body_text (meaning_of meaning.now))) }
{
    match meaning {
        Record::Cells(groups) => groups_bytes(alloc, groups),
        Record::Origin(origin) => Ok(Vec::from_slice(alloc, &origin.get().to_be_bytes())?),
        Record::Cursor(cursor) => Ok(cursor_bytes(alloc, cursor)?),
        Record::End(count) => Ok(Vec::from_slice(alloc, &count.to_be_bytes())?),
        Record::Witness(witness) => Ok(Vec::from_slice(alloc, witness)?),
    }
}

/// A record as its kind and its body, to be written. Refused as `TooLong` if the body has more than
/// [`MAX_BODY_LEN`] bytes, so that a record of more groups must be written as several. The cost is
/// linear in the bytes.
pub fn encode(alloc: Global, meaning: &Record) -> Result<RawRecord, JournalFault>
    ensures text { IfOk result (λ raw. raw_of raw ≡ raw_text (meaning_of meaning.now)) }
    ensures fits { IfOk result (λ raw. length raw.body.items ≤ MAX_BODY_LEN) }
    ensures faults { IfErr result (IsEncodeFault (body_text (meaning_of meaning.now))) }
{
    let body = body_bytes(alloc, meaning)?;
    if body.len() > MAX_BODY_LEN {
        return Err(JournalFault::TooLong);
    }
    Ok(RawRecord {
        kind: kind_of(meaning),
        body,
    })
}
