//! Checking packed cells from elsewhere.
ghost use Rattle.std.specs.Prelude.{◌≡◌, ◌<◌, None, length};
ghost use Rattle.rr_contrib.specs.Validity.{is_valid};
ghost use Rattle.rr_codec.specs.Fault.{Finds};
ghost use Rattle.rr_codec.specs.Recent.{nothing_known};
ghost use Rattle.rr_codec.specs.Reading.{cell_checked, cells_checked, checked_at, checked_count, is_behind, rest_of};

use crate::decoding::{SlotEntry, cell_at, head_at};
use crate::fault::CodecFault;
use crate::recent::Known;
use rr_contrib::Contribution;
use rr_schema::Schema;

/// Whether a contribution is valid in a slot of an archive.
fn is_valid(contribution: &Contribution, schema: &Schema, archive: u8, slot: i64) -> bool
    requires { archive < length schema.now.archives }
    ensures { result ≡ is_valid schema.now archive slot contribution.now }
{
    contribution.is_valid(schema, archive, slot)
}

/// Whether a cell is after another, if there is one.
fn is_behind(before: &Option<SlotEntry>, cell: &SlotEntry) -> bool
    ensures { result ≡ is_behind before.now cell.now }
{
    match before {
        Some(before) => {
            before.0 < cell.0 || (before.0 == cell.0 && before.1.origin < cell.1.origin)
        }
        None => true,
    }
}

/// Checks a cell: it must be valid in its slot, and after the one before it.
fn check_cell(
    before: &Option<SlotEntry>,
    cell: &SlotEntry,
    schema: &Schema,
    archive: u8,
) -> Result<(), CodecFault>
    requires { archive < length schema.now.archives }
    ensures { Finds (λ _. cell.now) result (cell_checked schema.now archive before.now cell.now) }
{
    if !is_valid(&cell.1.contribution, schema, archive, cell.0) {
        return Err(CodecFault::BadContribution);
    }
    if !is_behind(before, cell) {
        return Err(CodecFault::OutOfOrder);
    }
    Ok(())
}

/// A cell, checked and added to what is known, and what follows it.
#[tactic(auto, unfolding(crate::specs::Reading::checked_at))]
fn checked_at<'a>(
    before: &Option<SlotEntry>,
    known: &mut Known,
    bytes: &'a [u8],
    schema: &Schema,
    archive: u8,
) -> Result<(SlotEntry, &'a [u8]), CodecFault>
    requires { archive < length schema.now.archives }
    ensures { Finds (λ x. ((x.0, known.new), x.1.now)) result
        (checked_at schema.now archive before.now known.old bytes.now) }
{
    let (cell, rest) = match cell_at(known, bytes) {
        Ok(found) => found,
        Err(fault) => return Err(fault),
    };
    match check_cell(before, &cell, schema, archive) {
        Ok(()) => Ok((cell, rest)),
        Err(fault) => Err(fault),
    }
}

/// Checks each of `count` cells, and returns what follows them.
fn skip_checked<'a>(
    count: u32,
    span: u128,
    bytes: &'a [u8],
    schema: &Schema,
    archive: u8,
) -> Result<&'a [u8], CodecFault>
    requires { archive < length schema.now.archives }
    ensures { Finds (λ rest. rest.now) result
        (rest_of (cells_checked schema.now archive None (nothing_known span) count bytes.now)) }
{
    let mut known = Known::new(span);
    let mut before = None;
    let mut rest = bytes;
    for _ in 0..count {
        match checked_at(&before, &mut known, rest, schema, archive) {
            Ok((cell, after)) => {
                before = Some(cell);
                rest = after;
            }
            Err(fault) => return Err(fault),
        }
    }
    Ok(rest)
}

/// How many cells make up all of the bytes, each as an archive of the schema may have it. So what a
/// peer or a file gave is checked before it is taken; the check takes no memory.
///
/// Refused as the first fault from left to right: those of [`decode`](crate::decode) and, after the
/// bytes of its cell, `BadContribution` if the contribution isn't valid in its slot, and
/// `OutOfOrder` if the cell isn't after the one before it, by slot and origin. The cost is linear
/// in the bytes.
pub fn check(bytes: &[u8], schema: &Schema, archive: u8) -> Result<u32, CodecFault>
    requires { archive < length schema.now.archives }
    ensures { Finds (λ count. count) result (checked_count schema.now archive bytes.now) }
{
    let (count, span, cells) = head_at(bytes)?;
    let rest = skip_checked(count, span, cells, schema, archive)?;
    if !rest.is_empty() {
        return Err(CodecFault::TrailingBytes);
    }
    Ok(count)
}
