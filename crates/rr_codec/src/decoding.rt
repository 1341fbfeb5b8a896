//! Reading packed cells.
ghost use Rattle.std.specs.Prelude.{◌≡◌, ◌≢◌, ◌^◌, Err, IsOk, IfOk, OnErr, MatchResult};
ghost use Rattle.rr_text.specs.Results.{GivesUnless, NeedsMemoryAfter};
ghost use Rattle.rr_codec.specs.Fault.{Finds};
ghost use Rattle.rr_codec.specs.Fields.{number_below};
ghost use Rattle.rr_codec.specs.Reading.{cell_at, cells_at, cells_left, cells_of, head_at, rest_of, IsWhole};

use crate::fault::CodecFault;
use crate::fields::cell_of;
use crate::number::number_at;
use crate::recent::Known;
use rr_archive::Entry;
use std::alloc::{AllocError, Global};

/// A cell with its slot.
pub(crate) type SlotEntry = (i64, Entry);

/// A cell, added to what is known, and what follows it.
#[tactic(auto, unfolding(crate::specs::Reading::cell_at))]
pub(crate) fn cell_at<'a>(
    known: &mut Known,
    bytes: &'a [u8],
) -> Result<(SlotEntry, &'a [u8]), CodecFault>
    ensures read { Finds (λ x. ((x.0, known.new), x.1.now)) result (cell_at known.old bytes.now) }
    ensures kept { OnErr result (known.new ≡ known.old) }
{
    let (fields, rest) = known.fields_at(bytes)?;
    let cell = cell_of(&fields)?;
    known.add(&fields);
    Ok((cell, rest))
}

/// How many cells there are.
fn count_of(number: u128) -> Result<u32, CodecFault>
    ensures { Finds (λ x. x) result (number_below (2 ^ 32) number) }
{
    match u32::try_from(number) {
        Ok(count) => Ok(count),
        Err(_) => Err(CodecFault::BadNumber),
    }
}

/// How many cells there are, the nanoseconds of a row, and what follows them.
#[tactic(auto, unfolding(crate::specs::Reading::head_at))]
pub(crate) fn head_at(bytes: &[u8]) -> Result<(u32, u128, &[u8]), CodecFault>
    ensures { Finds (λ x. ((x.0, x.1), x.2.now)) result (head_at bytes.now) }
{
    let (count, rest) = number_at(bytes)?;
    let count = count_of(count)?;
    let (span, rest) = number_at(rest)?;
    Ok((count, span, rest))
}

/// Goes through `count` cells, and returns what follows them.
fn skip<'a>(known: &mut Known, count: u32, bytes: &'a [u8]) -> Result<&'a [u8], CodecFault>
    ensures { Finds (λ rest. rest.now) result (rest_of (cells_at known.old count bytes.now)) }
{
    let mut rest = bytes;
    for _ in 0..count {
        match cell_at(known, rest) {
            Ok((_, after)) => rest = after,
            Err(fault) => return Err(fault),
        }
    }
    Ok(rest)
}

/// The first `count` cells of the bytes.
fn collect(
    alloc: Global,
    known: &mut Known,
    count: u32,
    bytes: &[u8],
) -> Result<Vec<SlotEntry>, AllocError>
    requires { IsOk (cells_at known.old count bytes.now) }
    ensures { IfOk result (λ cells. cells_left (cells_at known.old count bytes.now) ≡ Ok cells.items) }
{
    let mut cells = Vec::with_capacity(alloc, count as usize)?;
    let mut rest = bytes;
    for _ in 0..count {
        let Ok((cell, after)) = cell_at(known, rest) else {
            unreachable!();
        };
        cells.push(cell)?;
        rest = after;
    }
    Ok(cells)
}

/// How many cells make up all of the bytes, the nanoseconds of a row, and the cells.
fn whole(bytes: &[u8]) -> Result<(u32, u128, &[u8]), CodecFault>
    ensures { MatchResult result (λ x. IsWhole bytes.now x.0 x.1 x.2.now)
        (λ fault. (cells_of bytes.now ≡ Err fault) × (fault ≢ CodecFault.Memory)) }
{
    let (count, span, cells) = head_at(bytes)?;
    let rest = skip(&mut Known::new(span), count, cells)?;
    if !rest.is_empty() {
        return Err(CodecFault::TrailingBytes);
    }
    Ok((count, span, cells))
}

/// The cells that make up all of the bytes.
///
/// Refused as the first fault from left to right: `Short` if the bytes end before a number does;
/// `BadNumber` if a number isn't spelled in the one way it may be, is a count of cells not below
/// 2^32, or is none that its field can have; `BadOrigin`; and `TrailingBytes` at the end. `Memory`
/// comes only if the bytes are good. The cost is linear in the bytes, which are read twice.
pub fn decode(alloc: Global, bytes: &[u8]) -> Result<Vec<(i64, Entry)>, CodecFault>
    ensures value { GivesUnless CodecFault.Memory (λ cells. cells.items) result
        (cells_of bytes.now) }
    ensures memory { NeedsMemoryAfter CodecFault.Memory (cells_of bytes.now) result }
{
    let (count, span, rest) = whole(bytes)?;
    Ok(collect(alloc, &mut Known::new(span), count, rest)?)
}
