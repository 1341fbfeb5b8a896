//! The fields of a cell as unsigned numbers.
ghost use Rattle.std.specs.Prelude.{◌≡◌, ◌^◌};
ghost use Rattle.std.specs.Int.{w128, cast_unsigned};
ghost use Rattle.rr_codec.specs.Fault.{Finds};
ghost use Rattle.rr_codec.specs.Fields.{IsTyped, fields_of, number_below, signed_of, origin_of, cell_of};

use crate::fault::CodecFault;
use rr_archive::Entry;
use rr_contrib::Contribution;
use rr_schema::Origin;

/// The fields of a cell; a signed one is its two's complement of 128 bits.
#[derive(Clone, Copy)]
pub(crate) struct Fields {
    pub(crate) slot: u128,
    pub(crate) origin: u128,
    pub(crate) version: u128,
    pub(crate) count: u128,
    pub(crate) sum: u128,
    pub(crate) min: u128,
    pub(crate) max: u128,
    pub(crate) last_time: u128,
    pub(crate) last_value: u128,
    pub(crate) mask: u128,
}

/// A signed number as its two's complement.
fn unsigned(number: i64) -> u128
    ensures { result ≡ cast_unsigned w128 number }
{
    i128::from(number).cast_unsigned()
}

/// The fields of a cell.
#[tactic(auto, unfolding(crate::specs::Fields::fields_of))]
pub(crate) fn fields_of(cell: &(i64, Entry)) -> Fields
    ensures value { result ≡ fields_of cell.now }
    // What the cell's types say of it.
    ensures typed { IsTyped cell.now }
{
    let (slot, entry) = *cell;
    let contribution = entry.contribution;
    Fields {
        slot: unsigned(slot),
        origin: u128::from(entry.origin.get()),
        version: u128::from(contribution.version),
        count: u128::from(contribution.count),
        sum: contribution.sum.cast_unsigned(),
        min: unsigned(contribution.min),
        max: unsigned(contribution.max),
        last_time: unsigned(contribution.last_time),
        last_value: unsigned(contribution.last_value),
        mask: contribution.mask,
    }
}

/// A signed number, from its two's complement.
fn signed_of(number: u128) -> Result<i64, CodecFault>
    ensures { Finds (λ x. x) result (signed_of number) }
{
    match i64::try_from(number.cast_signed()) {
        Ok(number) => Ok(number),
        Err(_) => Err(CodecFault::BadNumber),
    }
}

/// A number of 64 bits.
fn number_of(number: u128) -> Result<u64, CodecFault>
    ensures { Finds (λ x. x) result (number_below (2 ^ 64) number) }
{
    match u64::try_from(number) {
        Ok(number) => Ok(number),
        Err(_) => Err(CodecFault::BadNumber),
    }
}

/// An origin.
fn origin_of(number: u128) -> Result<Origin, CodecFault>
    ensures { Finds (λ x. x) result (origin_of number) }
{
    let Ok(number) = u16::try_from(number) else {
        return Err(CodecFault::BadNumber);
    };
    match Origin::new(number) {
        Ok(origin) => Ok(origin),
        Err(_) => Err(CodecFault::BadOrigin),
    }
}

/// The cell with these fields.
#[tactic(auto, unfolding(crate::specs::Fields::cell_of))]
pub(crate) fn cell_of(fields: &Fields) -> Result<(i64, Entry), CodecFault>
    ensures { Finds (λ x. x) result (cell_of fields.now) }
{
    let slot = signed_of(fields.slot)?;
    let origin = origin_of(fields.origin)?;
    let version = number_of(fields.version)?;
    let count = number_of(fields.count)?;
    let min = signed_of(fields.min)?;
    let max = signed_of(fields.max)?;
    let last_time = signed_of(fields.last_time)?;
    let last_value = signed_of(fields.last_value)?;
    let contribution = Contribution {
        version,
        count,
        sum: fields.sum.cast_signed(),
        min,
        max,
        last_time,
        last_value,
        mask: fields.mask,
    };
    let entry = Entry {
        origin,
        contribution,
    };
    Ok((slot, entry))
}
