//! Eleven steps as bytes: flags that say which of them are not 0, and then those.
ghost use Rattle.std.specs.Prelude.{◌≡◌, ◌<◌, ◌≤◌, ◌+◌, ◌*◌, ◌^◌, ◌++◌, OnOk};
ghost use Rattle.rr_codec.specs.Fault.{Finds};
ghost use Rattle.rr_codec.specs.Steps.{flagged, flags_at, flags_of, step_text, steps_text, step_at, steps_at};

use crate::fault::CodecFault;
use crate::fields::Fields;
use crate::number::{number_at, push_number};
use std::alloc::AllocError;

/// The steps from what is expected of a cell to what it has.
#[derive(Clone, Copy)]
pub(crate) struct Steps {
    /// The step of its origin's place.
    pub(crate) place: u128,
    /// The steps of its fields.
    pub(crate) fields: Fields,
}

/// The greatest flags: all eleven set.
const MAX_FLAGS: u128 = 2_047;

const _: () = prove!(MAX_FLAGS == 2_047);

/// The flag of a step, put before others.
pub(crate) fn flagged(step: u128, others: u32) -> u32
    requires { others < 2 ^ 31 }
    ensures value { result ≡ flagged step others }
    ensures small { result ≤ 1 + 2 * others }
{
    u32::from(step != 0) + 2 * others
}

/// Which steps are not 0.
fn flags_of(steps: &Steps) -> u32
    ensures { result ≡ flags_of steps.now }
{
    let fields = &steps.fields;
    let flags = flagged(fields.origin, 0);
    let flags = flagged(steps.place, flags);
    let flags = flagged(fields.slot, flags);
    let flags = flagged(fields.mask, flags);
    let flags = flagged(fields.count, flags);
    let flags = flagged(fields.sum, flags);
    let flags = flagged(fields.max, flags);
    let flags = flagged(fields.min, flags);
    let flags = flagged(fields.last_time, flags);
    let flags = flagged(fields.version, flags);
    flagged(fields.last_value, flags)
}

/// Adds a step, if it isn't 0.
pub(crate) fn push_step(bytes: &mut Vec<u8>, step: u128) -> Result<(), AllocError>
    ensures { OnOk result (bytes.new.items ≡ bytes.old.items ++ step_text step) }
{
    if step == 0 {
        return Ok(());
    }
    push_number(bytes, step)
}

/// Adds eleven steps.
#[tactic(auto, unfolding(crate::specs::Steps::steps_text))]
pub(crate) fn push_steps(bytes: &mut Vec<u8>, steps: &Steps) -> Result<(), AllocError>
    ensures { OnOk result (bytes.new.items ≡ bytes.old.items ++ steps_text steps.now) }
{
    let fields = &steps.fields;
    push_number(bytes, u128::from(flags_of(steps)))?;
    push_step(bytes, fields.last_value)?;
    push_step(bytes, fields.version)?;
    push_step(bytes, fields.last_time)?;
    push_step(bytes, fields.min)?;
    push_step(bytes, fields.max)?;
    push_step(bytes, fields.sum)?;
    push_step(bytes, fields.count)?;
    push_step(bytes, fields.mask)?;
    push_step(bytes, fields.slot)?;
    push_step(bytes, steps.place)?;
    push_step(bytes, fields.origin)
}

/// A step by the first of the flags, the other flags, and what follows it.
fn step_at(flags: u32, bytes: &[u8]) -> Result<(u128, u32, &[u8]), CodecFault>
    ensures { Finds (λ x. (x.0, x.1, x.2.now)) result (step_at flags bytes.now) }
{
    if flags % 2 == 0 {
        return Ok((0, flags / 2, bytes));
    }
    let (step, rest) = number_at(bytes)?;
    if step == 0 {
        return Err(CodecFault::BadNumber);
    }
    Ok((step, flags / 2, rest))
}

/// Flags of eleven steps, and what follows them.
fn flags_at(bytes: &[u8]) -> Result<(u32, &[u8]), CodecFault>
    ensures { Finds (λ x. (x.0, x.1.now)) result (flags_at bytes.now) }
{
    let (flags, rest) = number_at(bytes)?;
    if flags > MAX_FLAGS {
        return Err(CodecFault::BadNumber);
    }
    Ok((flags as u32, rest))
}

/// Eleven steps, and what follows them.
#[tactic(auto, unfolding(crate::specs::Steps::steps_at))]
pub(crate) fn steps_at(bytes: &[u8]) -> Result<(Steps, &[u8]), CodecFault>
    ensures { Finds (λ x. (x.0, x.1.now)) result (steps_at bytes.now) }
{
    let (flags, rest) = flags_at(bytes)?;
    let (last_value, flags, rest) = step_at(flags, rest)?;
    let (version, flags, rest) = step_at(flags, rest)?;
    let (last_time, flags, rest) = step_at(flags, rest)?;
    let (min, flags, rest) = step_at(flags, rest)?;
    let (max, flags, rest) = step_at(flags, rest)?;
    let (sum, flags, rest) = step_at(flags, rest)?;
    let (count, flags, rest) = step_at(flags, rest)?;
    let (mask, flags, rest) = step_at(flags, rest)?;
    let (slot, flags, rest) = step_at(flags, rest)?;
    let (place, flags, rest) = step_at(flags, rest)?;
    let (origin, _, rest) = step_at(flags, rest)?;
    let fields = Fields {
        slot,
        origin,
        version,
        count,
        sum,
        min,
        max,
        last_time,
        last_value,
        mask,
    };
    Ok((Steps { place, fields }, rest))
}
