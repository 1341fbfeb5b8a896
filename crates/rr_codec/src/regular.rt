//! The steps of a cell that goes on as most do: it is of the origin of the last one, in the next
//! slot, with as many samples at the same places. So all but six of its steps are 0, and it is
//! written and read without looking at the other origins.
ghost use Rattle.std.specs.Prelude.{◌≡◌, ◌++◌, ◌/◌, IfSome, Ok, OnOk};
ghost use Rattle.rr_codec.specs.Regular.{all_steps};
ghost use Rattle.rr_codec.specs.Steps.{flags_of, step_at, steps_at, steps_text};

use crate::fields::Fields;
use crate::number::{byte_at, number_at, push_number};
use crate::steps::{flagged, push_step};
use std::alloc::AllocError;

/// Flags below this are of only these six steps.
const ABOVE_REGULAR: u8 = 64;

const _: () = prove!(ABOVE_REGULAR == 64);

/// The six steps of a regular cell; the others are 0.
#[derive(Clone, Copy)]
pub(crate) struct RegularSteps {
    pub(crate) last_value: u128,
    pub(crate) version: u128,
    pub(crate) last_time: u128,
    pub(crate) min: u128,
    pub(crate) max: u128,
    pub(crate) sum: u128,
}

impl RegularSteps {
    /// The steps of all fields.
    #[inline(always)]
    pub(crate) fn fields(&self) -> Fields
        ensures { result ≡ (all_steps self.now).fields }
    {
        Fields {
            slot: 0,
            origin: 0,
            version: self.version,
            count: 0,
            sum: self.sum,
            min: self.min,
            max: self.max,
            last_time: self.last_time,
            last_value: self.last_value,
            mask: 0,
        }
    }

    /// Which steps are not 0.
    #[inline(always)]
    fn flags(&self) -> u32
        ensures { result ≡ flags_of (all_steps self.now) }
    {
        let flags = flagged(self.sum, 0);
        let flags = flagged(self.max, flags);
        let flags = flagged(self.min, flags);
        let flags = flagged(self.last_time, flags);
        let flags = flagged(self.version, flags);
        flagged(self.last_value, flags)
    }

    /// Adds the steps.
    #[inline(always)]
    pub(crate) fn push_to(&self, bytes: &mut Vec<u8>) -> Result<(), AllocError>
        ensures { OnOk result (bytes.new.items ≡ bytes.old.items ++ steps_text (all_steps self.now)) }
    {
        push_number(bytes, u128::from(self.flags()))?;
        push_step(bytes, self.last_value)?;
        push_step(bytes, self.version)?;
        push_step(bytes, self.last_time)?;
        push_step(bytes, self.min)?;
        push_step(bytes, self.max)?;
        push_step(bytes, self.sum)
    }
}

/// A step by the first of the flags, the other flags, and what follows it; none at a fault.
#[inline(always)]
fn step_at(flags: u8, bytes: &[u8]) -> Option<(u128, u8, &[u8])>
    ensures flags { IfSome result (λ x. x.1 ≡ flags / 2) }
    ensures read { IfSome result (λ x. step_at flags bytes.now ≡ Ok (x.0, x.1, x.2.now)) }
{
    if flags % 2 == 0 {
        return Some((0, flags / 2, bytes));
    }
    match number_at(bytes) {
        Ok((step, rest)) if step != 0 => Some((step, flags / 2, rest)),
        _ => None,
    }
}

/// The steps of a regular cell, and what follows them; none for any other, or at a fault.
#[inline(always)]
pub(crate) fn regular_at(bytes: &[u8]) -> Option<(RegularSteps, &[u8])>
    ensures { IfSome result (λ x. steps_at bytes.now ≡ Ok (all_steps x.0, x.1.now)) }
{
    let (flags, rest) = byte_at(bytes)?;
    if flags >= ABOVE_REGULAR {
        return None;
    }
    let (last_value, flags, rest) = step_at(flags, rest)?;
    let (version, flags, rest) = step_at(flags, rest)?;
    let (last_time, flags, rest) = step_at(flags, rest)?;
    let (min, flags, rest) = step_at(flags, rest)?;
    let (max, flags, rest) = step_at(flags, rest)?;
    let (sum, _, rest) = step_at(flags, rest)?;
    let steps = RegularSteps {
        last_value,
        version,
        last_time,
        min,
        max,
        sum,
    };
    Some((steps, rest))
}
