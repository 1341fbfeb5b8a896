//! Which fields a cell is expected to have.
//!
//! Sums, products and differences wrap: only the number of bytes depends on them.
ghost use Rattle.std.specs.Prelude.{◌≡◌, IfSome, IsTrue};
ghost use Rattle.rr_codec.specs.Expecting.{start, expected_version, expected_time, expected_min, expected_max, expected_sum, steps_to, fields_from, after};
ghost use Rattle.rr_codec.specs.Regular.{all_steps, GoesOn};

use crate::fields::Fields;
use crate::regular::RegularSteps;
use crate::step::{is_expected, step_from, step_to};

/// What the next cell of an origin is expected from.
#[derive(Clone, Copy)]
pub(crate) struct Before {
    /// The last cell of the origin.
    pub(crate) cell: Fields,
    /// How much greater its version was than that of the one before.
    pub(crate) stride: u128,
}

/// Whether a cell is of the same origin as another, in the next slot, with as many samples at the
/// same places.
#[inline(always)]
fn goes_on(before: &Fields, cell: &Fields) -> bool
    ensures { IsTrue result → GoesOn before.now cell.now }
{
    is_expected(before.slot.wrapping_add(1), cell.slot)
        && is_expected(before.origin, cell.origin)
        && is_expected(before.count, cell.count)
        && is_expected(before.mask, cell.mask)
}

impl Default for Before {
    fn default() -> Before {
        Before::start()
    }
}

impl Before {
    /// Before the first cell of an origin.
    pub(crate) fn start() -> Before
        ensures { result ≡ start }
    {
        let cell = Fields {
            slot: 0,
            origin: 0,
            version: 0,
            count: 1,
            sum: 0,
            min: 0,
            max: 0,
            last_time: 0,
            last_value: 0,
            mask: 1,
        };
        Before { cell, stride: 0 }
    }

    /// The version: as much greater as last time.
    #[tactic(auto, unfolding(crate::specs::Expecting::expected_version))]
    fn expected_version(&self) -> u128
        ensures { result ≡ expected_version self.now }
    {
        self.cell.version.wrapping_add(self.stride)
    }

    /// The last time: at the same moment within its row.
    #[inline(always)]
    #[tactic(auto, unfolding(crate::specs::Expecting::expected_time))]
    fn expected_time(&self, span: u128, slot: u128) -> u128
        ensures { result ≡ expected_time span self.now slot }
    {
        let slots = slot.wrapping_sub(self.cell.slot);
        let nanos = slots.wrapping_mul(span);
        self.cell.last_time.wrapping_add(nanos)
    }

    /// The least value: as far from the last value as before.
    #[tactic(auto, unfolding(crate::specs::Expecting::expected_min))]
    fn expected_min(&self, last_value: u128) -> u128
        ensures { result ≡ expected_min self.now last_value }
    {
        let up = self.cell.min.wrapping_sub(self.cell.last_value);
        last_value.wrapping_add(up)
    }

    /// The greatest value: as far from the last value as before.
    #[tactic(auto, unfolding(crate::specs::Expecting::expected_max))]
    fn expected_max(&self, last_value: u128) -> u128
        ensures { result ≡ expected_max self.now last_value }
    {
        let up = self.cell.max.wrapping_sub(self.cell.last_value);
        last_value.wrapping_add(up)
    }

    /// The steps from the expected fields to those of a cell, in rows of `span` nanoseconds.
    #[tactic(auto, unfolding(crate::specs::Expecting::steps_to))]
    pub(crate) fn steps_to(&self, span: u128, cell: &Fields) -> Fields
        ensures { result ≡ steps_to span self.now cell.now }
    {
        let before = &self.cell;
        let sum = expected_sum(cell.count, cell.min, cell.max);
        Fields {
            slot: step_to(before.slot.wrapping_add(1), cell.slot),
            origin: step_to(before.origin, cell.origin),
            version: step_to(self.expected_version(), cell.version),
            count: step_to(before.count, cell.count),
            sum: step_to(sum, cell.sum),
            min: step_to(self.expected_min(cell.last_value), cell.min),
            max: step_to(self.expected_max(cell.last_value), cell.max),
            last_time: step_to(self.expected_time(span, cell.slot), cell.last_time),
            last_value: step_to(before.last_value, cell.last_value),
            mask: step_to(before.mask, cell.mask),
        }
    }

    /// The steps to a regular cell; none to any other.
    #[inline(always)]
    pub(crate) fn regular_steps_to(&self, span: u128, cell: &Fields) -> Option<RegularSteps>
        ensures steps { IfSome result
            (λ steps. steps_to span self.now cell.now ≡ (all_steps steps).fields) }
        ensures origin { IfSome result (λ _. cell.now.origin ≡ self.now.cell.origin) }
    {
        let before = &self.cell;
        if !goes_on(before, cell) {
            return None;
        }
        let sum = expected_sum(cell.count, cell.min, cell.max);
        Some(RegularSteps {
            last_value: step_to(before.last_value, cell.last_value),
            version: step_to(self.expected_version(), cell.version),
            last_time: step_to(self.expected_time(span, cell.slot), cell.last_time),
            min: step_to(self.expected_min(cell.last_value), cell.min),
            max: step_to(self.expected_max(cell.last_value), cell.max),
            sum: step_to(sum, cell.sum),
        })
    }

    /// The fields that steps lead to.
    #[inline(always)]
    #[tactic(auto, unfolding(crate::specs::Expecting::fields_from))]
    pub(crate) fn fields_from(&self, span: u128, steps: &Fields) -> Fields
        ensures fields { result ≡ fields_from span self.now steps.now }
        ensures origin { steps.now.origin ≡ 0 → result.origin ≡ self.now.cell.origin }
    {
        let before = &self.cell;
        let slot = step_from(before.slot.wrapping_add(1), steps.slot);
        let count = step_from(before.count, steps.count);
        let last_value = step_from(before.last_value, steps.last_value);
        let min = step_from(self.expected_min(last_value), steps.min);
        let max = step_from(self.expected_max(last_value), steps.max);
        Fields {
            slot,
            origin: step_from(before.origin, steps.origin),
            version: step_from(self.expected_version(), steps.version),
            count,
            sum: step_from(expected_sum(count, min, max), steps.sum),
            min,
            max,
            last_time: step_from(self.expected_time(span, slot), steps.last_time),
            last_value,
            mask: step_from(before.mask, steps.mask),
        }
    }

    /// What is known before the next cell of the origin.
    #[tactic(auto, unfolding(crate::specs::Expecting::after))]
    pub(crate) fn after(&self, cell: &Fields) -> Before
        ensures { result ≡ after self.now cell.now }
    {
        Before {
            cell: *cell,
            stride: cell.version.wrapping_sub(self.cell.version),
        }
    }
}

/// The sum of `count` values halfway between `min` and `max`.
#[tactic(auto, unfolding(crate::specs::Expecting::expected_sum))]
fn expected_sum(count: u128, min: u128, max: u128) -> u128
    ensures { result ≡ expected_sum count min max }
{
    let width = max.wrapping_sub(min);
    let low = count.wrapping_mul(min);
    low.wrapping_add(count.wrapping_mul(width) / 2)
}
