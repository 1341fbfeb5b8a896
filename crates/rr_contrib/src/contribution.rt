//! The contribution of one origin to one slot.
ghost use Rattle.std.specs.Prelude.{◌≡◌, ◌<◌, ◌≤◌, ◌^◌, pos, negsuc, ◌+ℤ◌, ◌*ℤ◌, ◌≤ℤ◌, List, ◌∷◌, [], length, count_ones, IsTrue, ◌↔◌, int_lt, if◌then◌else◌};
ghost use Rattle.std.specs.Int.{bit_at};
ghost use Rattle.rr_contrib.specs.Contributions.{IsNumbered, SlotSample, slot_sample, of_one, with_sample};
ghost use Rattle.rr_contrib.specs.Samples.{contribution_of};
ghost use Rattle.rr_contrib.specs.Validity.{IsBounded, IsValid, StartsValid, KeepsValid};

use rr_join::{Join, join_max};
use rr_schema::Schema;
use rr_text::limits::{MAX_NUMBER, MAX_STEPS};
use std::mem::size_of;

/// A set of places of a slot, place `p` as bit `p`.
pub type Mask = u128;

const _: () = prove!(MAX_STEPS <= Mask::BITS);

/// The summary of one origin's samples in one slot. Ordered by the fields, in their order.
#[derive(Clone, Copy, Debug, PartialEq, Eq, PartialOrd, Ord)]
pub struct Contribution {
    /// The greatest number of the samples.
    pub version: u64,
    /// How many samples there are.
    pub count: u64,
    /// The sum of their values.
    pub sum: i128,
    /// The least value.
    pub min: i64,
    /// The greatest value.
    pub max: i64,
    /// The time of the last sample, in nanoseconds since the Unix epoch.
    pub last_time: i64,
    /// The value of the last sample by time, and at equal times by number.
    pub last_value: i64,
    /// The places that the samples fell in. Last, since its sixteen bytes then leave no padding.
    pub mask: Mask,
}

const _: () = prove!(size_of::<Contribution>() == 80);

fn has_place(mask: Mask, place: u32) -> bool
    ensures { IsTrue result ↔ (bit_at mask place ≡ 1) }
{
    place < Mask::BITS && mask >> place & 1 == 1
}

fn is_within(mask: Mask, steps: u32) -> bool
    ensures { IsTrue result ↔ (mask < 2 ^ steps) }
{
    steps >= Mask::BITS || mask >> steps == 0
}

fn times(count: u64, value: i64) -> i128
    ensures { result ≡ (pos count *ℤ value) }
{
    i128::from(count) * i128::from(value)
}

fn is_between(low: i128, value: i128, high: i128) -> bool
    ensures { IsTrue result ↔ ((low ≤ℤ value) × (value ≤ℤ high)) }
{
    low <= value && value <= high
}

fn total_with(sum: i128, value: i64) -> i128
    requires low { negsuc (2 ^ 126) ≤ℤ sum }
    requires high { sum ≤ℤ pos (2 ^ 126) }
    ensures { result ≡ (sum +ℤ value) }
{
    sum + i128::from(value)
}

impl Contribution {
    /// The contribution of one sample: its number, its place in the slot, its time in nanoseconds
    /// since the Unix epoch and its value.
    ///
    /// The number must be from 1 to 2^40, the place below 128.
    pub fn first(number: u64, place: u32, time: i64, value: i64) -> Contribution
        requires { IsNumbered number place }
        ensures value { result ≡ of_one (slot_sample number place time value) }
        ensures samples { contribution_of (slot_sample number place time value ∷ []) ≡ Some result }
        ensures valid { StartsValid (slot_sample number place time value) result }
    {
        Contribution {
            version: number,
            count: 1,
            sum: i128::from(value),
            min: value,
            max: value,
            last_time: time,
            last_value: value,
            mask: 1 << place,
        }
    }

    fn last_value_with(&self, time: i64, value: i64) -> i64
        ensures { result ≡ (if int_lt time self.now.last_time then self.now.last_value else value) }
    {
        if time < self.last_time {
            self.last_value
        } else {
            value
        }
    }

    /// Adds a sample, given as for [`Contribution::first`].
    ///
    /// The sample must be newer than all that this contribution sums up: its number is greater than
    /// the version.
    pub fn add(&mut self, number: u64, place: u32, time: i64, value: i64)
        requires sample { IsNumbered number place }
        requires newer { self.old.version < number }
        requires counted { self.old.count ≤ self.old.version }
        requires low { (pos self.old.count *ℤ self.old.min) ≤ℤ self.old.sum }
        requires high { self.old.sum ≤ℤ (pos self.old.count *ℤ self.old.max) }
        ensures value { self.new ≡ with_sample self.old (slot_sample number place time value) }

        // What these samples contribute, and then these with one more sample.
        ensures samples { (xs : List SlotSample) → contribution_of xs ≡ Some self.old
            → contribution_of (slot_sample number place time value ∷ xs) ≡ Some self.new }
        ensures valid { KeepsValid (slot_sample number place time value) self.old self.new }
    {
        let sum = total_with(self.sum, value);
        let last_value = self.last_value_with(time, value);
        *self = Contribution {
            version: number,
            count: self.count + 1,
            sum,
            min: self.min.min(value),
            max: self.max.max(value),
            last_time: self.last_time.max(time),
            last_value,
            mask: self.mask | 1 << place,
        };
    }

    fn has_counts(&self) -> bool
        ensures { IsTrue result ↔ ((1 ≤ self.now.count) × (self.now.count ≤ self.now.version)
            × (self.now.version ≤ MAX_NUMBER)) }
    {
        1 <= self.count && self.count <= self.version && self.version <= MAX_NUMBER
    }

    fn has_last_between(&self) -> bool
        ensures { IsTrue result ↔ ((self.now.min ≤ℤ self.now.last_value)
            × (self.now.last_value ≤ℤ self.now.max)) }
    {
        self.min <= self.last_value && self.last_value <= self.max
    }

    fn has_sum_between(&self) -> bool
        ensures { IsTrue result ↔ (((pos self.now.count *ℤ self.now.min) ≤ℤ self.now.sum)
            × (self.now.sum ≤ℤ (pos self.now.count *ℤ self.now.max))) }
    {
        is_between(
            times(self.count, self.min),
            self.sum,
            times(self.count, self.max),
        )
    }

    fn is_bounded(&self) -> bool
        ensures { IsTrue result ↔ IsBounded self.now }
    {
        self.has_counts() && self.has_last_between() && self.has_sum_between()
    }

    fn has_places(&self, steps: u32, place: u32) -> bool
        ensures { IsTrue result ↔ ((self.now.mask < 2 ^ steps) × (bit_at self.now.mask place ≡ 1)
            × (count_ones self.now.mask ≤ self.now.count)) }
    {
        is_within(self.mask, steps)
            && has_place(self.mask, place)
            && u64::from(self.mask.count_ones()) <= self.count
    }

    /// Whether a cell of this archive can hold it in this slot.
    ///
    /// It can if `1 <= count <= version <= 2^40`, `min <= last_value <= max`, `count * min <= sum
    /// <= count * max`, the last time lies in the slot, and the mask has no place at or above the
    /// archive's steps, has the place of the last time, and has at most `count` places.
    pub fn is_valid(&self, schema: &Schema, archive: u8, slot: i64) -> bool
        requires { archive < length schema.now.archives }
        ensures { IsTrue result ↔ IsValid schema.now archive slot self.now }
    {
        let steps = schema.archives()[archive as usize].steps;
        self.is_bounded()
            && schema.slot(archive, self.last_time) == slot
            && self.has_places(steps, schema.place(archive, self.last_time))
    }
}

impl Join for Contribution {
    ghost use Rattle.std.specs.Ordering.{ord_max};
    ghost use Rattle.rr_join.proofs.Greater.{max_comm, max_assoc, max_itself};
    ghost use Rattle.rr_contrib.specs.Contributions.{contribution_cmp};
    ghost use Rattle.rr_contrib.specs.ContributionOrder.{contribution_cmp_total, contribution_cmp-IsAntisymmetric};

    ghost join_of = { ord_max contribution_cmp };

    /// Keeps the greater of the two, by the fields in their order.
    fn join(&mut self, other: &Contribution) {
        *self = join_max(*self, *other);
    }

    ghost commutative = { max_comm contribution_cmp_total contribution_cmp-IsAntisymmetric };

    ghost associative = { max_assoc contribution_cmp_total };

    ghost idempotent = { max_itself contribution_cmp_total };
}
