//! A sample, as a row with no other is held.
ghost use Rattle.std.specs.Prelude.{◌≡◌, ◌<◌, ◌≤◌, [], IsTrue, IfSome};
ghost use Rattle.rr_archive.specs.Changes.{entry_after};
ghost use Rattle.rr_text.specs.declared.limits.TheConstants.{MAX_NUMBER, MAX_STEPS};
ghost use Rattle.rr_contrib.specs.Contributions.{of_one, slot_sample};

use rr_archive::Entry;
use rr_archive::change::Change;
use rr_contrib::Contribution;
use rr_schema::Origin;
use rr_text::limits::{MAX_NUMBER, MAX_STEPS};
use std::mem::size_of;

/// A sample without its origin and its place.
#[derive(Clone, Copy, PartialEq, Eq)]
pub(crate) struct LoneSample {
    pub(crate) number: u64,
    pub(crate) time: i64,
    pub(crate) value: i64,
    ghost number_at_least: { 1 ≤ number },
    ghost number_at_most: { number ≤ MAX_NUMBER },
}

const _: () = prove!(size_of::<LoneSample>() == 24);

/// What the samples of a block have in common: their origin, and the place of each in its slot.
#[derive(Clone, Copy, PartialEq, Eq)]
pub(crate) struct Source {
    pub(crate) origin: Origin,
    pub(crate) place: u32,
    ghost in_slot: { place < MAX_STEPS },
}

/// Whether a contribution is of one sample, at the place of a source.
fn is_of_one(contribution: &Contribution, source: &Source) -> bool
    ensures { IsTrue result → contribution.now
        ≡ of_one (slot_sample contribution.now.version source.now.place contribution.now.last_time
        contribution.now.last_value) }
{
    contribution.count == 1
        && contribution.sum == i128::from(contribution.last_value)
        && contribution.min == contribution.last_value
        && contribution.max == contribution.last_value
        && contribution.mask == 1 << source.place
}

/// Whether samples are the same as others.
pub(crate) fn are_same_samples(samples: &[LoneSample], others: &[LoneSample]) -> bool
    ensures { IsTrue result → samples.now ≡ others.now }
{
    samples == others
}

/// Whether the source of samples, if there is one, is the same as another.
pub(crate) fn is_same_source(source: &Option<Source>, other: &Option<Source>) -> bool
    ensures { IsTrue result → source.now ≡ other.now }
{
    source == other
}

impl LoneSample {
    ghost use Rattle.rr_packed.specs.LoneSamples.{entry_of};

    /// An entry as a lone sample with its source, if it is of one sample.
    fn of(entry: &Entry) -> Option<(Source, LoneSample)>
        ensures { IfSome result (λ r. entry_of r.0 r.1 ≡ entry.now) }
    {
        let contribution = entry.contribution;
        let place = contribution.mask.trailing_zeros();
        let number = contribution.version;
        if place >= MAX_STEPS || number < 1 || number > MAX_NUMBER {
            return None;
        }
        let source = Source {
            origin: entry.origin,
            place,
        };
        if !is_of_one(&contribution, &source) {
            return None;
        }
        let sample = LoneSample {
            number,
            time: contribution.last_time,
            value: contribution.last_value,
        };
        Some((source, sample))
    }

    /// The lone sample that a change makes of a row without an entry, with its source, if it is of
    /// one sample.
    #[inline(always)]
    pub(crate) fn after(origin: Origin, change: &Change) -> Option<(Source, LoneSample)>
        ensures { IfSome result (λ r. entry_of r.0 r.1 ≡ entry_after [] origin change.now) }
    {
        match change {
            Change::Put(sample) => Some((
                Source {
                    origin,
                    place: sample.place,
                },
                LoneSample {
                    number: sample.number,
                    time: sample.time,
                    value: sample.value,
                },
            )),
            Change::Join(contribution) => LoneSample::of(&Entry {
                origin,
                contribution: *contribution,
            }),
        }
    }

    /// The entry of a row with only this sample.
    pub(crate) fn entry(&self, source: &Source) -> Entry
        ensures { result ≡ entry_of source.now self.now }
    {
        Entry {
            origin: source.origin,
            contribution: Contribution::first(self.number, source.place, self.time, self.value),
        }
    }
}
