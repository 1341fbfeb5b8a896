//! Changes to a cell, and what the cell then contributes.
ghost use Rattle.std.specs.Prelude.{◌≡◌, Some, IfSome};
ghost use Rattle.rr_join.specs.Maps.{greater};
ghost use Rattle.rr_contrib.specs.Contributions.{contribution_with, contribution_cmp};
ghost use Rattle.rr_contrib.specs.Validity.{CanAdd};
ghost use Rattle.rr_archive.specs.Changes.{sample_of, contribution_after, Fits};

use crate::new_sample::NewSample;
use rr_contrib::Contribution;
use rr_join::Join;

/// A change to a cell: a sample, or a contribution from elsewhere.
#[derive(Clone, Copy)]
pub enum Change {
    Put(NewSample),
    Join(Contribution),
}

/// What a cell contributes with one more sample.
fn with_sample(known: Option<Contribution>, sample: &NewSample) -> Contribution
    requires { IfSome known (CanAdd sample.now.number) }
    ensures { result ≡ contribution_with known (sample_of sample.now) }
{
    match known {
        Some(mut contribution) => {
            contribution.add(sample.number, sample.place, sample.time, sample.value);
            contribution
        }
        None => Contribution::first(sample.number, sample.place, sample.time, sample.value),
    }
}

/// What a cell contributes with another contribution joined.
fn with_joined(known: Option<Contribution>, other: &Contribution) -> Contribution
    ensures { Some result ≡ greater contribution_cmp known (Some other.now) }
{
    match known {
        Some(mut contribution) => {
            contribution.join(other);
            contribution
        }
        None => *other,
    }
}

/// What a cell contributes after a change.
pub fn contribution_after(known: Option<Contribution>, change: &Change) -> Contribution
    requires { Fits known change.now }
    ensures { result ≡ contribution_after known change.now }
{
    match change {
        Change::Put(sample) => with_sample(known, sample),
        Change::Join(other) => with_joined(known, other),
    }
}
