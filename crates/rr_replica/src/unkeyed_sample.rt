//! A sample, as the archives of its key take it.
ghost use Rattle.std.specs.Prelude.{◌≤◌};
ghost use Rattle.rr_text.specs.declared.limits.TheConstants.{MAX_NUMBER};

use rr_schema::Origin;

/// A sample without its key, whose number is one that a sample can have: from 1 to 2^40.
#[derive(Clone, Copy)]
pub(crate) struct UnkeyedSample {
    pub(crate) origin: Origin,
    pub(crate) number: u64,
    pub(crate) time: i64,
    pub(crate) value: i64,
    ghost number_at_least: { 1 ≤ number },
    ghost number_at_most: { number ≤ MAX_NUMBER },
}
