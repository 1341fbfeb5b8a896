//! Samples, with any number.

use rr_key::SeriesKey;
use rr_schema::Origin;
use std::alloc::AllocError;

/// What an origin writes under a number: a value of a series at a time.
///
/// The number may be any of its type: a replica says which it takes.
#[derive(Drop)]
pub struct Sample {
    /// Who writes it.
    pub origin: Origin,
    /// Under which number.
    pub number: u64,
    /// The key of the series.
    pub key: SeriesKey,
    /// The time, in nanoseconds since the Unix epoch.
    pub time: i64,
    /// The value.
    pub value: i64,
}

impl Sample {
    ghost use Rattle.std.specs.Prelude.{◌≡◌, IfOk};

    /// The same sample. The key's bytes are shared, so no memory is taken.
    pub fn copy(&self) -> Result<Sample, AllocError>
        ensures { IfOk result (λ sample. sample ≡ self.now) }
    {
        Ok(Sample {
            origin: self.origin,
            number: self.number,
            key: self.key.copy()?,
            time: self.time,
            value: self.value,
        })
    }
}
