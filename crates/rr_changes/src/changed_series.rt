//! A series that has changed.

use crate::time_range::ChangeTimes;
use rr_key::SeriesKey;

/// A series that has changed, and where.
#[derive(Drop)]
pub struct ChangedSeries {
    /// The number of the series in its replica.
    pub number: usize,
    /// The key of the series.
    pub key: SeriesKey,
    /// The ranges of times in which it changed.
    pub times: ChangeTimes,
}
