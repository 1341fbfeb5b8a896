//! How a fetch consolidates the samples of a row.

/// A consolidation function of rrdcreate (`CF`).
#[derive(Clone, Copy, Debug, PartialEq, Eq)]
pub enum ConsolidationFunction {
    /// The floor of the mean of the samples.
    Average,
    /// The smallest sample.
    Min,
    /// The greatest sample.
    Max,
    /// The sample with the greatest time, origin and number.
    Last,
}
