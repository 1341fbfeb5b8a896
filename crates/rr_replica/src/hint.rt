//! Where series are likely to be.

/// Where a replica is likely to have a series.
///
/// No answer depends on a hint: a right one saves the lookup of the key, and a wrong one costs a
/// comparison of two keys.
#[derive(Clone, Copy, Debug)]
pub struct Hint {
    pub(crate) index: usize,
}

impl Hint {
    /// The hint of a series about which nothing is known.
    pub fn none() -> Hint {
        Hint { index: usize::MAX }
    }

    /// The hint of the series with this number: series are counted from 0 in the order in which they
    /// came.
    pub fn at(series: usize) -> Hint {
        Hint { index: series }
    }

    /// The index of the series, if a replica gave the hint: series are counted from 0 in the order
    /// in which they came. `usize::MAX` if nothing is known.
    pub fn index(self) -> usize {
        self.index
    }
}
