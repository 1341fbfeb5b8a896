//! How many readers a desk has.
ghost use Rattle.std.specs.Prelude.{◌≤◌};
ghost use Rattle.rr_text.specs.declared.limits.TheConstants.{MAX_READERS};

/// How many readers a desk has: from 1 to 16.
#[derive(Clone, Copy)]
pub struct ReaderCount {
    /// The number.
    pub value: usize,
    ghost some: { 1 ≤ value },
    ghost few: { value ≤ MAX_READERS },
}
