//! A sample on its way into a cell.
ghost use Rattle.std.specs.Prelude.{◌<◌, ◌≤◌};
ghost use Rattle.rr_text.specs.declared.limits.TheConstants.{MAX_NUMBER, MAX_STEPS};

/// A sample as its slot sees it.
#[derive(Clone, Copy)]
pub struct NewSample {
    pub number: u64,
    pub place: u32,
    pub time: i64,
    pub value: i64,
    ghost number_at_least: { 1 ≤ number },
    ghost number_at_most: { number ≤ MAX_NUMBER },
    ghost in_slot: { place < MAX_STEPS },
}
