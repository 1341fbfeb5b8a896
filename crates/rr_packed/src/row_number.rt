//! The numbers of rows in their block.
ghost use Rattle.std.specs.Prelude.{◌<◌, ◌≤◌, ◌+◌};

/// The number of a row in its block, and of its bit in a mask: from 0 to 63.
#[derive(Clone, Copy)]
pub(crate) struct RowNumber {
    pub(crate) value: u32,
    ghost fits: { value < 64 },
}

/// Consecutive rows of a block, and their bits in a mask.
#[derive(Clone, Copy)]
pub(crate) struct RowRange {
    pub(crate) first: RowNumber,
    pub(crate) count: u32,
    ghost some: { 1 ≤ count },
    ghost within: { first.value + count ≤ 64 },
}
