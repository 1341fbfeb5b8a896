//! Bits of a mask.
ghost use Rattle.std.specs.Prelude.{◌≡◌, ◌<◌, ◌≤◌, ◌+◌, ℕ};
ghost use Rattle.std.specs.Int.{bit_at};
ghost use Rattle.rr_packed.specs.Sparse.{rank};

use crate::row_number::{RowNumber, RowRange};

/// How many of a mask's bits are set for some rows.
pub(crate) fn ones_on(mask: u64, rows: RowRange) -> usize
    ensures { rank mask rows.first.value + result ≡ rank mask (rows.first.value + rows.count) }
{
    (mask >> rows.first.value << (64 - rows.count)).count_ones() as usize
}

/// The distance from a number to the next whose bit is set, or to 64.
pub(crate) fn next_on(mask: u64, number: RowNumber) -> u32
    ensures some { 1 ≤ result }
    ensures within { number.value + result ≤ 64 }
    ensures unset { (i : ℕ) → 1 ≤ i → i < result → bit_at mask (number.value + i) ≡ 0 }
{
    let rest = mask >> number.value >> 1;
    if rest == 0 {
        return 64 - number.value;
    }
    1 + rest.trailing_zeros()
}
