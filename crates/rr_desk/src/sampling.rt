//! Which operations are followed by a look for finished rows.

use rr_cells::Op;

/// Spreads the bits of a number over those of a product: 2^64 divided by the golden ratio.
const SPREAD: u64 = 11_400_714_819_323_198_485;

/// Whether finished rows are looked for after an operation: after about one in sixteen, since
/// looking for them costs a tenth of a put, and a finished block can wait.
///
/// The number of a sample, or a version, is mixed so that each series comes up even if a sender
/// repeats its order.
pub(crate) fn shares_rows(op: &Op) -> bool {
    let number = match op {
        Op::Put(sample) => sample.number,
        Op::Join(cell) => cell.contribution.version,
    };
    is_sampled(number)
}

/// Whether a number is among the picked ones, about one in sixteen.
pub(crate) fn is_sampled(number: u64) -> bool {
    (number ^ (number >> 7)).wrapping_mul(SPREAD) >> 60 == 0
}
