//! The sum of the samples of a row.

ghost use Rattle.std.specs.Prelude.{◌≡◌, ◌+◌, ◌*◌, ◌≤◌, ◌+ℤ◌, All, length};
ghost use Rattle.rr_cells.specs.Rows.{average};
ghost use Rattle.rr_fetch.specs.Consolidation.{IsBounded, IsSum, IsSummable, total_of, count_of};

use rr_archive::Entry;
use rr_contrib::Contribution;
use rr_text::limits::MAX_NUMBER;

/// The most entries of a row: origins have 16 bits.
pub(crate) const MAX_ENTRIES: usize = 65_536;

const _: () = prove!(MAX_ENTRIES == 65_536);

/// Samples, as their count and the sum of their values.
#[derive(Clone, Copy, Debug)]
pub(crate) struct Sum {
    count: u64,
    total: i128,
}

/// No sample.
const NONE: Sum = Sum { count: 0, total: 0 };

impl Sum {
    /// The sum with the samples of a contribution added.
    fn with(self, contribution: &Contribution) -> Sum
        requires summable { IsSummable contribution.now }
        requires count_fits { self.count ≤ MAX_ENTRIES * MAX_NUMBER }
        requires bounded { IsBounded self.count self.total }
        ensures { IsSum (self.count + contribution.now.count)
            (self.total +ℤ contribution.now.sum) result }
    {
        let contribution = *contribution;
        Sum {
            count: self.count + contribution.count,
            total: self.total + contribution.sum,
        }
    }

    /// The floor of the mean, if there is a sample.
    pub(crate) fn average(&self) -> Option<i64>
        requires { IsBounded self.now.count self.now.total }
        ensures { result ≡ average self.now.total self.now.count }
    {
        if self.count == 0 {
            return None;
        }
        // Most rows have one sample, and a division takes longer than the rest.
        if self.count == 1 {
            return Some(self.total as i64);
        }
        Some(self.total.div_euclid(i128::from(self.count)) as i64)
    }
}

/// The sum of the samples of a contribution.
pub(crate) fn sum_of_one(contribution: &Contribution) -> Sum
    requires { IsSummable contribution.now }
    ensures { IsSum contribution.now.count contribution.now.sum result }
{
    NONE.with(contribution)
}

/// The sum of all samples of a row.
pub(crate) fn sum_of(row: &[Entry]) -> Sum
    requires row_fits { length row.now ≤ MAX_ENTRIES }
    requires summable { All (λ e. IsSummable e.contribution) row.now }
    ensures { IsSum (count_of row.now) (total_of row.now) result }
{
    let mut sum = NONE;
    for entry in row {
        sum = sum.with(&entry.contribution);
    }
    sum
}
