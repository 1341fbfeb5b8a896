//! The greater of two values.
ghost use Rattle.std.specs.Prelude.{◌≡◌, if◌then◌else◌};
ghost use Rattle.std.specs.Ordering.{is_lt};
ghost use Rattle.std.specs.FinMap.{IsAntisymmetric};
ghost use Rattle.rr_join.specs.Maps.{greater};

use std::cmp::Ordering;

/// The greater of two values by `cmp`, and `a` on a tie.
pub fn join_max<T: Copy + Ord>(a: T, b: T) -> T
    ensures greater { result ≡ (if is_lt (T.cmp a b) then b else a) }
    ensures merged { IsAntisymmetric T.cmp → Some result ≡ greater T.cmp (Some a) (Some b) }
{
    match a.cmp(&b) {
        Ordering::Less => b,
        Ordering::Equal => a,
        Ordering::Greater => a,
    }
}
