//! The laws of the join: functions with empty bodies, whose contracts state them.
ghost use Rattle.rr_join.specs.Laws.{MergeIsCommutative, MergeIsAssociative, MergeIsIdempotent, JoinIsCommutative, JoinIsAssociative, JoinIsIdempotent, JoinIsTrimmed};

/// Merging keeps the greater value at each key: in any order, in any grouping, and any number of
/// times.
pub fn merge_keeps_the_greater<N: Ord, T: Ord>()
    ensures commutative { MergeIsCommutative N.cmp T.cmp }
    ensures associative { MergeIsAssociative N.cmp T.cmp }
    ensures idempotent { MergeIsIdempotent N.cmp T.cmp }
{}

/// Merging and then trimming to the live keys gives the same in any order, in any grouping, and any
/// number of times.
pub fn join_keeps_the_live<N: Ord, T: Ord>()
    ensures commutative { JoinIsCommutative N.cmp T.cmp }
    ensures associative { JoinIsAssociative N.cmp T.cmp }
    ensures idempotent { JoinIsIdempotent N.cmp T.cmp }
    ensures trimmed { JoinIsTrimmed N.cmp T.cmp }
{}
