//! The laws of the cells of one archive: functions with empty bodies, whose contracts state them.
ghost use Rattle.rr_archive.specs.Laws.{MergeIsCommutative, MergeIsAssociative, MergeIsIdempotent, JoinIsCommutative, JoinIsAssociative, JoinIsIdempotent, JoinIsTrimmed, CellsAreFew};

/// Keeping the greater contribution of two maps at each cell slot gives the same in any order, in
/// any grouping, and any number of times.
pub fn merge_keeps_the_greater()
    ensures commutative { MergeIsCommutative }
    ensures associative { MergeIsAssociative }
    ensures idempotent { MergeIsIdempotent }
{}

/// Merging and then keeping the live rows gives the same in any order, in any grouping and any
/// number of times, for maps that hold no other rows.
pub fn join_keeps_the_live()
    ensures commutative { JoinIsCommutative }
    ensures associative { JoinIsAssociative }
    ensures idempotent { JoinIsIdempotent }
    ensures trimmed { JoinIsTrimmed }
{}

/// However many samples are put and cells joined, an archive has at most as many cells as its rows
/// times the origins.
pub fn live_cells_are_few()
    ensures { CellsAreFew }
{}
