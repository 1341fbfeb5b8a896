//! What nodes know, and the rows and texts answered from it.
ghost use Rattle.rr_cells.specs.KnowledgeLaws.{UnionIsCommutative, UnionIsAssociative, UnionIsIdempotent, NothingIsClosed, WriterStaysClosed, WriterHoldsOwn, OthersStayClosed, OthersHoldOwn, UnionIsClosed, UnionHoldsOwn, DeadStayDead, WholeCellsAreClosed, LiveIsClosed, WholeCellsAreLive, LiveIsLive, NamesAreOfTheLive, DifferenceBringsAll, RowsAreOfTheLive, FetchesAreOfTheLive, LiveAnswersAlike};

/// What is known after deliveries is the same in any order, in any grouping, any number of times.
pub fn union_is_a_join()
    ensures commutative { UnionIsCommutative }
    ensures associative { UnionIsAssociative }
    ensures idempotent { UnionIsIdempotent }
{}

/// What is closed stays so: at the writer of a sample, elsewhere, and when two are united. Each
/// still holds all of its own origin.
pub fn knowledge_stays_closed()
    ensures nothing { NothingIsClosed }
    ensures writer { WriterStaysClosed }
    ensures writer_holds_own { WriterHoldsOwn }
    ensures others { OthersStayClosed }
    ensures others_hold_own { OthersHoldOwn }
    ensures united { UnionIsClosed }
    ensures union_holds_own { UnionHoldsOwn }
{}

/// What is past the horizon never comes back: it is dead to all who know as much.
pub fn the_dead_stay_dead()
    ensures { DeadStayDead }
{}

/// Whole cells, as in a page, and all live marks, as in a snapshot, are closed and live.
pub fn whole_cells_are_closed()
    ensures part { WholeCellsAreClosed }
    ensures live { LiveIsClosed }
    ensures part_live { WholeCellsAreLive }
    ensures live_live { LiveIsLive }
{}

/// Giving whole cells gives all that is live; of the cells, those of the difference are enough.
pub fn whole_cells_bring_all()
    ensures names { NamesAreOfTheLive }
    ensures difference { DifferenceBringsAll }
{}

/// Two that know the same live marks give the same answer to each fetch.
pub fn fetches_are_of_the_live()
    ensures rows { RowsAreOfTheLive }
    ensures texts { FetchesAreOfTheLive }
    ensures live_alone { LiveAnswersAlike }
{}
