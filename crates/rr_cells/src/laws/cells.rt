//! Puts, joins and differences of cells.
ghost use Rattle.rr_cells.specs.State.{PutIsOneSampleMore};
ghost use Rattle.rr_cells.specs.Laws.{PutGoesByArchives, PutLeavesOtherKeys, PutIsTrimmed, DeadLeaveNoTrace, LiveCellsAreFew, CellJoinIsCommutative, CellJoinIsAssociative, CellJoinIsIdempotent, CellJoinIsTrimmed, JoinGoesByArchives, JoinUnites, JoinGoesByCells, JoinCellUnites, PartsAreCutFromEntries, WholeCellsMakeTheirCells, LiveMakesTheSame, StateIsOfTheLive, LackIsByVersions, StatesAreValid, VersionsAreNumbers, NextStays, SumsAreSmall, JoinsMakeTheirCells, JoinsAreTaken, JoiningGoesOn};

/// Putting a sample puts it into each archive of its key alone; past the horizon it leaves no
/// trace.
pub fn puts_go_by_archives()
    ensures here { PutGoesByArchives }
    ensures nowhere_else { PutLeavesOtherKeys }
    ensures dead { DeadLeaveNoTrace }
    ensures trimmed { PutIsTrimmed }
{}

/// An archive of a key has at most as many live cells as its rows times the origins that have one
/// there, whatever was written.
pub fn live_cells_are_few()
    ensures { LiveCellsAreFew }
{}

/// Putting a sample that is newer than all that is known of its origin is knowing it too, in each
/// archive, dead or live: the cells are those that the samples then known make.
pub fn a_put_is_one_sample_more()
    ensures { PutIsOneSampleMore }
{}

/// Joining maps of cells gives the same in any order, in any grouping and any number of times; what
/// is joined is trimmed, and it goes by the archives of each key.
pub fn join_keeps_the_live()
    ensures commutative { CellJoinIsCommutative }
    ensures associative { CellJoinIsAssociative }
    ensures idempotent { CellJoinIsIdempotent }
    ensures trimmed { CellJoinIsTrimmed }
    ensures local { JoinGoesByArchives }
    ensures cells { JoinGoesByCells }
{}

/// Joining the cells of two closed knowledges gives the cells of their union.
pub fn a_join_is_a_union()
    ensures whole { JoinUnites }
    ensures cell { JoinCellUnites }
{}

/// Whole cells of what is known, as in a page, make these cells; all live marks, as in a snapshot,
/// make all cells.
pub fn whole_cells_make_their_cells()
    ensures part { WholeCellsMakeTheirCells }
    ensures cut { PartsAreCutFromEntries }
    ensures live { LiveMakesTheSame }
    ensures live_alone { StateIsOfTheLive }
{}

/// Joining some cells, and then the rest of them if memory ran out, is joining them all.
pub fn joining_goes_on()
    ensures { JoiningGoesOn }
{}

/// What one closed knowledge has and another lacks can be read from the versions of their cells.
pub fn a_difference_is_by_versions()
    ensures { LackIsByVersions }
{}

/// What is known of samples within the limits makes cells of the schema. Their versions are numbers
/// that their origins wrote, so joining them at one of these origins leaves its next number as it
/// is; and no sum of a row comes near the end of its type.
pub fn cells_of_samples_are_valid()
    ensures valid { StatesAreValid }
    ensures versions { VersionsAreNumbers }
    ensures next { NextStays }
    ensures sums { SumsAreSmall }
{}

/// One join for each cell of a map makes the map, starting from no cell, and a replica of their
/// schema takes each of them.
pub fn joins_make_their_cells()
    ensures made { JoinsMakeTheirCells }
    ensures taken { JoinsAreTaken }
{}
