//! Change times, and the changes within them.
ghost use Rattle.rr_changes.specs.ChangeLaws.{TrackedTimesAreIn, TimesStayIn, OneMoreIsTracked, UnchangingNeedsNoTracking, TrackedOperationsAreCovered, CoveredCellsAreAnUpdate, CoveredCellsMakeTheCells, PeriodsAreWrites, ListedChangesAreTheSame, ListedChangesMakeTheCells, TrackedChangesMakeTheCells};

/// A time that is tracked is in the ranges of its series, and stays there. So operations tracked as
/// they come, by the numbers of their series, are covered by the list of changed series; one that
/// changes no cell may be skipped.
pub fn tracked_operations_are_covered()
    ensures times { TrackedTimesAreIn }
    ensures stay { TimesStayIn }
    ensures one_more { OneMoreIsTracked }
    ensures unchanging { UnchangingNeedsNoTracking }
    ensures covered { TrackedOperationsAreCovered }
{}

/// The cells within ranges that cover all operations since a moment are an update since then:
/// joined to the cells of that moment they make the cells of now. So periodic writes are updates one
/// after the other, which bring all in any order.
pub fn covered_cells_are_an_update()
    ensures update { CoveredCellsAreAnUpdate }
    ensures makes { CoveredCellsMakeTheCells }
    ensures periods { PeriodsAreWrites }
{}

/// They are the changes that are listed archive by archive, which make the cells of now likewise.
pub fn listed_changes_make_the_cells()
    ensures same { ListedChangesAreTheSame }
    ensures makes { ListedChangesMakeTheCells }
    ensures tracked { TrackedChangesMakeTheCells }
{}
