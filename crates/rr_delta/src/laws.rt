//! The laws of differences: functions with empty bodies, whose contracts state them.
ghost use Rattle.rr_delta.specs.Laws.{DifferenceIsByVersions, DifferenceIsOfKnowledges, DifferencesAreCutFromEntries, DifferenceBringsTheJoin, KnowledgesAgree, DifferenceUnites};

/// Against the summary of all cells, the difference is that by versions; so for closed knowledges
/// it is what one has and the other lacks, and a part of it has whole cells.
pub fn a_difference_is_by_versions()
    ensures cells { DifferenceIsByVersions }
    ensures knowledges { DifferenceIsOfKnowledges }
    ensures cut { DifferencesAreCutFromEntries }
{}

/// Joining the difference is joining all cells, if equal versions of one cell mean equal contents.
pub fn a_difference_brings_the_join()
    ensures { DifferenceBringsTheJoin }
{}

/// For two knowledges without gaps, equal versions of one cell mean equal contents, so joining the
/// difference gives the cells of what either knows.
pub fn a_difference_unites()
    ensures agree { KnowledgesAgree }
    ensures unites { DifferenceUnites }
{}
