//! The laws of a desk: functions with empty bodies, whose contracts state them.
ghost use Rattle.rr_desk.specs.Laws.{OperationsAreKnown, ListsAreKnown, BeginningsAreHistories, AnswersAreOfSamples, CellsGivenAreWhole, CellsSavedAreWhole, OpeningIsHistory, PutIsAStep, WriteIsSteps, JoinIsAStep, PublishIsNoStep, OthersWrite, LoadedIsKnown, RaisedIsKnown, SeenIsPublished};

/// A desk is opened with a replica whose cells are those of a knowledge without gaps that has all
/// marks of its own origin. Its keeper puts samples of its own, and joins whole live cells of such
/// knowledges; others write theirs meanwhile. Then each list of its operations makes the cells of
/// such a knowledge again.
pub fn operations_are_known()
    ensures step { OperationsAreKnown }
    ensures whole { ListsAreKnown }
    ensures beginnings { BeginningsAreHistories }
{}

/// So a reader answers from exactly the samples that reached what it has seen, and the cells that a
/// desk gives or saves are whole live cells of a knowledge without gaps: a node that pulls and
/// loads only from such nodes is such a node again.
pub fn readers_answer_from_samples()
    ensures answers { AnswersAreOfSamples }
    ensures given { CellsGivenAreWhole }
    ensures saved { CellsSavedAreWhole }
{}

/// The calls of a keeper make such a history, whatever their arguments: what the laws above ask of
/// its operations follows from the contracts of the calls.
pub fn keepers_have_histories()
    ensures opening { OpeningIsHistory }
    ensures put { PutIsAStep }
    ensures write { WriteIsSteps }
    ensures join { JoinIsAStep }
    ensures publish { PublishIsNoStep }
    ensures others { OthersWrite }
{}

/// A node loaded from the snapshot of such a node, under an origin that wrote nothing, is such a
/// node again; under a schema with one more archive, it is such a node of that schema.
pub fn loaded_nodes_are_known()
    ensures loaded { LoadedIsKnown }
    ensures raised { RaisedIsKnown }
{}

/// Under the rule of the two copies, each reader has seen, at each moment, a prefix of what its
/// keeper has published by then.
pub fn what_is_seen_is_published()
    ensures { SeenIsPublished }
{}
