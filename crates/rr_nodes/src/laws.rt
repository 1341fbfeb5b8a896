//! The laws of several nodes, as functions with empty bodies.
ghost use Rattle.rr_nodes.specs.Laws.{NodesAreOfSamples, FetchesAreOfSamples, MomentsAnswerAlike, PremisesAreKept, HeldAreOfTheSchema};
ghost use Rattle.rr_nodes.specs.Keepers.{OpeningIsANode, PutIsADeed, WriteIsDeeds, JoinIsADeed, PageIsDeeds, PublishIsNone, ReopeningIsNone, ReadersSeeMoments, ReadersAnswerFromSamples, ReadersAnswerAlike};
ghost use Rattle.rr_nodes.specs.Example.{ThreeAnswer};
ghost use Rattle.rr_nodes.specs.Calls.{CallsAnswerFromSamples, WritesArePuts, PagesAreJoins};
ghost use Rattle.rr_nodes.specs.Followers.{CheckpointedHoldAll, FollowersHoldAll, KeepersGoOn};
ghost use Rattle.rr_nodes.specs.Giving.{GivenAreThere, UnusedHaveNoCells, SavedIsLoadedElsewhere};
ghost use Rattle.rr_nodes.specs.Journals.{WrittenWereHeld, CheckpointsWereHeld, WalksWereHeld, ReadCellsAreDeeds, ReadCellsAreAKeepers, ReadCellsAreJoins, NodesOnlyAdd, HoldersKnowAll, TakenAreHeld, JournalsBringAll, CheckpointedBringAll, WalkedBringAll};
ghost use Rattle.rr_nodes.specs.Models.{cell_model, sample_model};
ghost use Rattle.rr_nodes.specs.Pulls.{TakesAreInOrder, PullsBringAll};
ghost use Rattle.rr_nodes.specs.Replays.{PrefixesAreDeeds, SyncedBringAll, ReplaysMakeTheLast};
ghost use Rattle.rr_nodes.specs.Sessions.{SessionsBringWhatIsLacking, SessionsAreDeeds, PullIsDeeds, PullsAreJoins, CutSessionsBringAPrefix, SilentSessionsBringNothing, CutPullIsDeeds, CutPullsAreJoins, SidesHaveASession, SidesHaveACutSession};

/// Whatever is done at any number of nodes, in any order: at each moment each node has the cells of
/// the marks that reached it, so a fetch is answered from exactly these; and whoever knows the same
/// live marks has the same cells.
pub fn nodes_answer_from_samples()
    ensures cells { NodesAreOfSamples }
    ensures fetches { FetchesAreOfSamples }
    ensures alike { MomentsAnswerAlike }
{}

/// What is done keeps the premises by itself: what a node held at any moment has no gaps, and it
/// has all marks of its own origin, whose next number is past them. Only deeds write, so within the
/// limits everything held is a cell of the schema.
pub fn premises_are_kept()
    ensures premises { PremisesAreKept }
    ensures of_schema { HeldAreOfTheSchema }
{}

/// A keeper's calls do what deeds do at its node: opening a desk, putting a sample or those of a
/// point, joining a cell of what another node held, or a page of them. Publishing does nothing
/// there, nor does closing the desk and opening one over its replica again.
pub fn keepers_are_nodes()
    ensures opening { OpeningIsANode }
    ensures put { PutIsADeed }
    ensures write { WriteIsDeeds }
    ensures join { JoinIsADeed }
    ensures page { PageIsDeeds }
    ensures publish { PublishIsNone }
    ensures reopening { ReopeningIsNone }
{}

/// What a reader has seen is what its node held when it had as many operations. So whatever was
/// done at all nodes, it answers from exactly the marks that had reached its node then, and the
/// same live marks give the same answers.
pub fn readers_answer_from_samples()
    ensures moments { ReadersSeeMoments }
    ensures answers { ReadersAnswerFromSamples }
    ensures alike { ReadersAnswerAlike }
{}

/// Cells of one moment are taken in order, whatever else that node does; and a node that has taken
/// all cells it lacked has the live marks of what either knew.
pub fn pulls_bring_all()
    ensures cells { TakesAreInOrder cell_model }
    ensures marks { TakesAreInOrder sample_model }
    ensures all { PullsBringAll }
{}

/// A session over bytes, which a reader of one node gives and the keeper of another pulls, brings
/// exactly the cells that were lacking, in order; so it amounts to deeds, after which the node has
/// the live marks of both. By the contracts of `pull` and `give` alone, the keeper has done these
/// deeds.
pub fn sessions_are_deeds()
    ensures bytes { SessionsBringWhatIsLacking }
    ensures deeds { SessionsAreDeeds }
    ensures keeper { PullIsDeeds }
    ensures calls { PullsAreJoins }
{}

/// A session cut on either side brings the first of these cells, in order, and none if nothing
/// came; what the keeper has joined then amounts to deeds as well.
pub fn cut_sessions_are_deeds()
    ensures bytes { CutSessionsBringAPrefix }
    ensures silent { SilentSessionsBringNothing }
    ensures keeper { CutPullIsDeeds }
    ensures calls { CutPullsAreJoins }
{}

/// Sessions as the two laws above take them exist, whole and cut: any two sides with cells of the
/// schema can have one.
pub fn sides_have_sessions()
    ensures whole { SidesHaveASession }
    ensures cut { SidesHaveACutSession }
{}

/// Each cell that a reader gives is there, so whoever joins it takes it; and what a keeper saves
/// loads, under an origin that no node has, as a replica that holds what its node does.
pub fn cells_given_are_there()
    ensures given { GivenAreThere }
    ensures unused { UnusedHaveNoCells }
    ensures loaded { SavedIsLoadedElsewhere }
{}

/// Whatever calls the keepers of several desks make, with one schema and each under an origin of
/// its own, joining cells and loading snapshots of what desks have had: each reader of each desk
/// answers from exactly the marks that had reached its node when it had the operations that the
/// reader has seen. Writing a point is putting its samples, and taking a page is joining its cells.
pub fn calls_are_deeds()
    ensures answers { CallsAnswerFromSamples }
    ensures writes { WritesArePuts }
    ensures pages { PagesAreJoins }
{}

/// What a node writes to its journal, and what a checkpoint of it has, are cells that it held at
/// moments. So whatever other nodes read from journals, cut anywhere, twice and in any order, with
/// pulls and pages in between, amounts to deeds: those of a keeper that joins the cells, and calls
/// at a desk.
pub fn journals_are_deeds()
    ensures written { WrittenWereHeld }
    ensures checkpoints { CheckpointsWereHeld }
    ensures walks { WalksWereHeld }
    ensures deeds { ReadCellsAreDeeds }
    ensures keeper { ReadCellsAreAKeepers }
    ensures calls { ReadCellsAreJoins }
{}

/// What a node holds has all that it held before; and if it has all that was held somewhere, it
/// knows the samples known there. So whoever took each cell of a journal up to some write, from its
/// beginning or from a checkpoint on, holds all that the journal's node held at that write,
/// whatever else was done, and in whatever order.
pub fn journals_bring_all()
    ensures add { NodesOnlyAdd }
    ensures known { HoldersKnowAll }
    ensures taken { TakenAreHeld }
    ensures all { JournalsBringAll }
    ensures checkpoints { CheckpointedBringAll }
    ensures walks { WalkedBringAll }
{}

/// The same holds for the bytes of a journal: what a replay makes of any prefix of them is what
/// deeds make; of what was synced it makes all that the node held then, whatever a crash left after
/// it; and of the records alone exactly that.
pub fn replays_are_deeds()
    ensures prefixes { PrefixesAreDeeds }
    ensures synced { SyncedBringAll }
    ensures last { ReplaysMakeTheLast }
{}

/// The same holds for the calls of a node that follows another: part by part it reads what the
/// journal has from its place on, and joins the cells. Once it is past what was written up to some
/// write, it holds all that the other held then, whatever else its keeper did; also if it first
/// read a checkpoint, and then the journal from where that begins.
pub fn followers_hold_all()
    ensures others { KeepersGoOn }
    ensures journal { FollowersHoldAll }
    ensures checkpoint { CheckpointedHoldAll }
{}

/// Three nodes, where one took a page twice and one only its first cell: each answers from what
/// reached it.
pub fn three_nodes_by_example()
    ensures { ThreeAnswer }
{}
