//! The laws of frames and sessions: functions with empty bodies, whose contracts state them.
ghost use Rattle.rr_gossip.specs.Laws.{FramesAreTheirText, SummariesAreTheirText};
ghost use Rattle.rr_gossip.specs.Session.{GivesAnswer, GivesHearTheNames, PullsBringTheDifference, PullsBringTheJoin, PullsTakeTheReply, PullsUnite, StoppedPullsTakeAPrefix};
ghost use Rattle.rr_gossip.specs.Transcript.{GiversReply, GiversTake, PullersSend, PullersTake, SessionsBringTheJoin};

/// A frame is read exactly when it is the text of a kind and a body, and not too long.
pub fn frames_are_their_text()
    ensures { FramesAreTheirText }
{}

/// The body of a Summary frame is read exactly when it is the text of 1 to 256 names of the schema
/// that ascend, after those before them.
pub fn summaries_are_their_text()
    ensures { SummariesAreTheirText }
{}

/// Frame by frame, from `Puller::new` on, a puller sends its schema, the names and versions of all
/// its cells, and the end, if its session may have that many frames.
pub fn pullers_send()
    ensures { PullersSend }
{}

/// Frame by frame, from the other side's last frame on, a giver sends the pages of the difference,
/// and the end, if its session may have that many frames.
pub fn givers_reply()
    ensures { GiversReply }
{}

/// Frame by frame, from `Giver::new` on, a giver that takes what a puller sends then has the
/// difference against all names and versions to send.
pub fn givers_take()
    ensures { GiversTake }
{}

/// Frame by frame, from the end of the names on, a puller that takes what a giver replies joins all
/// its cells, one by one and in order.
pub fn pullers_take()
    ensures { PullersTake }
{}

/// A whole session brings what one side lacks, in order, if it may have that many frames; and
/// joining that brings the join of the cells of both, if equal versions of one cell mean equal
/// contents.
pub fn sessions_bring_the_join()
    ensures { SessionsBringTheJoin }
{}

/// A `give` that heard what a side sends for some names and versions has the difference against
/// them to send, and left unread what follows; one that succeeded wrote the pages of that, of cells
/// of the schema.
pub fn gives_answer()
    ensures heard { GivesHearTheNames }
    ensures answer { GivesAnswer }
{}

/// A `pull` that read what a side replies with for some cells took exactly these, in order, and
/// left unread what follows. One that stopped, because not all of it came or memory ran out, took
/// the first of them, in order.
pub fn pulls_take_the_reply()
    ensures whole { PullsTakeTheReply }
    ensures stopped { StoppedPullsTakeAPrefix }
{}

/// If a `give` heard what a `pull` sent, and that `pull` read its answer, it took exactly what its
/// target lacked, in order; and joining that brings the join of the cells of both sides, if equal
/// versions of one cell mean equal contents.
pub fn pulls_bring_the_join()
    ensures difference { PullsBringTheDifference }
    ensures join { PullsBringTheJoin }
{}

/// So if each side has the cells of what it knows, without gaps, a `pull` brings the target the
/// cells of what either knew.
pub fn pulls_unite()
    ensures { PullsUnite }
{}
