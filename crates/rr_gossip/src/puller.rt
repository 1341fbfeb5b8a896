//! The side of a session that pulls cells.
ghost use Rattle.std.specs.Prelude.{◌≡◌, ◌≤◌, ◌<◌, Err, length, map, IfOk, OnErr, IsTrue};
ghost use Rattle.std.specs.Option.{option_map};
ghost use Rattle.rr_text.specs.Results.{GivesUnless, NeedsMemoryAfter};
ghost use Rattle.rr_delta.specs.Names.{owned_name};
ghost use Rattle.rr_gossip.specs.declared.frame.TheConstants.{MAX_FRAMES, MAX_FRAME_LEN};
ghost use Rattle.rr_gossip.specs.declared.summary.TheConstants.{MAX_ENTRIES};
ghost use Rattle.rr_gossip.specs.Calls.{SendsNext};
ghost use Rattle.rr_gossip.specs.Puller.{PullerFailed, Takes, first_puller, awaits, names_sent, stage_sends, puller_sends, body_taken, is_sending, puller_takes};
ghost use Rattle.rr_gossip.specs.Summary.{summary_text};

use crate::fault::GossipFault;
use crate::frame::{Kind, MAX_FRAMES, content_of, frame_bytes};
use crate::joining::take_page;
use crate::summary::{MAX_ENTRIES, summary_bytes};
use rr_delta::{Name, Target};
use std::alloc::{AllocError, Global};
use std::mem::replace;

/// How far a session has come.
#[derive(Drop)]
pub(crate) enum Stage {
    /// Before the Hello.
    Opening,
    /// Among the Summary frames, with the last name that was sent.
    Listing(Option<Name>),
    /// Among the pages.
    Waiting,
    /// After the last frame.
    Done,
    /// After a fault.
    Failed,
}

/// The frame of these names, or the end if there are none; and the stage after it.
fn listed(alloc: Global, names: Vec<Name>) -> Result<(Stage, Vec<u8>), AllocError>
    requires names_fit { length names.items ≤ MAX_ENTRIES }
    requires fits { length (summary_text (map owned_name names.items)) < MAX_FRAME_LEN }
    ensures { IfOk result (λ x. (x.0, x.1.items) ≡ names_sent (map owned_name names.items)) }
{
    let mut names = names;
    if names.is_empty() {
        return Ok((Stage::Waiting, frame_bytes(alloc, Kind::SummaryEnd, &[])?));
    }
    let body = summary_bytes(alloc, &names)?;
    let frame = frame_bytes(alloc, Kind::Summary, &body)?;
    Ok((Stage::Listing(names.pop()), frame))
}

impl Stage {
    /// Whether a frame of a kind is awaited.
    fn awaits(&self, kind: Kind) -> bool
        ensures { result ≡ awaits self.now kind }
    {
        match kind {
            Kind::Page | Kind::PageEnd => matches!(self, Stage::Waiting),
            Kind::Hello | Kind::Summary | Kind::SummaryEnd => false,
        }
    }

    /// Whether frames are still to be sent.
    fn is_sending(&self) -> bool
        ensures { result ≡ is_sending self.now }
    {
        matches!(self, Stage::Opening | Stage::Listing(_))
    }

    /// The next frame, if one is due.
    fn next_frame<T: Target>(
        &mut self,
        alloc: Global,
        target: &T,
    ) -> Result<Option<Vec<u8>>, GossipFault>
        ensures sent { GivesUnless GossipFault.Memory
            (λ frame. (self.new, option_map (λ bytes. bytes.items) frame)) result
            (stage_sends (T.cells target.now) (T.layout target.now) self.old) }
        ensures memory { result ≡ Err GossipFault.Memory → IsTrue (is_sending self.old) }
    {
        match self {
            Stage::Opening => {
                let own = target.schema().bytes(alloc)?;
                let frame = frame_bytes(alloc, Kind::Hello, &own)?;
                *self = Stage::Listing(None);
                Ok(Some(frame))
            }
            Stage::Listing(after) => {
                let names = target.names_after(alloc, after.as_ref(), MAX_ENTRIES)?;
                let (stage, frame) = listed(alloc, names)?;
                *self = stage;
                Ok(Some(frame))
            }
            Stage::Waiting | Stage::Done => Ok(None),
            Stage::Failed => Err(GossipFault::Failed),
        }
    }
}

impl Stage {
    /// Takes the body of a frame of a kind that is due, and returns whether it was the last.
    #[tactic(auto, unfolding(crate::specs::Puller::end_taken))]
    fn take_body<T: Target>(
        &mut self,
        alloc: Global,
        kind: Kind,
        body: &[u8],
        target: &mut T,
    ) -> Result<bool, GossipFault>
        requires { IsTrue (awaits self.old kind) }
        ensures taken { Takes (T.has_joined target.old target.new) self.new result
            (body_taken (T.layout target.old) kind body.now) }
        ensures memory { NeedsMemoryAfter GossipFault.Memory
            (body_taken (T.layout target.old) kind body.now)
            result }
    {
        match kind {
            Kind::Page => {
                *self = Stage::Waiting;
                take_page(alloc, body, target)
            }
            Kind::PageEnd => {
                if !body.is_empty() {
                    return Err(GossipFault::BadFrame);
                }
                *self = Stage::Done;
                Ok(true)
            }
            Kind::Hello | Kind::Summary | Kind::SummaryEnd => Err(GossipFault::UnexpectedFrame),
        }
    }
}

/// The side of a session that pulls cells.
///
/// It sends the schema of its target and the names of all its cells, and then joins each page that
/// it takes as it comes. After a fault, all calls are refused as `Failed`.
#[derive(Drop)]
pub struct Puller {
    stage: Stage,
    sent: u32,
    taken: u32,
    limit: u32,
}

impl Puller {
    /// A session before its first frame, of at most 16,777,216 frames each way.
    pub fn new() -> Puller
        ensures { result ≡ first_puller MAX_FRAMES }
    {
        Puller::with_limit(MAX_FRAMES)
    }

    /// A session before its first frame, of at most `limit` frames each way.
    pub fn with_limit(limit: u32) -> Puller
        ensures { result ≡ first_puller limit }
    {
        Puller {
            stage: Stage::Opening,
            sent: 0,
            taken: 0,
            limit,
        }
    }

    /// The next frame, whole, if one is due: none after the end of the names. The target is asked
    /// for 256 names at a time, from the last one on.
    ///
    /// Refused as `Failed` after a fault; as `TooManyFrames`, before any name is asked for; and as
    /// `Memory`. After a refusal the session has failed. The cost is that of `Target::names_after`,
    /// plus one linear in the frame.
    #[tactic(auto, unfolding(crate::specs::Puller::puller_sends))]
    pub fn next_frame<T: Target>(
        &mut self,
        alloc: Global,
        target: &T,
    ) -> Result<Option<Vec<u8>>, GossipFault>
        ensures { SendsNext (is_sending self.old.stage) self.old.sent self.old.limit
            (PullerFailed self.new) (λ frame. (self.new, option_map (λ bytes. bytes.items) frame))
            result (puller_sends (T.cells target.now) (T.layout target.now) self.old) }
    {
        let mut stage = replace(&mut self.stage, Stage::Failed);
        if !stage.is_sending() {
            let frame = stage.next_frame(alloc, target)?;
            self.stage = stage;
            return Ok(frame);
        }
        if self.sent >= self.limit {
            return Err(GossipFault::TooManyFrames);
        }
        let frame = stage.next_frame(alloc, target)?;
        self.stage = stage;
        self.sent += 1;
        Ok(frame)
    }

    /// Takes what follows the length of a frame, joins the cells of a page, one by one and in
    /// order, and returns whether the frame was the other side's last.
    ///
    /// Refused, in this order, as `Failed` after a fault; as `FrameTooLong` above 300,000 bytes; as
    /// `BadFrame` if it is of no kind; as `UnexpectedFrame` if that kind isn't due, as none is
    /// until the end of the names is sent; as `TooManyFrames`; and by its body, as `SchemaDiffers`
    /// for a page of another schema and as `BadFrame` for any other. Then nothing is joined.
    /// `Memory` comes only for a good frame; a prefix of the page's cells may then be joined. After
    /// a refusal the session has failed. The cost is linear in the frame, plus that of
    /// `Target::join_cell` for each cell.
    #[tactic(auto, unfolding(crate::specs::Puller::puller_takes))]
    pub fn take<T: Target>(
        &mut self,
        alloc: Global,
        frame: &[u8],
        target: &mut T,
    ) -> Result<bool, GossipFault>
        ensures taken { Takes (T.has_joined target.old target.new) self.new result
            (puller_takes (T.layout target.old) self.old frame.now) }
        ensures memory { NeedsMemoryAfter GossipFault.Memory
            (puller_takes (T.layout target.old) self.old frame.now) result }
        ensures failed { OnErr result (PullerFailed self.new) }
    {
        let mut stage = replace(&mut self.stage, Stage::Failed);
        if matches!(&stage, Stage::Failed) {
            return Err(GossipFault::Failed);
        }
        let (kind, body) = content_of(frame)?;
        if !stage.awaits(kind) {
            return Err(GossipFault::UnexpectedFrame);
        }
        if self.taken >= self.limit {
            return Err(GossipFault::TooManyFrames);
        }
        let last = stage.take_body(alloc, kind, body, target)?;
        self.stage = stage;
        self.taken += 1;
        Ok(last)
    }
}
