//! The side of a session that gives cells.
ghost use Rattle.std.specs.Prelude.{◌≡◌, Err, OnErr, OnOk, IsTrue, false, length};
ghost use Rattle.rr_gossip.specs.Session.{is_giving};
ghost use Rattle.std.specs.Option.{option_map};
ghost use Rattle.rr_text.specs.Results.{GivesUnless, NeedsMemoryAfter};
ghost use Rattle.rr_gossip.specs.declared.frame.TheConstants.{MAX_FRAMES};
ghost use Rattle.rr_gossip.specs.Calls.{SendsNext, TakesFor};
ghost use Rattle.rr_gossip.specs.Giver.{AreFit, GiverFailed, first_giver, has_failed, is_bad_end, is_due, is_listing, names_in, summary_taken, end_taken, body_taken, frame_due, giver_takes, stage_sends, giver_sends};

use crate::fault::GossipFault;
use crate::frame::{Kind, MAX_FRAMES, content_of, frame_bytes};
use crate::names::Names;
use crate::pages::Pages;
use rr_delta::Source;
use rr_schema::Schema;
use std::alloc::Global;
use std::mem::replace;

/// How far a session has come.
#[derive(Drop)]
pub(crate) enum Stage {
    /// Before the Hello.
    Opening,
    /// Among the Summary frames, with the names so far.
    Listing(Names),
    /// Among the pages, with what is still to be sent.
    Giving(Pages),
    /// After the last frame.
    Done,
    /// After a fault.
    Failed,
}

impl Stage {
    /// Whether a frame of a kind is due.
    fn is_due(&self, kind: Kind) -> bool
        ensures { result ≡ is_due self.now kind }
    {
        match kind {
            Kind::Hello => matches!(self, Stage::Opening),
            Kind::Summary | Kind::SummaryEnd => matches!(self, Stage::Listing(_)),
            Kind::Page | Kind::PageEnd => false,
        }
    }

    /// Adds the names of a Summary frame.
    #[tactic(auto, unfolding(crate::specs::Giver::summary_taken))]
    fn take_summary(
        &mut self,
        alloc: Global,
        body: &[u8],
        schema: &Schema,
    ) -> Result<(), GossipFault>
        requires { IsTrue (is_listing self.old) }
        ensures taken { GivesUnless GossipFault.Memory (λ _. self.new) result
            (summary_taken schema.now (names_in self.old) body.now) }
        ensures fit { OnOk result (AreFit self.new) }
    {
        match self {
            Stage::Listing(names) => {
                names.add(alloc, body, schema)?;
                Ok(())
            }
            _ => Err(GossipFault::UnexpectedFrame),
        }
    }

    /// Has the source make the difference against all names, after the last of them.
    #[tactic(auto, unfolding(crate::specs::Giver::end_taken))]
    fn take_end<S: Source>(
        &mut self,
        alloc: Global,
        body: &[u8],
        source: &mut S,
    ) -> Result<(), GossipFault>
        requires { IsTrue (is_listing self.old) }
        ensures takes { TakesFor S.layout S.may_become source.old source.new (λ _. self.new) self.new
            result (end_taken (S.cells source.new) (S.layout source.old) (names_in self.old)
            body.now) }
        ensures memory { result ≡ Err GossipFault.Memory → length body.now ≡ 0 }
    {
        let Stage::Listing(names) = self else {
            return Err(GossipFault::UnexpectedFrame);
        };
        if !body.is_empty() {
            return Err(GossipFault::BadFrame);
        }
        let cells = source.difference(alloc, names.as_slice())?;
        let schema = source.schema().copy(alloc)?;
        *self = Stage::Giving(Pages::new(schema, cells));
        Ok(())
    }

    /// Takes the body of a frame of a kind that is due, and returns whether it was the last. The
    /// body of a Hello must be the bytes of the schema.
    #[tactic(auto, unfolding(crate::specs::Giver::hello_taken))]
    fn take_body<S: Source>(
        &mut self,
        alloc: Global,
        kind: Kind,
        body: &[u8],
        source: &mut S,
    ) -> Result<bool, GossipFault>
        requires { IsTrue (is_due self.old kind) }
        ensures takes { TakesFor S.layout S.may_become source.old source.new
            (λ last. (self.new, last)) self.new result
            (body_taken (S.cells source.new) (S.layout source.old) self.old kind body.now) }
        ensures listing { result ≡ Err GossipFault.Memory → IsTrue (is_listing self.old) }
        ensures no_bad_end { result ≡ Err GossipFault.Memory → is_bad_end kind body.now ≡ false }
    {
        match kind {
            Kind::Hello => {
                if !source.schema().has_bytes(body) {
                    return Err(GossipFault::SchemaDiffers);
                }
                *self = Stage::Listing(Names::new(alloc));
                Ok(false)
            }
            Kind::Summary => {
                self.take_summary(alloc, body, source.schema())?;
                Ok(false)
            }
            Kind::SummaryEnd => {
                self.take_end(alloc, body, source)?;
                Ok(true)
            }
            Kind::Page | Kind::PageEnd => Err(GossipFault::UnexpectedFrame),
        }
    }

    /// Whether frames are still to be sent.
    fn is_giving(&self) -> bool
        ensures { result ≡ is_giving self.now }
    {
        matches!(self, Stage::Giving(_))
    }

    /// The next frame, if one is due.
    fn next_frame(&mut self, alloc: Global) -> Result<Option<Vec<u8>>, GossipFault>
        ensures sent { GivesUnless GossipFault.Memory
            (λ frame. (self.new, option_map (λ bytes. bytes.items) frame)) result
            (stage_sends self.old) }
        ensures memory { result ≡ Err GossipFault.Memory → IsTrue (is_giving self.old) }
    {
        match self {
            Stage::Opening | Stage::Listing(_) | Stage::Done => Ok(None),
            Stage::Failed => Err(GossipFault::Failed),
            Stage::Giving(pages) => {
                let Some(page) = pages.next_page(alloc)? else {
                    *self = Stage::Done;
                    return Ok(Some(frame_bytes(alloc, Kind::PageEnd, &[])?));
                };
                Ok(Some(frame_bytes(alloc, Kind::Page, &page)?))
            }
        }
    }
}

/// The side of a session that gives cells.
///
/// It takes the frames of the other side one after another, and at the last of them has the source
/// make the difference; then it returns one page after another, all of the state that the source
/// had then. After a fault, all calls are refused as `Failed`.
#[derive(Drop)]
pub struct Giver {
    stage: Stage,
    sent: u32,
    taken: u32,
    limit: u32,
}

impl Giver {
    /// A session before its first frame, of at most 16,777,216 frames each way.
    pub fn new() -> Giver
        ensures { result ≡ first_giver MAX_FRAMES }
    {
        Giver::with_limit(MAX_FRAMES)
    }

    /// A session before its first frame, of at most `limit` frames each way.
    pub fn with_limit(limit: u32) -> Giver
        ensures { result ≡ first_giver limit }
    {
        Giver {
            stage: Stage::Opening,
            sent: 0,
            taken: 0,
            limit,
        }
    }

    /// Takes what follows the length of a frame, and returns whether it was the other side's last.
    ///
    /// Refused, in this order, as `Failed` after a fault; as `FrameTooLong` above 300,000 bytes; as
    /// `BadFrame` if it is of no kind; as `UnexpectedFrame` if that kind isn't due; as
    /// `TooManyFrames`; and by its body, as `SchemaDiffers` for a Hello of another schema and as
    /// `BadFrame` for any other. `Memory` hides none of these but a fault of a Summary frame's
    /// body. After a refusal, `Memory` included, the session has failed. The cost is linear in the
    /// frame, plus that of `Source::difference` at the last one.
    #[tactic(auto, unfolding(crate::specs::Giver::giver_takes, crate::specs::Giver::frame_due))]
    pub fn take<S: Source>(
        &mut self,
        alloc: Global,
        frame: &[u8],
        source: &mut S,
    ) -> Result<bool, GossipFault>
        ensures takes { TakesFor S.layout S.may_become source.old source.new
            (λ last. (self.new, last)) self.new.stage result
            (giver_takes (S.cells source.new) (S.layout source.old) self.old frame.now) }
        ensures memory { NeedsMemoryAfter GossipFault.Memory (frame_due self.old frame.now) result }
        ensures listing { result ≡ Err GossipFault.Memory → IsTrue (is_listing self.old.stage) }
        ensures failed { OnErr result (GiverFailed self.new) }
    {
        let mut stage = replace(&mut self.stage, Stage::Failed);
        if matches!(&stage, Stage::Failed) {
            return Err(GossipFault::Failed);
        }
        let (kind, body) = content_of(frame)?;
        if !stage.is_due(kind) {
            return Err(GossipFault::UnexpectedFrame);
        }
        if self.taken >= self.limit {
            return Err(GossipFault::TooManyFrames);
        }
        let last = stage.take_body(alloc, kind, body, source)?;
        self.stage = stage;
        self.taken += 1;
        Ok(last)
    }

    /// The next frame, whole, if one is due: none before the other side's last frame, and none
    /// after the end of the pages.
    ///
    /// Refused as `Failed` after a fault; as `TooManyFrames`, before a frame is made; and as
    /// `Memory`. After a refusal the session has failed. The cost is linear in the frame.
    #[tactic(auto, unfolding(crate::specs::Giver::giver_sends))]
    pub fn next_frame<S: Source>(
        &mut self,
        alloc: Global,
        _source: &mut S,
    ) -> Result<Option<Vec<u8>>, GossipFault>
        ensures sent { SendsNext (is_giving self.old.stage) self.old.sent self.old.limit
            (GiverFailed self.new) (λ frame. (self.new, option_map (λ bytes. bytes.items) frame))
            result (giver_sends self.old) }
        ensures unchanged { _source.new ≡ _source.old }
    {
        let mut stage = replace(&mut self.stage, Stage::Failed);
        if !stage.is_giving() {
            let frame = stage.next_frame(alloc)?;
            self.stage = stage;
            return Ok(frame);
        }
        if self.sent >= self.limit {
            return Err(GossipFault::TooManyFrames);
        }
        let frame = stage.next_frame(alloc)?;
        self.stage = stage;
        self.sent += 1;
        Ok(frame)
    }
}
