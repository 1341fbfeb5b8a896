//! Taking the writes of a node's connections.

ghost use Rattle.std.specs.Prelude.{◌≡◌, ◌-◌, IfOk, None, OnOk, Some};
ghost use Rattle.rr_connection.specs.Requests.{request_view};
ghost use Rattle.rr_batch.specs.Answers.{pending_view};

use crate::fault::BatchFault;
use crate::pending::{Pending, Waiting};
use crate::put_off::put_off;
use crate::refusals::RefusalCounts;
use crate::taken::TakenOrigin;
use rr_archive::Cells;
use rr_connection::{Piece, Request};
use rr_desk::Keeper;
use rr_host::Clock;
use rr_line::Precision;
use rr_node::{LineStream, NodeFault, Report, take_text};
use rr_reactor::{Item, Work};
use rr_web::refused_write;
use std::alloc::{AllocError, Global};
use std::collections::BTreeMap;
use std::sync::Wait;

/// How many bytes of one body's refusals are kept: the first ones.
pub const MAX_REFUSALS: usize = 65_536;

const _: () = prove!(MAX_REFUSALS == 65_536);

/// Takes the writes of a node's connections: bodies, whose lines stand alone, and pieces of lines,
/// which continue where the previous piece of the same connection ended.
#[derive(Drop)]
pub struct Writer {
    alloc: Global,
    precision: Precision,
    lead: Option<u64>,
    /// The lines of each connection for lines, by its key, from its first piece on.
    streams: BTreeMap<usize, LineStream>,
    /// What became of the lines of all items.
    tally: Report,
    /// The refused ones among them, by their names.
    refused: RefusalCounts,
}

/// A tally plus the growth of a report from `before` to `after`.
fn sum(tally: Report, before: Report, after: Report) -> Report {
    Report {
        points: more(tally.points, before.points, after.points),
        samples: more(tally.samples, before.samples, after.samples),
        refused: more(tally.refused, before.refused, after.refused),
    }
}

/// A count plus the growth of another one. It saturates.
fn more(count: u64, before: u64, after: u64) -> u64 {
    count.saturating_add(after.saturating_sub(before))
}

/// The report of no lines.
pub(crate) const NONE: Report = Report {
    points: 0,
    samples: 0,
    refused: 0,
};

impl Writer {
    ghost use Rattle.rr_batch.specs.Pieces.{GoesOnWith, KeepsOthers, OfPiece, TookPiece, stream_of};
    ghost use Rattle.rr_batch.specs.Refusals.{CountsRefused};
    ghost use Rattle.rr_batch.specs.Taken.{put_off};
    ghost use Rattle.rr_batch.specs.Taking.{CountsPending, OfRequest, TakesRequest, rules_in};

    /// A writer that has taken no item. The times of lines have this precision, and may be ahead of
    /// the clock by `lead` nanoseconds, or by any number if that is absent.
    pub fn new(alloc: Global, precision: Precision, lead: Option<u64>) -> Writer {
        Writer {
            alloc,
            precision,
            lead,
            streams: BTreeMap::new(alloc),
            tally: NONE,
            refused: RefusalCounts::new(alloc),
        }
    }

    /// What became of the lines of all items since the start.
    pub fn tally(&self) -> Report {
        self.tally
    }

    /// The refused lines of all items since the start, by the names of their faults. Only the first
    /// [`MAX_REFUSALS`] bytes of a body's refusals are kept: its other refused lines count as
    /// `other`.
    pub fn refused(&self) -> &RefusalCounts
        ensures { result.now ≡ self.now.refused }
    {
        &self.refused
    }

    /// Counts lines that changed a report from `before` to `after`, and whose kept refusals are
    /// these.
    fn count(&mut self, before: Report, after: Report, refusals: &[u8]) -> Result<(), AllocError>
        ensures refused { OnOk result (CountsRefused self.old.refused self.new.refused
            refusals.now (after.refused - before.refused)) }
        ensures streams { OnOk result (self.new.streams ≡ self.old.streams) }
    {
        self.tally = sum(self.tally, before, after);
        let refused = after.refused.saturating_sub(before.refused);
        self.refused.add(refusals, refused)
    }

    /// Takes the lines of a request's body, unless the request is refused.
    fn take_request<A: Cells, C: Clock, T: Wait>(
        &mut self,
        request: &Request,
        keeper: &mut Keeper<A>,
        clock: &mut C,
        rt: &T,
    ) -> Result<Pending, BatchFault>
        ensures taken { IfOk result (λ p. TakesRequest self.old.precision (rules_in self.old)
            (request_view request.now) (record {
              before = keeper.old;
              now = keeper.new;
              given = C.given clock.old;
              since = C.given clock.new;
            }) (pending_view p)) }
        ensures counted { IfOk result (λ p.
            CountsPending self.old.refused self.new.refused (pending_view p)) }
    {
        if let Some(reply) = refused_write(self.alloc, request, self.precision)? {
            return Ok(Pending::Decided(reply));
        }
        match take_text(
            self.alloc,
            &request.body,
            MAX_REFUSALS,
            keeper,
            clock,
            self.precision,
            self.lead,
            rt,
        ) {
            Ok(taken) => {
                self.count(NONE, taken.report, &taken.refusals)?;
                Ok(Pending::Body(taken))
            }
            Err(_) => Err(BatchFault::Memory),
        }
    }

    /// Removes and returns the stream that a piece of a connection continues: that of the
    /// connection, or a new one for its first piece.
    fn stream(&mut self, key: usize, is_first: bool) -> LineStream
        ensures goes_on { GoesOnWith self.old key is_first result }
        ensures gone { stream_of self.new key ≡ None }
        ensures others { KeepsOthers self.old self.new key }
        ensures refused { self.new.refused ≡ self.old.refused }
    {
        match self.streams.remove(&key) {
            Some(stream) if !is_first => stream,
            _ => LineStream::new(self.alloc, self.precision, self.lead),
        }
    }

    /// Keeps the stream of a connection until its next piece.
    fn keep(&mut self, key: usize, stream: LineStream) -> Result<(), AllocError>
        ensures kept { OnOk result (stream_of self.new key ≡ Some stream) }
        ensures others { OnOk result (KeepsOthers self.old self.new key) }
        ensures refused { OnOk result (self.new.refused ≡ self.old.refused) }
    {
        self.streams.insert(key, stream)?;
        Ok(())
    }

    /// Takes the lines of a piece of a connection.
    fn take_piece<A: Cells, C: Clock, T: Wait>(
        &mut self,
        key: usize,
        piece: &Piece,
        keeper: &mut Keeper<A>,
        clock: &mut C,
        rt: &T,
    ) -> Result<Pending, BatchFault>
        ensures taken { IfOk result (λ p. TookPiece self.old self.new key piece.now (record {
          before = keeper.old;
          now = keeper.new;
          given = C.given clock.old;
          since = C.given clock.new;
        }) (pending_view p)) }
        ensures counted { IfOk result (λ p.
            CountsPending self.old.refused self.new.refused (pending_view p)) }
    {
        let mut stream = self.stream(key, piece.is_first);
        let before = stream.report();
        let mut refusals = Vec::new(self.alloc);
        match stream.take(&piece.text, usize::MAX, &mut refusals, keeper, clock, rt) {
            Ok(()) => {}
            Err(NodeFault::TooManyReads) => return Ok(Pending::Closed),
            Err(_) => return Err(BatchFault::Memory),
        }
        if !piece.is_last {
            self.count(before, stream.report(), &refusals)?;
            self.keep(key, stream)?;
            return Ok(Pending::Lines {
                refusals,
                report: None,
            });
        }
        match stream.end(usize::MAX, &mut refusals, keeper, clock, rt) {
            Ok(report) => {
                self.count(before, report, &refusals)?;
                Ok(Pending::Lines {
                    refusals,
                    report: Some(report),
                })
            }
            Err(_) => Err(BatchFault::Memory),
        }
    }

    /// What becomes of an item while no origin is taken: none of its lines is. A request is told so,
    /// and to come again; a connection is closed. One that brings no line is answered as ever.
    pub fn put_off(&self, item: &Item) -> Result<Waiting, AllocError>
        ensures key { IfOk result (λ w. w.key ≡ item.now.key) }
        ensures pending { IfOk result (λ w. pending_view w.pending
            ≡ put_off self.now.precision item.now.work) }
    {
        put_off(self.alloc, item, self.precision)
    }

    /// Takes an item: hands the lines of its body or of its piece to the keeper, where they are
    /// pending; the answer to the item waits until they are committed. The keeper's origin must be
    /// the one that is taken. Refused as `Memory`: some lines may then be pending, and the node
    /// can't go on.
    pub fn take<A: Cells, C: Clock, T: Wait>(
        &mut self,
        _taken: TakenOrigin,
        item: Item,
        keeper: &mut Keeper<A>,
        clock: &mut C,
        rt: &T,
    ) -> Result<Waiting, BatchFault>
        ensures key { IfOk result (λ w. w.key ≡ item.key) }
        ensures request { IfOk result (λ w. OfRequest item.work (λ r. TakesRequest
            self.old.precision (rules_in self.old) r (record {
              before = keeper.old;
              now = keeper.new;
              given = C.given clock.old;
              since = C.given clock.new;
            }) (pending_view w.pending))) }
        ensures piece { IfOk result (λ w. OfPiece item.work (λ p. TookPiece self.old self.new item.key
            p (record {
              before = keeper.old;
              now = keeper.new;
              given = C.given clock.old;
              since = C.given clock.new;
            }) (pending_view w.pending))) }
        ensures counted { IfOk result (λ w.
            CountsPending self.old.refused self.new.refused (pending_view w.pending)) }
    {
        let key = item.key;
        let pending = match item.work {
            Work::Request(request) => self.take_request(&request, keeper, clock, rt)?,
            Work::Piece(piece) => self.take_piece(key, &piece, keeper, clock, rt)?,
        };
        Ok(Waiting { key, pending })
    }
}
