//! The numbers of a node, for those who watch it.

use crate::node::arrivals::Arrivals;
use crate::node::process::resident;
use crate::node::shared::{Answered, Shared};
use rr_batch::{Pending, Waiting, Writer};
use rr_command_line::VERSION;
use rr_desk::Keeper;
use rr_node::Report;
use rr_packed::PackedArchive;
use rr_schema::Origin;
use rr_web::{
    AnswerCounts, NodeMetrics, ProcessNumbers, RefusedBodies, archive_rows, metrics_text,
};
use std::alloc::{AllocError, Global};
use std::rt::Files;
use std::sync::Wait;
use std::sync::atomic::Ordering;
use std::time::{Clock, Duration, Instant};

/// The fewest seconds between two counts of the cells.
const CELLS_EVERY: u64 = 10;

/// Counting the cells takes time for each series: the next count waits for this many times as long.
const CELLS_SHARE: u32 = 1_000;

/// What a keeper remembers for the numbers of its node.
#[derive(Drop)]
pub(crate) struct Numbers {
    /// The second since 1970 in which the node started, if its clock could be read.
    started: Option<u64>,
    /// The origin of the node's samples, once it is taken.
    origin: Option<Origin>,
    refused_bodies: RefusedBodies,
    failed_appends: u64,
    cells: usize,
    /// When cells were last counted, where the journal ended then, and how long until they are
    /// counted again.
    counted: Option<(Instant, u64)>,
    count_after: Duration,
    /// When the numbers were last posted.
    posted: Option<Instant>,
    /// When the journal was last synced.
    synced: Option<Instant>,
    /// When the last checkpoint ended, and its size in bytes.
    checkpoint: Option<(Instant, u64)>,
}

/// Whether a span of time has passed since a moment.
fn is_past(clock: &impl Clock, since: &Instant, span: Duration) -> bool {
    since.elapsed(clock).unwrap_or(span) >= span
}

/// The milliseconds since a moment.
fn age(clock: &impl Clock, since: &Instant) -> u64 {
    let elapsed = since.elapsed(clock).unwrap_or(Duration::ZERO);
    u64::try_from(elapsed.as_millis()).unwrap_or(u64::MAX)
}

impl Numbers {
    /// The numbers of a node that has just begun, in this second since 1970.
    pub(crate) fn new(started: Option<u64>) -> Numbers {
        Numbers {
            started,
            origin: None,
            refused_bodies: RefusedBodies::new(),
            failed_appends: 0,
            cells: 0,
            counted: None,
            count_after: Duration::ZERO,
            posted: None,
            synced: None,
            checkpoint: None,
        }
    }

    /// Notes that the origin of the node's samples is taken.
    pub(crate) fn has_origin(&mut self, origin: Origin) {
        self.origin = Some(origin);
    }

    /// Counts the bodies of a batch that were refused whole.
    pub(crate) fn count_bodies(&mut self, batch: &[Waiting]) {
        for waiting in batch {
            if let Pending::Decided(reply) = &waiting.pending {
                self.refused_bodies.count(reply);
            }
        }
    }

    /// Counts an append that failed.
    pub(crate) fn append_failed(&mut self) {
        self.failed_appends = self.failed_appends.saturating_add(1);
    }

    /// Notes that the journal is synced now.
    pub(crate) fn is_synced(&mut self, clock: &impl Clock) {
        self.synced = Instant::now(clock).ok();
    }

    /// Notes that a checkpoint has ended, with its size in bytes.
    pub(crate) fn checkpoint_ended(&mut self, clock: &impl Clock, bytes: u64) {
        self.checkpoint = match Instant::now(clock) {
            Ok(now) => Some((now, bytes)),
            Err(_) => None,
        };
    }

    /// Whether to count cells, with the journal ending at an offset: it has gone on since the last
    /// count, and the pause is over.
    fn is_count_due(&self, clock: &impl Clock, offset: u64) -> bool {
        match &self.counted {
            Some((moment, end)) => *end != offset && is_past(clock, moment, self.count_after),
            None => true,
        }
    }

    /// Counts the cells if there may be others, at most every ten seconds and in a thousandth of
    /// the time.
    fn count_cells(&mut self, clock: &impl Clock, keeper: &Keeper<PackedArchive>, offset: u64) {
        if !self.is_count_due(clock, offset) {
            return;
        }
        let began = Instant::now(clock).ok();
        self.cells = keeper.cell_count();
        let took = match &began {
            Some(began) => began.elapsed(clock).unwrap_or(Duration::ZERO),
            None => Duration::ZERO,
        };
        let pause = took.saturating_mul(CELLS_SHARE);
        self.count_after = pause.max(Duration::from_secs(CELLS_EVERY));
        self.counted = match Instant::now(clock) {
            Ok(now) => Some((now, offset)),
            Err(_) => None,
        };
    }

    /// The numbers as they stand.
    fn metrics<R: Files + Wait + Clock>(
        &self,
        rt: &R,
        alloc: Global,
        keeper: &Keeper<PackedArchive>,
        writer: &Writer,
        arrivals: &Arrivals,
        offset: u64,
        shared: &Shared,
    ) -> Result<NodeMetrics, AllocError> {
        let answered: &Answered = &shared.answered;
        let tally: Report = writer.tally();
        Ok(NodeMetrics {
            version: VERSION,
            origin: match self.origin {
                Some(origin) => Some(u64::from(origin.get())),
                None => None,
            },
            process: ProcessNumbers {
                started: self.started,
                resident: resident(rt),
            },
            archives: archive_rows(alloc, keeper.schema())?,
            series: shared.series.load(Ordering::SeqCst),
            cells: self.cells as u64,
            connections: shared.queues.connections() as u64,
            connection_bytes: shared.queues.held() as u64,
            queued_writes: shared.queues.writes.len(rt) as u64,
            answers: AnswerCounts {
                done: answered.done.load(Ordering::SeqCst),
                refused: answered.refused.load(Ordering::SeqCst),
                failed: answered.failed.load(Ordering::SeqCst),
            },
            points: tally.points,
            samples: tally.samples,
            refused: writer.refused().to_lines()?,
            refused_bodies: self.refused_bodies,
            past_horizon: keeper.past_horizon(),
            journal_synced: offset,
            journal_sync_age: match &self.synced {
                Some(synced) => Some(age(rt, synced)),
                None => None,
            },
            failed_appends: self.failed_appends,
            checkpoint_bytes: match &self.checkpoint {
                Some((_, bytes)) => Some(*bytes),
                None => None,
            },
            checkpoint_age: match &self.checkpoint {
                Some((ended, _)) => Some(age(rt, ended)),
                None => None,
            },
            peers: arrivals.numbers(rt)?,
        })
    }

    /// Posts the numbers, at most once a second.
    pub(crate) fn post<R: Files + Wait + Clock>(
        &mut self,
        rt: &R,
        alloc: Global,
        keeper: &Keeper<PackedArchive>,
        writer: &Writer,
        arrivals: &Arrivals,
        offset: u64,
        shared: &Shared,
    ) {
        if let Some(posted) = &self.posted
            && !is_past(rt, posted, Duration::from_secs(1))
        {
            return;
        }
        self.posted = Instant::now(rt).ok();
        self.count_cells(rt, keeper, offset);
        // If there is no memory for them, the last ones stay.
        if let Ok(metrics) = self.metrics(rt, alloc, keeper, writer, arrivals, offset, shared)
            && let Ok(text) = metrics_text(alloc, &metrics)
        {
            shared.metrics.put(rt, text);
        }
    }
}
