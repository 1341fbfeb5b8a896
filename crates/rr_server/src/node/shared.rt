//! What the threads of a node share.

use crate::signals::{Flag, HaltFlag, SharedText};
use rr_journal::Cursor;
use rr_reactor::{Answer, Outcome, Queues};
use std::alloc::{AllocError, Global};
use std::sync::atomic::{AtomicU64, Ordering};
use std::sync::{Arc, Condvar, Mutex, Wait};
use std::time::{Clock, Duration};

/// The stage of the checkpoint that was last asked for.
#[derive(Drop)]
enum Stage {
    /// None is asked for.
    Idle,
    /// One is asked for; after it, the journal is read from this place on.
    Asked(Cursor),
    /// It is being written.
    Begun,
    /// It has ended; this is its size in bytes, or nothing if it failed.
    Ended(Option<u64>),
}

/// Where a keeper asks for checkpoints, one at a time.
#[derive(Drop)]
pub(crate) struct Desired {
    stage: Mutex<Stage>,
    changed: Condvar,
}

impl Desired {
    /// None is asked for.
    fn new() -> Desired {
        Desired {
            stage: Mutex::new(Stage::Idle),
            changed: Condvar::new(),
        }
    }

    /// Asks for one. None may be under way.
    pub(crate) fn ask<R: Wait>(&self, rt: &R, begins: Cursor) {
        *self.stage.lock(rt) = Stage::Asked(begins);
        self.changed.notify_one();
    }

    /// Waits at most this long until one is asked for, and begins it.
    pub(crate) fn begin<R: Wait + Clock>(&self, rt: &R, timeout: Duration) -> Option<Cursor> {
        let (mut stage, _timed_out) = self
            .changed
            .wait_timeout_while(rt, self.stage.lock(rt), timeout, |stage| {
                !matches!(stage, Stage::Asked(_))
            });
        match std::mem::replace(&mut *stage, Stage::Begun) {
            Stage::Asked(begins) => Some(begins),
            other => {
                *stage = other;
                None
            }
        }
    }

    /// Notes how the one begun has ended: its size in bytes, or nothing if it failed.
    pub(crate) fn end<R: Wait>(&self, rt: &R, bytes: Option<u64>) {
        *self.stage.lock(rt) = Stage::Ended(bytes);
    }

    /// How the last one ended, given once.
    pub(crate) fn ended<R: Wait>(&self, rt: &R) -> Option<Option<u64>> {
        let mut stage = self.stage.lock(rt);
        match std::mem::replace(&mut *stage, Stage::Idle) {
            Stage::Ended(bytes) => Some(bytes),
            other => {
                *stage = other;
                None
            }
        }
    }
}

/// How many requests were answered, by the class of their status.
#[derive(Drop)]
pub(crate) struct Answered {
    pub(crate) done: AtomicU64,
    pub(crate) refused: AtomicU64,
    pub(crate) failed: AtomicU64,
}

impl Answered {
    /// Counts an answer.
    pub(crate) fn count(&self, status: u16) {
        let count = match status {
            0..=399 => &self.done,
            400..=499 => &self.refused,
            _ => &self.failed,
        };
        count.fetch_add(1, Ordering::SeqCst);
    }

    /// Counts the answer to an item, if it is a reply.
    pub(crate) fn count_answer(&self, answer: &Answer) {
        if let Outcome::Reply(reply) = &answer.outcome {
            self.count(reply.status);
        }
    }
}

/// What the threads of a node share.
#[derive(Drop)]
pub(crate) struct Shared {
    pub(crate) queues: Arc<Queues>,
    /// The numbers of the node, as its keeper posts them.
    pub(crate) metrics: SharedText,
    /// Whether nothing can be acknowledged now.
    pub(crate) is_failing: Flag,
    /// Whether a peer has samples of this node's own origin.
    pub(crate) is_own_elsewhere: Flag,
    /// Whether no line can be taken now, since the origin can't.
    pub(crate) is_without_origin: Flag,
    pub(crate) answered: Arc<Answered>,
    pub(crate) checkpoints: Arc<Desired>,
    /// How many series there were at the last count.
    pub(crate) series: Arc<AtomicU64>,
    /// The offset up to which the journal is synced.
    pub(crate) journal_end: Arc<AtomicU64>,
    /// Whether a peer with another schema has asked for the journal.
    pub(crate) is_differing: Flag,
    /// Raised when the node ends.
    pub(crate) halt: HaltFlag,
}

impl Shared {
    /// What the threads share of a node whose reactor has these queues.
    pub(crate) fn new(
        alloc: Global,
        queues: Arc<Queues>,
        journal_end: u64,
    ) -> Result<Shared, AllocError> {
        let answered = Answered {
            done: AtomicU64::new(0),
            refused: AtomicU64::new(0),
            failed: AtomicU64::new(0),
        };
        Ok(Shared {
            queues,
            metrics: SharedText::new(alloc)?,
            is_failing: Flag::new(alloc)?,
            is_own_elsewhere: Flag::new(alloc)?,
            is_without_origin: Flag::new(alloc)?,
            answered: Arc::new(alloc, answered)?,
            checkpoints: Arc::new(alloc, Desired::new())?,
            series: Arc::new(alloc, AtomicU64::new(0))?,
            journal_end: Arc::new(alloc, AtomicU64::new(journal_end))?,
            is_differing: Flag::new(alloc)?,
            halt: HaltFlag::new(alloc)?,
        })
    }

    /// Notes how far the journal is synced; peers are given nothing beyond that.
    pub(crate) fn is_synced_to(&self, offset: u64) {
        let end: &AtomicU64 = &self.journal_end;
        end.store(offset, Ordering::SeqCst);
    }

    /// Ends the node.
    pub(crate) fn end(&self) {
        self.halt.raise();
        let queues: &Queues = &self.queues;
        queues.halt();
    }

    /// The same, for one more thread.
    pub(crate) fn share(&self) -> Result<Shared, AllocError> {
        Ok(Shared {
            queues: Arc::try_clone(&self.queues)?,
            metrics: self.metrics.share()?,
            is_failing: self.is_failing.share()?,
            is_own_elsewhere: self.is_own_elsewhere.share()?,
            is_without_origin: self.is_without_origin.share()?,
            answered: Arc::try_clone(&self.answered)?,
            checkpoints: Arc::try_clone(&self.checkpoints)?,
            series: Arc::try_clone(&self.series)?,
            journal_end: Arc::try_clone(&self.journal_end)?,
            is_differing: self.is_differing.share()?,
            halt: self.halt.share()?,
        })
    }
}
