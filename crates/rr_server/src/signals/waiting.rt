//! How visits are waited for.

use super::flag::Flag;
use super::halt::HaltFlag;
use super::start::StartBarrier;

/// How visits are waited for: the first once all threads of the node have begun; each indefinitely,
/// or for one interval; and no longer than until the node's flag is raised. Nothing is known of its
/// calls.
#[derive(Drop)]
pub struct Waiting {
    halt: HaltFlag,
    /// The barrier still to wait at before the first visit.
    start: Option<StartBarrier>,
    interval: Option<Interval>,
}

/// The interval for which a visit is waited for.
#[derive(Drop)]
struct Interval {
    /// Its length in seconds.
    every: u64,
    /// Raised for a visit that brought nothing.
    save_requested: Flag,
}

impl Waiting {
    /// Indefinitely, until the flag is raised.
    pub fn new(halt: HaltFlag) -> Waiting {
        Waiting {
            halt,
            start: None,
            interval: None,
        }
    }

    /// The same, but no visit is given before all threads of the node have begun. If one of them
    /// hasn't within half a second, as when there was no memory for it, the flag is raised.
    pub fn after_start(self, start: StartBarrier) -> Waiting {
        Waiting {
            start: Some(start),
            ..self
        }
    }

    /// The same, but an interval of `every` seconds without a visit counts as a failed visit, and
    /// so still starts a round. The flag is raised for each visit that brings no byte.
    pub fn at_intervals(self, every: u64, save_requested: Flag) -> Waiting {
        Waiting {
            interval: Some(Interval {
                every,
                save_requested,
            }),
            ..self
        }
    }

    /// The flag of the node.
    pub fn halt(&self) -> &HaltFlag {
        &self.halt
    }

    /// Whether no more visits will come.
    pub fn is_over(&self) -> bool {
        self.halt.is_raised()
    }

    /// Whether all threads of the node have begun. If one hasn't in time, the node is halted.
    pub fn has_started(&mut self) -> bool {
        let Some(start) = self.start.take() else {
            return true;
        };
        if !start.wait() {
            self.halt.raise();
            return false;
        }
        true
    }

    /// How many seconds a visit is waited for.
    pub fn seconds(&self) -> u64 {
        match &self.interval {
            Some(interval) => interval.every,
            None => u64::MAX,
        }
    }

    /// Notes that a visit brought no byte.
    pub fn note_empty(&self) {
        if let Some(interval) = &self.interval {
            interval.save_requested.raise();
        }
    }
}
