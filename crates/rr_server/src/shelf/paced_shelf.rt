//! Snapshots at intervals.

use super::round_log::RoundLog;
use crate::signals::Flag;
use rr_host::Pace;
use rr_io::Counted;
use rr_node::{NodeFault, Opening, Report, Shelf};
use rr_snapshot::SaveFault;
use std::rt::Files;
use std::time::{Clock, Instant};

/// A shelf that wants a snapshot at most once an interval, or when a flag was raised, and then
/// hands it to another shelf. After each interval its log says what the rounds did. Each round
/// prints `session: SchemaDiffers` on standard error if another flag was raised. Cells are counted
/// when the log says how many there are; other rounds don't wait for that. Nothing is known of its
/// calls.
#[derive(Drop)]
pub struct PacedShelf<'a, R, S> {
    rt: &'a R,
    shelf: S,
    pace: Pace,
    save_requested: Flag,
    schema_differs: Flag,
    log: RoundLog<'a, R>,
}

impl<'a, R: Files + Eprint + Clock, S> PacedShelf<'a, R, S> {
    /// Hands a snapshot to a shelf once every `every` seconds, or in each round if that is absent.
    /// `save_requested` asks for an early snapshot; `schema_differs` says that a peer of another
    /// schema pulled.
    pub fn new(
        rt: &'a R,
        shelf: S,
        every: Option<u64>,
        save_requested: Flag,
        schema_differs: Flag,
        log: RoundLog<'a, R>,
    ) -> PacedShelf<'a, R, S> {
        PacedShelf {
            rt,
            shelf,
            pace: Pace::new(every),
            save_requested,
            schema_differs,
            log,
        }
    }

    /// Whether a snapshot is wanted now.
    fn is_wanted(&self) -> bool {
        // A snapshot that is due anyway takes the flag down too.
        let is_asked = self.save_requested.take();
        is_asked || self.pace.is_due(self.now())
    }

    /// Whether an interval ends with this round, after which the log says how many cells there are.
    fn is_interval_over(&self) -> bool {
        self.log.says() && (self.save_requested.is_raised() || self.pace.is_due(self.now()))
    }

    /// The time of the monotonic clock, if it can be read.
    fn now(&self) -> Option<Instant> {
        Instant::now(self.rt).ok()
    }
}

impl<R: Files + Eprint + Clock, S: Shelf> Shelf for PacedShelf<'_, R, S> {
    ghost use Rattle.std.specs.Prelude.{[], ◌∷◌, None};
    ghost use Rattle.rr_host.specs.Calls.{Grows};
    ghost use Rattle.rr_host.specs.Streams.{output_of};
    ghost use Rattle.rr_node.specs.Shelf.{counts, put_back};

    type Output = S::Output;

    ghost calls = { λ s. None };

    fn lines_taken(&mut self, report: Option<Report>) {
        if self.schema_differs.take() {
            // If this can't be printed, there is no one to tell.
            let _printed = eprintln!(self.rt; "session: SchemaDiffers");
        }
        self.log.lines_are_taken(report);
        self.shelf.lines_taken(report);
    }

    fn own_origin(&mut self, number: usize) {
        self.shelf.own_origin(number);
    }

    fn peer_failed(&mut self, number: usize, fault: NodeFault) {
        self.shelf.peer_failed(number, fault);
    }

    fn counts_cells(&mut self) -> bool
        ensures { Grows None None (counts result ∷ []) }
    {
        let is_asked = self.shelf.counts_cells();
        is_asked || self.is_interval_over()
    }

    fn pulls_ended(&mut self, cells: Option<usize>) {
        self.log.pulls_are_over(cells);
        self.shelf.pulls_ended(cells);
    }

    fn past_horizon(&mut self, samples: u64) {
        self.log.are_past_horizon(samples);
        self.shelf.past_horizon(samples);
    }

    fn open(&mut self) -> Opening<S::Output> {
        if !self.is_wanted() {
            return Opening::Unwanted;
        }
        let now = self.now();
        self.pace.done(now);
        match self.shelf.open() {
            Opening::Writer(output) => Opening::Writer(output),
            // No writer will be handed back, so the interval is over.
            other => {
                self.log.say();
                other
            }
        }
    }

    fn take_back(&mut self, output: Counted<S::Output>, whole: bool)
        ensures { Grows None None (put_back (output_of S.Output.contents output) whole ∷ []) }
    {
        self.shelf.take_back(output, whole);
        let now = self.now();
        self.pace.done(now);
        self.log.save_is_over();
        self.log.say();
    }

    fn save_failed(&mut self, fault: SaveFault) {
        self.shelf.save_failed(fault);
    }
}
