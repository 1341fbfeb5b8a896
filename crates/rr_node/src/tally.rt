//! Counts of what became of line connections.

ghost use Rattle.std.specs.Prelude.{◌≡◌};
ghost use Rattle.rr_node.specs.Tally.{no_tally, tally_more};

use crate::report::Report;

/// Counts of the line connections whose lines were served to the end, and of their lines. Each
/// count saturates.
#[derive(Clone, Copy)]
pub struct Tally {
    /// The connections.
    pub connections: u64,
    /// The points that were written whole.
    pub points: u64,
    /// The samples that were put.
    pub samples: u64,
    /// The lines that were refused.
    pub refused: u64,
}

impl Tally {
    /// The counts of no connections.
    pub fn new() -> Tally
        ensures { result ≡ no_tally }
    {
        Tally {
            connections: 0,
            points: 0,
            samples: 0,
            refused: 0,
        }
    }

    /// Counts a connection by its report.
    pub fn add(&mut self, report: &Report)
        ensures { self.new ≡ tally_more self.old report.now }
    {
        self.connections = self.connections.saturating_add(1);
        self.points = self.points.saturating_add(report.points);
        self.samples = self.samples.saturating_add(report.samples);
        self.refused = self.refused.saturating_add(report.refused);
    }
}
