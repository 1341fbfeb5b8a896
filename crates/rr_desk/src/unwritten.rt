//! What is not written yet.
ghost use Rattle.std.specs.Prelude.{◌≡◌, ◌+◌, OnOk, false, true};
ghost use Rattle.rr_desk.specs.Unwritten.{HasRoomFor, Tracks, TracksTheSame};

use rr_cells::Op;
use rr_changes::{ChangeTracker, op_time};
use rr_schema::Schema;
use std::alloc::{AllocError, Global};

/// The span of the first archive's rows, in nanoseconds.
fn row_time(schema: &Schema) -> u64 {
    // The proof needs that the schema has an archive, which `archives` ensures.
    let _archives = schema.archives();
    u64::from(schema.span(0)) * 1_000_000_000
}

/// What a keeper has not written yet: for each series, the times at which it changed, and how many
/// operations there were.
#[derive(Drop)]
pub struct Unwritten {
    /// The series that changed.
    pub tracker: ChangeTracker,
    /// How many operations there were, including those that changed nothing.
    pub count: u64,
}

impl Unwritten {
    /// Nothing is unwritten. Times in neighbouring rows of the schema's first archive are tracked
    /// together. Takes no memory.
    pub fn new(alloc: Global, schema: &Schema) -> Unwritten
        ensures count { result.count ≡ 0 }
    {
        Unwritten {
            tracker: ChangeTracker::new(alloc, row_time(schema)),
            count: 0,
        }
    }

    /// Makes room for one more operation, on the series with this number.
    #[inline(always)]
    pub fn ready(&mut self, series: usize) -> Result<(), AllocError>
        ensures same { TracksTheSame self.old self.new }
        ensures near { self.new.tracker.near ≡ self.old.tracker.near }
        ensures count { self.new.count ≡ self.old.count }
        ensures room { OnOk result (HasRoomFor self.new series) }
    {
        if self.count == u64::MAX {
            return Err(AllocError);
        }
        self.tracker.ready(series)
    }

    /// Counts an operation on the series with this number, and tracks its time if it changes cells.
    #[inline(always)]
    pub fn add(&mut self, series: usize, op: &Op, changes: bool)
        requires { HasRoomFor self.old series }
        ensures count { self.new.count ≡ self.old.count + 1 }
        ensures tracked { changes ≡ true → Tracks self.old self.new series op.now }
        ensures same { changes ≡ false → TracksTheSame self.old self.new }
    {
        if changes {
            self.tracker.track(series, op_time(op));
        }
        self.count += 1;
    }

    /// Marks all as written. The cost is linear in the series that changed.
    pub fn clear(&mut self)
        ensures count { self.new.count ≡ 0 }
    {
        self.tracker.clear();
        self.count = 0;
    }
}
