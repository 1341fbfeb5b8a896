//! The time of an operation.
ghost use Rattle.std.specs.Prelude.{◌≡◌};
ghost use Rattle.rr_changes.specs.Updates.{op_time as time_of};

use rr_cells::Op;

/// The time, in nanoseconds since the Unix epoch, in whose slots an operation changes cells: that
/// of its sample, or of the last sample in its cell.
pub fn op_time(op: &Op) -> i64
    ensures { result ≡ time_of op.now }
{
    match op {
        Op::Put(sample) => sample.time,
        Op::Join(cell) => cell.contribution.last_time,
    }
}
