//! A replica from the records of a stream.
ghost use Rattle.std.specs.Prelude.{◌≡◌, Err, IfSome};
ghost use Rattle.rr_io.specs.Counted.{inner_of};
ghost use Rattle.rr_io.specs.Stream.{HasFailed};
ghost use Rattle.rr_replica.specs.ReplicaWithRoom.{replica_state};
ghost use Rattle.rr_recovery.specs.Joining.{JoinsSome};
ghost use Rattle.rr_recovery.specs.Replaying.{Replays};
ghost use Rattle.rr_recovery.specs.Taking.{recovery};

use crate::fault::RecoveryFault;
use crate::found::Found;
use crate::step::step_from;
use crate::taking::take_record;
use rr_archive::Cells;
use rr_io::Counted;
use rr_journal::{Cursor, Step, Stop};
use rr_replica::Replica;
use rr_schema::Schema;
use std::alloc::Global;
use std::io::Read;

/// Reads the records at `place` until none is whole, and takes each: its cells are joined into the
/// replica, in order, and what else it holds is kept in `found`. `place` is then past the last
/// whole record, and the result says why none follows. One record is in memory at a time, and its
/// cells are unpacked one by one.
///
/// The first record that can't be taken is refused before anything after it is read: as `BadRecord`
/// if it means nothing, and as `OriginUsed` if it is of the replica's own origin or has a cell of
/// it. `ReadFailed` comes if a read fails, `Memory` if memory runs out. After a refusal some cells
/// of the journal are joined, under the same schema and origin: the replica and `found` are of no
/// further use. The cost is linear in the bytes, plus that of joining the cells.
pub fn replay<A: Cells, R: Read>(
    alloc: Global,
    input: &mut Counted<R>,
    place: &mut Cursor,
    schema: &Schema,
    replica: &mut Replica<A>,
    found: &mut Found,
) -> Result<Stop, RecoveryFault>
    requires { schema.now ≡ replica.old.schema }
    ensures read { IfSome (R.remaining (inner_of input.old)) (λ bytes.
        Replays place.old place.new (recovery replica.old found.old)
        (recovery replica.new found.new) bytes result) }
    // Whatever the input and the result.
    ensures joins { JoinsSome (replica_state replica.old) (replica_state replica.new) }
    ensures failed { result ≡ Err RecoveryFault.ReadFailed → HasFailed input.old input.new }
{
    for _ in 0..u64::MAX {
        match step_from(alloc, input, place)? {
            Step::Whole(raw) => take_record(alloc, &raw, schema, replica, found)?,
            Step::Stopped(stop) => return Ok(stop),
        }
    }
    // No host reads that many records.
    Err(RecoveryFault::Memory)
}
