//! Records from a stream, with a recovery's faults.
ghost use Rattle.std.specs.Prelude.{◌≡◌, ◌⊎◌, ◌^◌, ◌<◌, Err, IfErr};
ghost use Rattle.rr_io.specs.Counted.{inner_of};
ghost use Rattle.rr_io.specs.Stream.{HasFailed, KeepsFailures, ReadsSome};
ghost use Rattle.rr_journal.specs.Stream.{IsStreamFault, MovesBy, StepsTo};

use crate::fault::RecoveryFault;
use rr_io::Counted;
use rr_journal::{Cursor, JournalFault, Step, read_record};
use std::alloc::Global;
use std::io::Read;

/// The fault of a stream, as a recovery's.
fn stream_fault(fault: JournalFault) -> RecoveryFault
    requires { IsStreamFault fault }
    ensures faults { (result ≡ RecoveryFault.ReadFailed) ⊎ (result ≡ RecoveryFault.Memory) }
    ensures failed { result ≡ RecoveryFault.ReadFailed → fault ≡ JournalFault.ReadFailed }
{
    if fault == JournalFault::ReadFailed {
        RecoveryFault::ReadFailed
    } else {
        RecoveryFault::Memory
    }
}

/// Reads the record at `place`, and moves `place` past it.
pub(crate) fn step_from<R: Read>(
    alloc: Global,
    input: &mut Counted<R>,
    place: &mut Cursor,
) -> Result<Step, RecoveryFault>
    ensures read { StepsTo place.old.digest (R.remaining (inner_of input.old))
        (R.remaining (inner_of input.new)) result }
    ensures moves { MovesBy place.old place.new result }
    ensures fits { place.new.offset < 2 ^ 64 }
    ensures prefix { ReadsSome R.remaining input.old input.new }
    ensures failures_never_fall { KeepsFailures input.old input.new }
    ensures failed { result ≡ Err RecoveryFault.ReadFailed → HasFailed input.old input.new }
    ensures faults { IfErr result (λ fault. (fault ≡ RecoveryFault.ReadFailed)
        ⊎ (fault ≡ RecoveryFault.Memory)) }
{
    let step = read_record(alloc, input, place);
    // The proof needs that the offset is one of 64 bits.
    let _offset = place.offset;
    match step {
        Ok(step) => Ok(step),
        Err(fault) => Err(stream_fault(fault)),
    }
}
