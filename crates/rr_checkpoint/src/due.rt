//! When a checkpoint is begun.
ghost use Rattle.std.specs.Prelude.{◌<◌, ◌↔◌, IsTrue};

/// The most bytes of the journal for which a checkpoint isn't worth its work: 64 MiB.
const FEW_BYTES: u64 = 67_108_864;

const _: () = prove!(FEW_BYTES == 67_108_864);

/// Whether to begin a checkpoint, by the bytes that the journal has had since the last one and the
/// bytes of that one: the journal must exceed both the checkpoint and 64 MiB. So a start reads at
/// most about twice what the checkpoint has, or 64 MiB more, and the work for checkpoints stays
/// proportional to the journal.
pub fn is_due(journal: u64, checkpoint: u64) -> bool
    ensures { IsTrue result ↔ ((checkpoint < journal) × (FEW_BYTES < journal)) }
{
    journal > checkpoint && journal > FEW_BYTES
}
