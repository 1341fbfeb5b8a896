//! Why a checkpoint isn't written.
use rr_io::stream::WriteFailed;
use std::alloc::{AllocError, AllocFailed};
use thiserror::Error;

/// Why a checkpoint isn't written.
#[derive(Clone, Copy, Debug, PartialEq, Eq, Error)]
pub enum CheckpointFault {
    /// The writer failed.
    #[error("the checkpoint could not be written")]
    WriteFailed,
    /// There are 2^64 cells or more.
    #[error("a checkpoint has less than 2^64 cells")]
    TooManyCells,
    /// Memory ran out.
    #[error("out of memory")]
    Memory,
}

impl From<WriteFailed> for CheckpointFault {
    ghost use Rattle.std.specs.Prelude.{◌≡◌};
    ghost use Rattle.rr_checkpoint.specs.declared.fault.CheckpointFault.TheVariants.{WriteFailed};

    ghost from_gives = { λ _ e. e ≡ WriteFailed };

    fn from(_e: WriteFailed) -> CheckpointFault {
        CheckpointFault::WriteFailed
    }
}

impl From<AllocError> for CheckpointFault {
    ghost use Rattle.std.specs.Prelude.{◌≡◌};
    ghost use Rattle.rr_checkpoint.specs.declared.fault.CheckpointFault.TheVariants.{Memory};

    ghost from_gives = { λ _ e. e ≡ Memory };

    fn from(_e: AllocError) -> CheckpointFault {
        CheckpointFault::Memory
    }
}

impl<T: Drop> From<AllocFailed<T>> for CheckpointFault {
    ghost use Rattle.std.specs.Prelude.{◌≡◌};
    ghost use Rattle.rr_checkpoint.specs.declared.fault.CheckpointFault.TheVariants.{Memory};

    ghost from_gives = { λ _ e. e ≡ Memory };

    fn from(_e: AllocFailed<T>) -> CheckpointFault {
        CheckpointFault::Memory
    }
}
