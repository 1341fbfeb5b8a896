//! Why a node can't go on after a batch.

use rr_commit::ChangesFault;
use std::alloc::{AllocError, AllocFailed};
use thiserror::Error;

/// Why a node can't go on after a batch.
#[derive(Clone, Copy, Debug, PartialEq, Eq, Error)]
pub enum BatchFault {
    /// A sync failed, or what was written could not be taken back: what the journal has is known
    /// only once it is opened and read again.
    #[error("the journal could not be synced")]
    NotSynced,
    /// Memory ran out.
    #[error("out of memory")]
    Memory,
}

impl From<AllocError> for BatchFault {
    ghost use Rattle.std.specs.Prelude.{◌≡◌};
    ghost use Rattle.rr_batch.specs.declared.fault.BatchFault.TheVariants.{Memory};

    ghost from_gives = { λ _ e. e ≡ Memory };

    fn from(_e: AllocError) -> BatchFault {
        BatchFault::Memory
    }
}

impl<T: Drop> From<AllocFailed<T>> for BatchFault {
    ghost use Rattle.std.specs.Prelude.{◌≡◌};
    ghost use Rattle.rr_batch.specs.declared.fault.BatchFault.TheVariants.{Memory};

    ghost from_gives = { λ _ e. e ≡ Memory };

    fn from(_e: AllocFailed<T>) -> BatchFault {
        BatchFault::Memory
    }
}
