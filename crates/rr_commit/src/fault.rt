//! Why a keeper's changes are not committed.
use rr_journal::CommitFault;
use std::alloc::{AllocError, AllocFailed};
use thiserror::Error;

/// Why a keeper's changes are not committed.
#[derive(Clone, Copy, Debug, PartialEq, Eq, Error)]
pub enum ChangesFault {
    /// They could not be written, and what was written of the last batch is taken back. They can be
    /// committed again.
    #[error("the journal could not be written")]
    NotWritten,
    /// A sync failed, or what was written could not be taken back: the journal must be opened and
    /// read again.
    #[error("the journal could not be synced")]
    NotSynced,
    /// Memory ran out.
    #[error("out of memory")]
    Memory,
}

impl From<CommitFault> for ChangesFault {
    ghost use Rattle.std.specs.Prelude.{◌≡◌};
    ghost use Rattle.rr_commit.specs.Fault.{of_commit};

    ghost from_gives = { λ fault e. e ≡ of_commit fault };

    fn from(fault: CommitFault) -> ChangesFault {
        match fault {
            CommitFault::NotWritten => ChangesFault::NotWritten,
            CommitFault::NotSynced => ChangesFault::NotSynced,
        }
    }
}

impl From<AllocError> for ChangesFault {
    ghost use Rattle.std.specs.Prelude.{◌≡◌};
    ghost use Rattle.rr_commit.specs.declared.fault.ChangesFault.TheVariants.{Memory};

    ghost from_gives = { λ _ e. e ≡ Memory };

    fn from(_e: AllocError) -> ChangesFault {
        ChangesFault::Memory
    }
}

impl<T: Drop> From<AllocFailed<T>> for ChangesFault {
    ghost use Rattle.std.specs.Prelude.{◌≡◌};
    ghost use Rattle.rr_commit.specs.declared.fault.ChangesFault.TheVariants.{Memory};

    ghost from_gives = { λ _ e. e ≡ Memory };

    fn from(_e: AllocFailed<T>) -> ChangesFault {
        ChangesFault::Memory
    }
}
