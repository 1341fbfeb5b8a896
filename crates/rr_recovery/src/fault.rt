//! Why a journal is not taken into a replica.

ghost use Rattle.std.specs.Prelude.{◌≡◌};

use rr_codec::CodecFault;
use rr_journal::JournalFault;
use std::alloc::{AllocError, AllocFailed};
use std::fmt;
use thiserror::Error;

/// Why a journal is not taken into a replica.
#[derive(Clone, Copy, Debug, PartialEq, Eq, Error)]
pub enum RecoveryFault {
    /// The reader failed.
    ReadFailed,
    /// A whole record means nothing.
    BadRecord(JournalFault),
    /// A record or a cell is of the replica's own origin, under which it is to write.
    OriginUsed,
    /// Memory ran out.
    Memory,
}

impl RecoveryFault {
    ghost use Rattle.rr_recovery.specs.Fault.{recovery_fault_name};

    /// The printed name: the variant's, or that of the fault within.
    pub fn name(&self) -> &'static str
        ensures { result.now ≡ recovery_fault_name self.now }
    {
        match self {
            RecoveryFault::ReadFailed => "ReadFailed",
            RecoveryFault::BadRecord(fault) => fault.name(),
            RecoveryFault::OriginUsed => "OriginUsed",
            RecoveryFault::Memory => "Memory",
        }
    }

    /// What it means.
    fn sentence(&self) -> &'static str {
        match self {
            RecoveryFault::ReadFailed => "the journal could not be read",
            RecoveryFault::BadRecord(_) => "a record of the journal is refused",
            RecoveryFault::OriginUsed => "the origin was used before",
            RecoveryFault::Memory => "out of memory",
        }
    }
}

impl fmt::Display for RecoveryFault {
    fn fmt<W: fmt::Write>(&self, f: &mut fmt::Formatter<W>) -> fmt::Result {
        f.write_str(self.sentence())
    }
}

impl From<AllocError> for RecoveryFault {
    ghost use Rattle.rr_recovery.specs.declared.fault.RecoveryFault.TheVariants.{Memory};

    ghost from_gives = { λ _ e. e ≡ Memory };

    fn from(_e: AllocError) -> RecoveryFault {
        RecoveryFault::Memory
    }
}

impl<T: Drop> From<AllocFailed<T>> for RecoveryFault {
    ghost use Rattle.rr_recovery.specs.declared.fault.RecoveryFault.TheVariants.{Memory};

    ghost from_gives = { λ _ e. e ≡ Memory };

    fn from(_e: AllocFailed<T>) -> RecoveryFault {
        RecoveryFault::Memory
    }
}

impl From<CodecFault> for RecoveryFault {
    ghost use Rattle.rr_journal.specs.declared.fault.JournalFault.TheVariants.{Packed};
    ghost use Rattle.rr_recovery.specs.declared.fault.RecoveryFault.TheVariants.{BadRecord};

    ghost from_gives = { λ fault e. e ≡ BadRecord (Packed fault) };

    fn from(fault: CodecFault) -> RecoveryFault {
        RecoveryFault::BadRecord(JournalFault::Packed(fault))
    }
}
