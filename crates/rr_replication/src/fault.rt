//! Why a part of a peer's journal is refused.

ghost use Rattle.std.specs.Prelude.{◌≡◌};

use rr_codec::CodecFault;
use rr_journal::JournalFault;
use std::alloc::{AllocError, AllocFailed};
use std::fmt;
use thiserror::Error;

/// Why a part of a peer's journal is refused.
#[derive(Clone, Copy, Debug, PartialEq, Eq, Error)]
pub enum PartFault {
    /// It doesn't chain to what was read before, or within itself: it has bytes but no whole
    /// record, or more bytes after the last one than a record may have.
    Damaged,
    /// A whole record means nothing.
    BadRecord(JournalFault),
    /// Memory ran out.
    Memory,
}

impl PartFault {
    ghost use Rattle.rr_replication.specs.Fault.{part_fault_name};

    /// The printed name: the variant's, or that of the fault below.
    pub fn name(&self) -> &'static str
        ensures { result.now ≡ part_fault_name self.now }
    {
        match self {
            PartFault::Damaged => "Damaged",
            PartFault::BadRecord(fault) => fault.name(),
            PartFault::Memory => "Memory",
        }
    }

    /// What it means.
    fn sentence(&self) -> &'static str {
        match self {
            PartFault::Damaged => "the part has bytes that are no records after those before",
            PartFault::BadRecord(_) => "a record of the part is refused",
            PartFault::Memory => "out of memory",
        }
    }
}

impl fmt::Display for PartFault {
    fn fmt<W: fmt::Write>(&self, f: &mut fmt::Formatter<W>) -> fmt::Result {
        f.write_str(self.sentence())
    }
}

impl From<AllocError> for PartFault {
    ghost use Rattle.rr_replication.specs.declared.fault.PartFault.TheVariants.{Memory};

    ghost from_gives = { λ _ e. e ≡ Memory };

    fn from(_e: AllocError) -> PartFault {
        PartFault::Memory
    }
}

impl<T: Drop> From<AllocFailed<T>> for PartFault {
    ghost use Rattle.rr_replication.specs.declared.fault.PartFault.TheVariants.{Memory};

    ghost from_gives = { λ _ e. e ≡ Memory };

    fn from(_e: AllocFailed<T>) -> PartFault {
        PartFault::Memory
    }
}

impl From<CodecFault> for PartFault {
    ghost use Rattle.rr_journal.specs.declared.fault.JournalFault.TheVariants.{Packed};
    ghost use Rattle.rr_replication.specs.declared.fault.PartFault.TheVariants.{BadRecord};

    ghost from_gives = { λ fault e. e ≡ BadRecord (Packed fault) };

    fn from(fault: CodecFault) -> PartFault {
        PartFault::BadRecord(JournalFault::Packed(fault))
    }
}
