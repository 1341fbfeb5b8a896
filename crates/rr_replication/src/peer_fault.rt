//! Why a peer is not followed.

ghost use Rattle.std.specs.Prelude.{◌≡◌};

use crate::fault::PartFault;
use rr_journal::JournalFault;
use std::alloc::{AllocError, AllocFailed};
use std::fmt;
use thiserror::Error;

/// Why a peer is not followed for now.
#[derive(Clone, Copy, Debug, PartialEq, Eq, Error)]
pub enum PeerFault {
    /// It can't be reached.
    BadAddress,
    /// What it sends can't be read, or nothing came for too long.
    ReadFailed,
    /// It can't be asked.
    WriteFailed,
    /// It ended the connection before the end of an answer.
    Ended,
    /// It gives an answer that no node gives.
    BadAnswer,
    /// Its schema differs, or its values have another number of decimals.
    SchemaDiffers,
    /// It has neither the journal from this node's place on nor a checkpoint.
    Gone,
    /// Its checkpoint doesn't end with its end, or has another number of cells than that states.
    NotWhole,
    /// What it gave is refused.
    Part(PartFault),
    /// Memory ran out.
    Memory,
}

impl PeerFault {
    ghost use Rattle.rr_replication.specs.Fault.{peer_fault_name};

    /// The printed name: the variant's, or that of the fault below.
    pub fn name(&self) -> &'static str
        ensures { result.now ≡ peer_fault_name self.now }
    {
        match self {
            PeerFault::BadAddress => "BadAddress",
            PeerFault::ReadFailed => "ReadFailed",
            PeerFault::WriteFailed => "WriteFailed",
            PeerFault::Ended => "Ended",
            PeerFault::BadAnswer => "BadAnswer",
            PeerFault::SchemaDiffers => "SchemaDiffers",
            PeerFault::Gone => "Gone",
            PeerFault::NotWhole => "NotWhole",
            PeerFault::Part(fault) => fault.name(),
            PeerFault::Memory => "Memory",
        }
    }

    /// What it means.
    fn sentence(&self) -> &'static str {
        match self {
            PeerFault::BadAddress => "the peer can't be reached",
            PeerFault::ReadFailed => "the peer's answer can't be read",
            PeerFault::WriteFailed => "the peer can't be asked",
            PeerFault::Ended => "the peer ended the connection before the end of an answer",
            PeerFault::BadAnswer => "the peer answers what no node does",
            PeerFault::SchemaDiffers => "the peer has another schema",
            PeerFault::Gone => "the peer has neither the journal nor a checkpoint",
            PeerFault::NotWhole => "the peer's checkpoint isn't whole",
            PeerFault::Part(_) => "what the peer gave is refused",
            PeerFault::Memory => "out of memory",
        }
    }
}

impl fmt::Display for PeerFault {
    fn fmt<W: fmt::Write>(&self, f: &mut fmt::Formatter<W>) -> fmt::Result {
        f.write_str(self.sentence())
    }
}

impl From<AllocError> for PeerFault {
    ghost use Rattle.rr_replication.specs.declared.peer_fault.PeerFault.TheVariants.{Memory};

    ghost from_gives = { λ _ e. e ≡ Memory };

    fn from(_e: AllocError) -> PeerFault {
        PeerFault::Memory
    }
}

impl<T: Drop> From<AllocFailed<T>> for PeerFault {
    ghost use Rattle.rr_replication.specs.declared.peer_fault.PeerFault.TheVariants.{Memory};

    ghost from_gives = { λ _ e. e ≡ Memory };

    fn from(_e: AllocFailed<T>) -> PeerFault {
        PeerFault::Memory
    }
}

impl From<PartFault> for PeerFault {
    ghost use Rattle.rr_replication.specs.declared.peer_fault.PeerFault.TheVariants.{Part};

    ghost from_gives = { λ fault e. e ≡ Part fault };

    fn from(fault: PartFault) -> PeerFault {
        PeerFault::Part(fault)
    }
}

/// Why the beginning of a checkpoint's file is refused.
pub(crate) fn header_fault(fault: JournalFault) -> PeerFault {
    match fault {
        JournalFault::Memory => PeerFault::Memory,
        JournalFault::SchemaDiffers | JournalFault::BadDecimals => PeerFault::SchemaDiffers,
        _ => PeerFault::BadAnswer,
    }
}

/// The fault of any other status: another schema, or an answer that no node gives.
pub(crate) fn status_fault(status: u16) -> PeerFault {
    match status {
        409 => PeerFault::SchemaDiffers,
        _ => PeerFault::BadAnswer,
    }
}
