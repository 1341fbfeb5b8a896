//! Why a session ends early.
ghost use Rattle.std.specs.Prelude.{◌≡◌};

use rr_io::stream::{ReadFailed, WriteFailed};
use rr_page::PageFault;
use std::alloc::{AllocError, AllocFailed};
use std::fmt;
use thiserror::Error;

/// Why a session ends early.
#[derive(Clone, Copy, Debug, PartialEq, Eq, Error)]
pub enum GossipFault {
    /// The reader failed.
    ReadFailed,
    /// The input ended inside the session.
    Ended,
    /// A frame is longer than 300,000 bytes.
    FrameTooLong,
    /// A frame is of no kind, or its body isn't valid for its kind.
    BadFrame,
    /// A frame is of a kind that is not due.
    UnexpectedFrame,
    /// There are more frames than the session may have.
    TooManyFrames,
    /// The other side has another schema.
    SchemaDiffers,
    /// The writer failed.
    WriteFailed,
    /// Memory ran out.
    Memory,
    /// The session has already failed.
    Failed,
}

impl GossipFault {
    ghost use Rattle.rr_gossip.specs.Fault.{gossip_fault_name};

    /// The printed name.
    pub fn name(&self) -> &'static str
        ensures { result.now ≡ gossip_fault_name self.now }
    {
        match self {
            GossipFault::ReadFailed => "ReadFailed",
            GossipFault::Ended => "Ended",
            GossipFault::FrameTooLong => "FrameTooLong",
            GossipFault::BadFrame => "BadFrame",
            GossipFault::UnexpectedFrame => "UnexpectedFrame",
            GossipFault::TooManyFrames => "TooManyFrames",
            GossipFault::SchemaDiffers => "SchemaDiffers",
            GossipFault::WriteFailed => "WriteFailed",
            GossipFault::Memory => "Memory",
            GossipFault::Failed => "Failed",
        }
    }

    fn sentence(&self) -> &'static str {
        match self {
            GossipFault::ReadFailed => "the input could not be read",
            GossipFault::Ended => "the input ended inside the session",
            GossipFault::FrameTooLong => "a frame may have at most 300,000 bytes",
            GossipFault::BadFrame => "the frame is not one of a session",
            GossipFault::UnexpectedFrame => "the frame is not due here",
            GossipFault::TooManyFrames => "the session has too many frames",
            GossipFault::SchemaDiffers => "the other side has another schema",
            GossipFault::WriteFailed => "the output could not be written",
            GossipFault::Memory => "out of memory",
            GossipFault::Failed => "the session failed before",
        }
    }
}

impl fmt::Display for GossipFault {
    fn fmt<W: fmt::Write>(&self, f: &mut fmt::Formatter<W>) -> fmt::Result {
        f.write_str(self.sentence())
    }
}

impl From<ReadFailed> for GossipFault {
    ghost use Rattle.rr_gossip.specs.declared.fault.GossipFault.TheVariants.{ReadFailed};

    ghost from_gives = { λ _ e. e ≡ ReadFailed };

    fn from(_e: ReadFailed) -> GossipFault {
        GossipFault::ReadFailed
    }
}

impl From<WriteFailed> for GossipFault {
    ghost use Rattle.rr_gossip.specs.declared.fault.GossipFault.TheVariants.{WriteFailed};

    ghost from_gives = { λ _ e. e ≡ WriteFailed };

    fn from(_e: WriteFailed) -> GossipFault {
        GossipFault::WriteFailed
    }
}

impl From<PageFault> for GossipFault {
    ghost use Rattle.rr_gossip.specs.Fault.{body_fault};

    ghost from_gives = { λ fault e. e ≡ body_fault fault };

    fn from(fault: PageFault) -> GossipFault {
        match fault {
            PageFault::SchemaDiffers => GossipFault::SchemaDiffers,
            PageFault::Memory => GossipFault::Memory,
            _ => GossipFault::BadFrame,
        }
    }
}

impl From<AllocError> for GossipFault {
    ghost use Rattle.rr_gossip.specs.declared.fault.GossipFault.TheVariants.{Memory};

    ghost from_gives = { λ _ e. e ≡ Memory };

    fn from(_e: AllocError) -> GossipFault {
        GossipFault::Memory
    }
}

impl<T: Drop> From<AllocFailed<T>> for GossipFault {
    ghost use Rattle.rr_gossip.specs.declared.fault.GossipFault.TheVariants.{Memory};

    ghost from_gives = { λ _ e. e ≡ Memory };

    fn from(_e: AllocFailed<T>) -> GossipFault {
        GossipFault::Memory
    }
}
