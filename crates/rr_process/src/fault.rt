//! Why a command ends before it is done.

ghost use Rattle.std.specs.Prelude.{◌≡◌};

use rr_cluster::RunFault;
use rr_io::stream;
use rr_io::stream::ReadFault;
use std::alloc::AllocError;
use thiserror::Error;

/// Why a command ends before it is done.
#[derive(Clone, Copy, Debug, PartialEq, Eq, Error)]
pub enum ToolFault {
    /// A call of the reader failed.
    #[error("the input could not be read")]
    ReadFailed,
    /// A call of the writer failed.
    #[error("the output could not be written")]
    WriteFailed,
    /// The input didn't end within the reads that it may take.
    #[error("the input did not end within the reads that it may take")]
    TooManyReads,
    /// Memory ran out.
    #[error("out of memory")]
    Memory,
}

impl ToolFault {
    ghost use Rattle.rr_process.specs.Fault.{message_of, tool_fault_name};

    /// The printed name.
    pub fn name(&self) -> &'static str
        ensures { result.now ≡ tool_fault_name self.now }
    {
        match self {
            ToolFault::ReadFailed => "ReadFailed",
            ToolFault::WriteFailed => "WriteFailed",
            ToolFault::TooManyReads => "TooManyReads",
            ToolFault::Memory => "Memory",
        }
    }

    /// The program's line for standard error.
    pub fn message(&self) -> &'static str
        ensures { result.now ≡ message_of self.now }
    {
        match self {
            ToolFault::ReadFailed => "rr: read failed",
            ToolFault::WriteFailed => "rr: write failed",
            ToolFault::TooManyReads => "rr: too many reads",
            ToolFault::Memory => "rr: out of memory",
        }
    }
}

impl From<ReadFault> for ToolFault {
    ghost use Rattle.rr_process.specs.Fault.{of_read_fault};

    ghost from_gives = { λ fault e. e ≡ of_read_fault fault };

    fn from(fault: ReadFault) -> ToolFault {
        match fault {
            ReadFault::ReadFailed => ToolFault::ReadFailed,
            ReadFault::TooManyReads => ToolFault::TooManyReads,
            ReadFault::Memory => ToolFault::Memory,
        }
    }
}

impl From<stream::ReadFailed> for ToolFault {
    ghost use Rattle.rr_process.specs.declared.fault.ToolFault.TheVariants.{ReadFailed};

    ghost from_gives = { λ _ e. e ≡ ReadFailed };

    fn from(_failed: stream::ReadFailed) -> ToolFault {
        ToolFault::ReadFailed
    }
}

impl From<stream::WriteFailed> for ToolFault {
    ghost use Rattle.rr_process.specs.declared.fault.ToolFault.TheVariants.{WriteFailed};

    ghost from_gives = { λ _ e. e ≡ WriteFailed };

    fn from(_failed: stream::WriteFailed) -> ToolFault {
        ToolFault::WriteFailed
    }
}

impl From<RunFault> for ToolFault {
    ghost use Rattle.rr_process.specs.declared.fault.ToolFault.TheVariants.{Memory};

    ghost from_gives = { λ _ e. e ≡ Memory };

    fn from(fault: RunFault) -> ToolFault {
        match fault {
            RunFault::Memory => ToolFault::Memory,
        }
    }
}

impl From<AllocError> for ToolFault {
    ghost use Rattle.rr_process.specs.declared.fault.ToolFault.TheVariants.{Memory};

    ghost from_gives = { λ _ e. e ≡ Memory };

    fn from(_e: AllocError) -> ToolFault {
        ToolFault::Memory
    }
}
