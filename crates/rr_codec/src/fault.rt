//! Why bytes are not packed cells.

ghost use Rattle.std.specs.Prelude.{◌≡◌};

use std::alloc::{AllocError, AllocFailed};
use std::fmt;
use thiserror::Error;

/// Why bytes are not packed cells: the first fault from left to right.
#[derive(Clone, Copy, Debug, PartialEq, Eq, Error)]
pub enum CodecFault {
    /// The bytes end before a number does.
    Short,
    /// A number has more bytes or is greater than its field can be, or isn't spelled in the one way
    /// it may be.
    BadNumber,
    /// The origin is 0.
    BadOrigin,
    /// The contribution isn't valid in its slot.
    BadContribution,
    /// The cell isn't after the one before it.
    OutOfOrder,
    /// Bytes follow the last cell.
    TrailingBytes,
    /// Memory ran out.
    Memory,
}

impl CodecFault {
    ghost use Rattle.rr_codec.specs.Fault.{codec_fault_name};

    /// The printed name.
    pub fn name(&self) -> &'static str
        ensures { result.now ≡ codec_fault_name self.now }
    {
        match self {
            CodecFault::Short => "Short",
            CodecFault::BadNumber => "BadNumber",
            CodecFault::BadOrigin => "BadOrigin",
            CodecFault::BadContribution => "BadContribution",
            CodecFault::OutOfOrder => "OutOfOrder",
            CodecFault::TrailingBytes => "TrailingBytes",
            CodecFault::Memory => "Memory",
        }
    }

    /// What it means.
    fn sentence(&self) -> &'static str {
        match self {
            CodecFault::Short => "the bytes end before a number does",
            CodecFault::BadNumber => "a number is too great for its field, or is spelled otherwise",
            CodecFault::BadOrigin => "the origin is 0",
            CodecFault::BadContribution => "a contribution is not valid in its slot",
            CodecFault::OutOfOrder => "a cell is not after the one before it",
            CodecFault::TrailingBytes => "bytes follow the last cell",
            CodecFault::Memory => "out of memory",
        }
    }
}

impl fmt::Display for CodecFault {
    fn fmt<W: fmt::Write>(&self, f: &mut fmt::Formatter<W>) -> fmt::Result {
        f.write_str(self.sentence())
    }
}

impl From<AllocError> for CodecFault {
    ghost use Rattle.rr_codec.specs.declared.fault.CodecFault.TheVariants.{Memory};

    ghost from_gives = { λ _ e. e ≡ Memory };

    fn from(_e: AllocError) -> CodecFault {
        CodecFault::Memory
    }
}

impl<T: Drop> From<AllocFailed<T>> for CodecFault {
    ghost use Rattle.rr_codec.specs.declared.fault.CodecFault.TheVariants.{Memory};

    ghost from_gives = { λ _ e. e ≡ Memory };

    fn from(_e: AllocFailed<T>) -> CodecFault {
        CodecFault::Memory
    }
}
