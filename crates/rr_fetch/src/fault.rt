//! Why a request is refused, and why an answer could not be written.

ghost use Rattle.std.specs.Prelude.{◌≡◌};

use rr_io::stream::WriteFailed;
use std::alloc::{AllocError, AllocFailed};
use thiserror::Error;

/// Why a request is refused.
#[derive(Clone, Copy, Debug, PartialEq, Eq, Error)]
pub enum RequestFault {
    /// There are fewer than five words.
    #[error("a request has five words: CF RESOLUTION START END KEY")]
    BadCommand,
    /// The first word is not the name of a consolidation function.
    #[error("the function is not AVERAGE, MIN, MAX or LAST")]
    BadCf,
    /// The resolution, the start or the end is not a number, or is out of its range.
    #[error("the resolution, start or end is not a number, or is out of its range")]
    BadNumber,
    /// What follows the four words is not a key text.
    #[error("the key is not a valid key text")]
    BadKey,
    /// The start is not before the end.
    #[error("the start is not before the end")]
    EmptyRange,
    /// There are more rows than a fetch may have.
    #[error("the range has more than 100,000 rows: ask for a shorter one, or a coarser resolution")]
    TooManyRows,
    /// Memory ran out.
    #[error("out of memory")]
    Memory,
}

impl RequestFault {
    ghost use Rattle.rr_fetch.specs.Fault.{request_fault_name};

    /// The printed name.
    pub fn name(&self) -> &'static str
        ensures { result.now ≡ request_fault_name self.now }
    {
        match self {
            RequestFault::BadCommand => "BadCommand",
            RequestFault::BadCf => "BadCf",
            RequestFault::BadNumber => "BadNumber",
            RequestFault::BadKey => "BadKey",
            RequestFault::EmptyRange => "EmptyRange",
            RequestFault::TooManyRows => "TooManyRows",
            RequestFault::Memory => "Memory",
        }
    }
}

/// Why an answer could not be written whole.
#[derive(Clone, Copy, Debug, PartialEq, Eq, Error)]
pub enum AnswerFault {
    /// Memory ran out.
    #[error("out of memory")]
    Memory,
    /// The writer failed, or took nothing.
    #[error("the answer could not be written")]
    WriteFailed,
}

impl AnswerFault {
    ghost use Rattle.rr_fetch.specs.Fault.{answer_fault_name};

    /// The printed name.
    pub fn name(&self) -> &'static str
        ensures { result.now ≡ answer_fault_name self.now }
    {
        match self {
            AnswerFault::Memory => "Memory",
            AnswerFault::WriteFailed => "WriteFailed",
        }
    }
}

impl From<AllocError> for AnswerFault {
    ghost use Rattle.rr_fetch.specs.declared.fault.AnswerFault.TheVariants.{Memory};

    ghost from_gives = { λ _ e. e ≡ Memory };

    fn from(_e: AllocError) -> AnswerFault {
        AnswerFault::Memory
    }
}

impl<T: Drop> From<AllocFailed<T>> for AnswerFault {
    ghost use Rattle.rr_fetch.specs.declared.fault.AnswerFault.TheVariants.{Memory};

    ghost from_gives = { λ _ e. e ≡ Memory };

    fn from(_e: AllocFailed<T>) -> AnswerFault {
        AnswerFault::Memory
    }
}

impl From<WriteFailed> for AnswerFault {
    ghost use Rattle.rr_fetch.specs.declared.fault.AnswerFault.TheVariants.{WriteFailed};

    ghost from_gives = { λ _ e. e ≡ WriteFailed };

    fn from(_e: WriteFailed) -> AnswerFault {
        AnswerFault::WriteFailed
    }
}
