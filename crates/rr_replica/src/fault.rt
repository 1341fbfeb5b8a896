//! Why a sample isn't put, a point isn't written, or cells aren't joined.

ghost use Rattle.std.specs.Prelude.{◌≡◌};

use std::alloc::{AllocError, AllocFailed};
use std::fmt;
use thiserror::Error;

/// The printed name of a refusal by the clock.
pub const AHEAD_OF_CLOCK: &str = "AheadOfClock";

/// The printed name of a refusal for want of numbers.
pub const NUMBERS_SPENT: &str = "NumbersSpent";

/// Why a sample isn't put.
#[derive(Clone, Copy, Debug, PartialEq, Eq, Error)]
pub enum PutFault {
    /// The origin has used all its numbers, up to 2^40.
    NumbersSpent,
    /// Memory ran out.
    Memory,
}

impl PutFault {
    ghost use Rattle.rr_replica.specs.Fault.{put_fault_name};

    /// The printed name.
    pub fn name(&self) -> &'static str
        ensures { result.now ≡ put_fault_name self.now }
    {
        match self {
            PutFault::NumbersSpent => NUMBERS_SPENT,
            PutFault::Memory => "Memory",
        }
    }
}

impl fmt::Display for PutFault {
    fn fmt<W: fmt::Write>(&self, f: &mut fmt::Formatter<W>) -> fmt::Result {
        f.write_str(match self {
            PutFault::NumbersSpent => "the origin has used all its numbers",
            PutFault::Memory => "out of memory",
        })
    }
}

impl From<AllocError> for PutFault {
    ghost use Rattle.rr_replica.specs.declared.fault.PutFault.TheVariants.{Memory};

    ghost from_gives = { λ _ e. e ≡ Memory };

    fn from(_e: AllocError) -> PutFault {
        PutFault::Memory
    }
}

impl<T: Drop> From<AllocFailed<T>> for PutFault {
    ghost use Rattle.rr_replica.specs.declared.fault.PutFault.TheVariants.{Memory};

    ghost from_gives = { λ _ e. e ≡ Memory };

    fn from(_e: AllocFailed<T>) -> PutFault {
        PutFault::Memory
    }
}

/// Why a point isn't written whole.
#[derive(Clone, Copy, Debug, PartialEq, Eq, Error)]
pub enum WriteFault {
    /// The point's own time is later than the clock's by more than the lead.
    AheadOfClock,
    /// Fewer numbers are left than the point has fields.
    NumbersSpent,
    /// Memory ran out.
    Memory {
        /// How many fields were written before, from the first on.
        put: u32,
    },
}

impl WriteFault {
    ghost use Rattle.rr_replica.specs.Fault.{write_fault_name};

    /// The printed name.
    pub fn name(&self) -> &'static str
        ensures { result.now ≡ write_fault_name self.now }
    {
        match self {
            WriteFault::AheadOfClock => AHEAD_OF_CLOCK,
            WriteFault::NumbersSpent => NUMBERS_SPENT,
            WriteFault::Memory { .. } => "Memory",
        }
    }
}

impl fmt::Display for WriteFault {
    fn fmt<W: fmt::Write>(&self, f: &mut fmt::Formatter<W>) -> fmt::Result {
        match self {
            WriteFault::AheadOfClock => {
                f.write_str("the time is later than the clock by more than the lead")
            }
            WriteFault::NumbersSpent => {
                f.write_str("the origin has too few numbers left for the fields")
            }
            WriteFault::Memory { put } => {
                write!(f, "memory ran out after {put} of the fields were written")
            }
        }
    }
}

/// Why cells aren't all joined.
#[derive(Clone, Copy, Debug, PartialEq, Eq, Error)]
pub enum JoinFault {
    /// Memory ran out.
    Memory {
        /// How many cells were joined before, from the first on.
        joined: usize,
    },
}

impl JoinFault {
    ghost use Rattle.rr_replica.specs.Fault.{join_fault_name};

    /// The printed name.
    pub fn name(&self) -> &'static str
        ensures { result.now ≡ join_fault_name self.now }
    {
        match self {
            JoinFault::Memory { .. } => "Memory",
        }
    }
}

impl fmt::Display for JoinFault {
    fn fmt<W: fmt::Write>(&self, f: &mut fmt::Formatter<W>) -> fmt::Result {
        match self {
            JoinFault::Memory { joined } => {
                write!(f, "memory ran out after {joined} of the cells were joined")
            }
        }
    }
}
