//! Why a piece is refused.

ghost use Rattle.std.specs.Prelude.{◌≡◌};

use std::alloc::AllocError;
use std::fmt;
use thiserror::Error;

/// Why a piece is refused.
#[derive(Clone, Copy, Debug, PartialEq, Eq, Error)]
pub enum FeedFault {
    /// The stream had ended.
    Ended,
    /// Memory ran out.
    Memory,
}

impl FeedFault {
    ghost use Rattle.rr_feed.specs.Fault.{feed_fault_name};

    /// The printed name.
    pub fn name(&self) -> &'static str
        ensures { result.now ≡ feed_fault_name self.now }
    {
        match self {
            FeedFault::Ended => "Ended",
            FeedFault::Memory => "Memory",
        }
    }
}

impl fmt::Display for FeedFault {
    fn fmt<W: fmt::Write>(&self, f: &mut fmt::Formatter<W>) -> fmt::Result {
        match self {
            FeedFault::Ended => f.write_str("no bytes may follow the end of the stream"),
            FeedFault::Memory => f.write_str("out of memory"),
        }
    }
}

impl From<AllocError> for FeedFault {
    ghost use Rattle.rr_feed.specs.declared.fault.FeedFault.TheVariants.{Memory};

    ghost from_gives = { λ _ e. e ≡ Memory };

    fn from(_e: AllocError) -> FeedFault {
        FeedFault::Memory
    }
}
