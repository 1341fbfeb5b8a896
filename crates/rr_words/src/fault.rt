//! Why words are refused.

ghost use Rattle.std.specs.Prelude.{◌≡◌};

use std::alloc::AllocError;
use thiserror::Error;

/// Why the words of a command line are refused.
#[derive(Debug, Drop, Error)]
pub enum WordsFault {
    /// The words aren't the program's, or ask for its help; with the text for standard error.
    #[error("{0}")]
    Refused(String),
    /// Memory ran out.
    #[error("out of memory")]
    Memory,
}

impl WordsFault {
    ghost use Rattle.rr_words.specs.Fault.{words_fault_name};

    /// The printed name.
    pub fn name(&self) -> &'static str
        ensures { result.now ≡ words_fault_name self.now }
    {
        match self {
            WordsFault::Refused(_) => "Refused",
            WordsFault::Memory => "Memory",
        }
    }
}

impl From<AllocError> for WordsFault {
    ghost use Rattle.rr_words.specs.declared.fault.WordsFault.TheVariants.{Memory};

    ghost from_gives = { λ _ e. e ≡ Memory };

    fn from(_e: AllocError) -> WordsFault {
        WordsFault::Memory
    }
}
