//! Why a directory isn't opened.

use std::{fmt, io};

/// Why a directory isn't opened. It prints as what follows its path in a message.
#[derive(Debug, Drop)]
pub enum OpenFault {
    /// Another process has it.
    InUse,
    /// A call of the system failed, or memory ran out.
    Failed(io::Error),
}

impl fmt::Display for OpenFault {
    fn fmt<W: fmt::Write>(&self, f: &mut fmt::Formatter<W>) -> fmt::Result {
        match self {
            OpenFault::InUse => f.write_str("in use"),
            OpenFault::Failed(error) => fmt::Display::fmt(error, f),
        }
    }
}

impl From<io::Error> for OpenFault {
    ghost use Rattle.std.specs.Prelude.{◌≡◌};
    ghost use Rattle.rr_files.specs.declared.fault.OpenFault.TheVariants.{Failed};

    ghost from_gives = { λ error e. e ≡ Failed error };

    fn from(error: io::Error) -> OpenFault {
        OpenFault::Failed(error)
    }
}
