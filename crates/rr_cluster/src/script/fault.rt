//! Why a line of a script has no command.

ghost use Rattle.std.specs.Prelude.{◌≡◌};

use thiserror::Error;

/// Why a line of a script has no command.
#[derive(Clone, Copy, Debug, PartialEq, Eq, Error)]
pub enum SyntaxFault {
    /// The line has more bytes than a line may have.
    #[error("the line is longer than 65,536 bytes")]
    LineTooLong,
    /// There is no such command, or it takes a different number of words.
    #[error("there is no such command, or it takes a different number of words")]
    BadCommand,
}

impl SyntaxFault {
    ghost use Rattle.rr_cluster.specs.Fault.{syntax_fault_name};

    /// The printed name.
    pub fn name(&self) -> &'static str
        ensures { result.now ≡ syntax_fault_name self.now }
    {
        match self {
            SyntaxFault::LineTooLong => "LineTooLong",
            SyntaxFault::BadCommand => "BadCommand",
        }
    }
}
