//! How a run of the program ends.

ghost use Rattle.std.specs.Prelude.{◌≡◌};

use crate::fault::ToolFault;
use rr_words::WordsFault;
use std::io;

/// How a run of the program ends.
#[derive(Drop)]
pub enum Ending {
    /// The order is obeyed.
    Done,
    /// The order is obeyed, and lines were refused.
    LinesRefused,
    /// A node wouldn't start from the directory.
    DirectoryRefused,
    /// The command line is refused; with the text for standard error.
    WordsRefused(String),
    /// The configuration of a node is refused; with the name of its fault.
    ConfigRefused(&'static str),
    /// The snapshot that a node was to begin with is refused; with the name of its fault.
    LoadRefused(&'static str),
    /// An address can't be listened on.
    BadAddress,
    /// A node can't start or go on, for a reason that was reported.
    Stopped,
    /// The order can't be obeyed.
    Failed(ToolFault),
}

impl Ending {
    ghost use Rattle.rr_process.specs.Ending.{ending_of_lines, status_of};

    /// The ending after lines, by how many were refused.
    pub fn of_lines(refused: u64) -> Ending
        ensures { result ≡ ending_of_lines refused }
    {
        if refused == 0 {
            Ending::Done
        } else {
            Ending::LinesRefused
        }
    }

    /// The exit status of the process.
    pub fn status(&self) -> u8
        ensures { result ≡ status_of self.now }
    {
        match self {
            Ending::Done => 0,
            Ending::LinesRefused | Ending::DirectoryRefused => 1,
            Ending::WordsRefused(_) | Ending::ConfigRefused(_) | Ending::LoadRefused(_) => 2,
            Ending::BadAddress | Ending::Stopped | Ending::Failed(_) => 3,
        }
    }

    /// Prints on standard error why the order isn't obeyed; nothing if it is, or if what it ended
    /// on was told already.
    pub fn print(&self, rt: &impl Eprint) -> io::Result<()> {
        match self {
            Ending::Done | Ending::LinesRefused | Ending::DirectoryRefused | Ending::Stopped => {
                Ok(())
            }
            Ending::WordsRefused(text) => rt.eprint(text),
            Ending::ConfigRefused(name) => eprintln!(rt; "config: {name}"),
            Ending::LoadRefused(name) => eprintln!(rt; "load: {name}"),
            Ending::BadAddress => rt.eprintln("rr: bad address"),
            Ending::Failed(fault) => rt.eprintln(fault.message()),
        }
    }
}

impl From<WordsFault> for Ending {
    ghost use Rattle.rr_process.specs.Ending.{of_words_fault};

    ghost from_gives = { λ fault e. e ≡ of_words_fault fault };

    fn from(fault: WordsFault) -> Ending {
        match fault {
            WordsFault::Refused(text) => Ending::WordsRefused(text),
            WordsFault::Memory => Ending::Failed(ToolFault::Memory),
        }
    }
}
