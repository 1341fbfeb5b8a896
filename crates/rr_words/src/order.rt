//! What a command line asks for.

use rr_line::Precision;
use rr_schema::Origin;

/// What is asked of a data directory.
#[derive(Clone, Copy, Debug, PartialEq, Eq)]
pub enum JournalWord {
    /// Whether a node would start from it.
    Check,
    /// The cells that a node would then hold.
    Cells,
}

/// What the words of a command line ask for.
#[derive(Drop)]
pub enum Order {
    /// To run a script.
    Sim {
        /// The script's file; standard input if there is none.
        file: Option<String>,
    },
    /// To check lines on standard input.
    CheckLines {
        /// The unit of their times.
        precision: Precision,
        /// The time of a line without one, in nanoseconds since the Unix epoch.
        now: i64,
    },
    /// To serve as a node with snapshots.
    Serve {
        /// The file of the configuration.
        config: String,
        /// The origin of the samples that the node writes.
        origin: Origin,
        /// The file of a snapshot to begin with.
        load: Option<String>,
        /// The file that a snapshot is saved to.
        save: Option<String>,
    },
    /// To serve as a node from a directory.
    Node {
        /// The file of the configuration.
        config: String,
        /// The directory that the node keeps its journal in.
        data: String,
        /// The file of a snapshot to begin with.
        load: Option<String>,
    },
    /// To read the data directory of a node.
    Journal {
        /// What is asked of it.
        what: JournalWord,
        /// The directory.
        folder: String,
    },
}
