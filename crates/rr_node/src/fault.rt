//! Why a connection ends early.

ghost use Rattle.std.specs.Prelude.{◌≡◌};

use rr_gossip::GossipFault;
use rr_io::stream;
use rr_io::stream::ReadFault;
use std::alloc::{AllocError, AllocFailed};
use std::fmt;
use thiserror::Error;

/// Why a connection ends early.
#[derive(Clone, Copy, Debug, PartialEq, Eq, Error)]
pub enum NodeFault {
    /// A call of the reader failed.
    ReadFailed,
    /// A call of the writer failed.
    WriteFailed,
    /// The input didn't end within the reads that it may take.
    TooManyReads,
    /// An address can't be reached.
    BadAddress,
    /// A session in which a peer pulls ended early.
    Session(GossipFault),
    /// Memory ran out.
    Memory,
}

impl NodeFault {
    ghost use Rattle.rr_node.specs.Fault.{node_fault_name};

    /// The printed name; for a session, that of its fault.
    pub fn name(&self) -> &'static str
        ensures { result.now ≡ node_fault_name self.now }
    {
        match self {
            NodeFault::ReadFailed => "ReadFailed",
            NodeFault::WriteFailed => "WriteFailed",
            NodeFault::TooManyReads => "TooManyReads",
            NodeFault::BadAddress => "BadAddress",
            NodeFault::Session(fault) => fault.name(),
            NodeFault::Memory => "Memory",
        }
    }
}

impl fmt::Display for NodeFault {
    fn fmt<W: fmt::Write>(&self, f: &mut fmt::Formatter<W>) -> fmt::Result {
        match self {
            NodeFault::ReadFailed => f.write_str("the input could not be read"),
            NodeFault::WriteFailed => f.write_str("the output could not be written"),
            NodeFault::TooManyReads => {
                f.write_str("the input did not end within the reads that it may take")
            }
            NodeFault::BadAddress => f.write_str("the address can't be reached"),
            NodeFault::Session(fault) => fault.fmt(f),
            NodeFault::Memory => f.write_str("out of memory"),
        }
    }
}

impl From<ReadFault> for NodeFault {
    ghost use Rattle.rr_node.specs.Fault.{of_read_fault};

    ghost from_gives = { λ fault e. e ≡ of_read_fault fault };

    fn from(fault: ReadFault) -> NodeFault {
        match fault {
            ReadFault::ReadFailed => NodeFault::ReadFailed,
            ReadFault::TooManyReads => NodeFault::TooManyReads,
            ReadFault::Memory => NodeFault::Memory,
        }
    }
}

impl From<stream::ReadFailed> for NodeFault {
    ghost use Rattle.rr_node.specs.declared.fault.NodeFault.TheVariants.{ReadFailed};

    ghost from_gives = { λ _ e. e ≡ ReadFailed };

    fn from(_failed: stream::ReadFailed) -> NodeFault {
        NodeFault::ReadFailed
    }
}

impl From<stream::WriteFailed> for NodeFault {
    ghost use Rattle.rr_node.specs.declared.fault.NodeFault.TheVariants.{WriteFailed};

    ghost from_gives = { λ _ e. e ≡ WriteFailed };

    fn from(_failed: stream::WriteFailed) -> NodeFault {
        NodeFault::WriteFailed
    }
}

impl From<GossipFault> for NodeFault {
    ghost use Rattle.rr_node.specs.Fault.{of_session_fault};

    ghost from_gives = { λ fault e. e ≡ of_session_fault fault };

    fn from(fault: GossipFault) -> NodeFault {
        match fault {
            GossipFault::Memory => NodeFault::Memory,
            _ => NodeFault::Session(fault),
        }
    }
}

impl From<AllocError> for NodeFault {
    ghost use Rattle.rr_node.specs.declared.fault.NodeFault.TheVariants.{Memory};

    ghost from_gives = { λ _ e. e ≡ Memory };

    fn from(_e: AllocError) -> NodeFault {
        NodeFault::Memory
    }
}

impl<T: Drop> From<AllocFailed<T>> for NodeFault {
    ghost use Rattle.rr_node.specs.declared.fault.NodeFault.TheVariants.{Memory};

    ghost from_gives = { λ _ e. e ≡ Memory };

    fn from(_e: AllocFailed<T>) -> NodeFault {
        NodeFault::Memory
    }
}
