//! Why a desk is not opened, or a fetch not answered.

ghost use Rattle.std.specs.Prelude.{◌≡◌};

use std::fmt;
use thiserror::Error;

/// Why a desk is not opened.
#[derive(Clone, Copy, Debug, PartialEq, Eq, Error)]
pub enum OpenFault {
    /// The number of readers isn't from 1 to 16.
    BadCount,
    /// Memory ran out.
    Memory,
}

impl OpenFault {
    ghost use Rattle.rr_desk.specs.Fault.{open_fault_name};

    /// The printed name.
    pub fn name(&self) -> &'static str
        ensures { result.now ≡ open_fault_name self.now }
    {
        match self {
            OpenFault::BadCount => "BadCount",
            OpenFault::Memory => "Memory",
        }
    }
}

impl fmt::Display for OpenFault {
    fn fmt<W: fmt::Write>(&self, f: &mut fmt::Formatter<W>) -> fmt::Result {
        f.write_str(match self {
            OpenFault::BadCount => "a desk has from 1 to 16 readers",
            OpenFault::Memory => "out of memory",
        })
    }
}

/// Why a fetch is not answered.
#[derive(Clone, Copy, Debug, PartialEq, Eq, Error)]
pub enum FetchFault {
    /// The gate said that no answer may be made.
    GateShut,
    /// Memory ran out, or the keeper has closed.
    Memory,
}

impl FetchFault {
    ghost use Rattle.rr_desk.specs.Fault.{fetch_fault_name};

    /// The printed name.
    pub fn name(&self) -> &'static str
        ensures { result.now ≡ fetch_fault_name self.now }
    {
        match self {
            FetchFault::GateShut => "GateShut",
            FetchFault::Memory => "Memory",
        }
    }
}

impl fmt::Display for FetchFault {
    fn fmt<W: fmt::Write>(&self, f: &mut fmt::Formatter<W>) -> fmt::Result {
        f.write_str(match self {
            FetchFault::GateShut => "the gate is shut",
            FetchFault::Memory => "out of memory, or the keeper has closed",
        })
    }
}
