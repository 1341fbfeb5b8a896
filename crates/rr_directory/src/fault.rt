//! Why a directory isn't read.

ghost use Rattle.std.specs.Prelude.{◌≡◌};

use crate::directory::DirectoryFault;
use crate::name::FileName;
use rr_io::stream::ReadFailed;
use rr_journal::JournalFault;
use rr_recovery::RecoveryFault;
use std::alloc::{AllocError, AllocFailed};
use std::fmt;
use thiserror::Error;

/// Why a node doesn't start from a file: the file's first fault.
#[derive(Clone, Copy, Debug, PartialEq, Eq, Error)]
pub enum FileFault {
    /// It can't be opened or read.
    ReadFailed,
    /// Its header is refused.
    BadHeader(JournalFault),
    /// Its name and its header have different offsets.
    Misnamed,
    /// It is of a journal other than that of the files before it.
    OtherJournal,
    /// No file has what the journal has from this offset on: the next one begins after it.
    FileMissing(u64),
    /// It doesn't begin where the file before it ends: at another digest, or before its end.
    NotChained,
    /// A whole record means nothing.
    BadRecord(JournalFault),
    /// A record or a cell is of the origin under which the replica is to write.
    OriginUsed,
    /// It has a torn tail, though it isn't the journal's last file.
    Torn,
    /// What was synced is damaged, from this byte of the file on.
    Damaged {
        /// How many bytes of the file are whole.
        at: u64,
        /// What is wrong with the next record.
        fault: JournalFault,
    },
    /// The checkpoint lacks its end, or has another number of cells than that states.
    NotWhole,
    /// Memory ran out.
    Memory,
}

impl FileFault {
    ghost use Rattle.rr_directory.specs.Fault.{file_fault_name};

    /// The printed name: the variant's, or that of the fault below.
    pub fn name(&self) -> &'static str
        ensures { result.now ≡ file_fault_name self.now }
    {
        match self {
            FileFault::ReadFailed => "ReadFailed",
            FileFault::BadHeader(fault) | FileFault::BadRecord(fault) => fault.name(),
            FileFault::Misnamed => "Misnamed",
            FileFault::OtherJournal => "OtherJournal",
            FileFault::FileMissing(_) => "FileMissing",
            FileFault::NotChained => "NotChained",
            FileFault::OriginUsed => "OriginUsed",
            FileFault::Torn => "Torn",
            FileFault::Damaged { .. } => "Damaged",
            FileFault::NotWhole => "NotWhole",
            FileFault::Memory => "Memory",
        }
    }

    /// What it means.
    fn sentence(&self) -> &'static str {
        match self {
            FileFault::ReadFailed => "the file could not be read",
            FileFault::BadHeader(_) => "the header of the file is refused",
            FileFault::Misnamed => "the name of the file has another offset than its header",
            FileFault::OtherJournal => "the file is of another journal",
            FileFault::FileMissing(_) => "a file of the journal is missing before this one",
            FileFault::NotChained => "the file doesn't begin where the one before it ends",
            FileFault::BadRecord(_) => "a record of the file is refused",
            FileFault::OriginUsed => "the origin was used before",
            FileFault::Torn => "the file has a torn tail, though another one follows it",
            FileFault::Damaged { .. } => "the file is damaged",
            FileFault::NotWhole => "the checkpoint isn't whole",
            FileFault::Memory => "out of memory",
        }
    }
}

impl fmt::Display for FileFault {
    fn fmt<W: fmt::Write>(&self, f: &mut fmt::Formatter<W>) -> fmt::Result {
        f.write_str(self.sentence())
    }
}

impl From<DirectoryFault> for FileFault {
    ghost use Rattle.rr_directory.specs.Fault.{of_directory};

    ghost from_gives = { λ fault e. e ≡ of_directory fault };

    fn from(fault: DirectoryFault) -> FileFault {
        match fault {
            DirectoryFault::ReadFailed => FileFault::ReadFailed,
            DirectoryFault::Memory => FileFault::Memory,
        }
    }
}

impl From<ReadFailed> for FileFault {
    ghost use Rattle.rr_directory.specs.declared.fault.FileFault.TheVariants.{ReadFailed};

    ghost from_gives = { λ _ e. e ≡ ReadFailed };

    fn from(_e: ReadFailed) -> FileFault {
        FileFault::ReadFailed
    }
}

impl From<AllocError> for FileFault {
    ghost use Rattle.rr_directory.specs.declared.fault.FileFault.TheVariants.{Memory};

    ghost from_gives = { λ _ e. e ≡ Memory };

    fn from(_e: AllocError) -> FileFault {
        FileFault::Memory
    }
}

impl<T: Drop> From<AllocFailed<T>> for FileFault {
    ghost use Rattle.rr_directory.specs.declared.fault.FileFault.TheVariants.{Memory};

    ghost from_gives = { λ _ e. e ≡ Memory };

    fn from(_e: AllocFailed<T>) -> FileFault {
        FileFault::Memory
    }
}

impl From<RecoveryFault> for FileFault {
    ghost use Rattle.rr_directory.specs.Fault.{of_recovery};

    ghost from_gives = { λ fault e. e ≡ of_recovery fault };

    fn from(fault: RecoveryFault) -> FileFault {
        match fault {
            RecoveryFault::ReadFailed => FileFault::ReadFailed,
            RecoveryFault::BadRecord(fault) => FileFault::BadRecord(fault),
            RecoveryFault::OriginUsed => FileFault::OriginUsed,
            RecoveryFault::Memory => FileFault::Memory,
        }
    }
}

/// The first file that a node doesn't start from, and why.
#[derive(Clone, Copy, Debug, PartialEq, Eq)]
pub struct Refusal {
    /// Its name.
    pub file: FileName,
    /// Why.
    pub fault: FileFault,
}
