//! Why a journal is not read, or a record not written.

ghost use Rattle.std.specs.Prelude.{◌≡◌};

use rr_codec::CodecFault;
use rr_io::stream::ReadFailed;
use std::alloc::{AllocError, AllocFailed};
use std::fmt;
use thiserror::Error;

/// Why bytes are not a journal's: the first fault from left to right.
#[derive(Clone, Copy, Debug, PartialEq, Eq, Error)]
pub enum JournalFault {
    /// The reader failed.
    ReadFailed,
    /// The bytes end before a field does.
    Short,
    /// The first bytes are not those of a journal.
    BadMagic,
    /// The journal is of another version.
    BadVersion,
    /// The values have another number of decimals.
    BadDecimals,
    /// The journal is of another schema.
    SchemaDiffers,
    /// A header's digest doesn't match, or a record's doesn't chain to the record before it.
    BadDigest,
    /// A record states more bytes than it may have, or has more.
    TooLong,
    /// The record is of an unknown kind.
    BadKind,
    /// A key has no bytes or too many, or they are not a key text.
    BadKey,
    /// The schema has no such archive.
    BadArchive,
    /// Packed cells are refused.
    Packed(CodecFault),
    /// The origin is 0.
    BadOrigin,
    /// Bytes follow the last field.
    TrailingBytes,
    /// Memory ran out.
    Memory,
}

impl JournalFault {
    ghost use Rattle.rr_journal.specs.Fault.{journal_fault_name};

    /// The printed name: the variant's, or that of the fault within.
    pub fn name(&self) -> &'static str
        ensures { result.now ≡ journal_fault_name self.now }
    {
        match self {
            JournalFault::ReadFailed => "ReadFailed",
            JournalFault::Short => "Short",
            JournalFault::BadMagic => "BadMagic",
            JournalFault::BadVersion => "BadVersion",
            JournalFault::BadDecimals => "BadDecimals",
            JournalFault::SchemaDiffers => "SchemaDiffers",
            JournalFault::BadDigest => "BadDigest",
            JournalFault::TooLong => "TooLong",
            JournalFault::BadKind => "BadKind",
            JournalFault::BadKey => "BadKey",
            JournalFault::BadArchive => "BadArchive",
            JournalFault::Packed(fault) => fault.name(),
            JournalFault::BadOrigin => "BadOrigin",
            JournalFault::TrailingBytes => "TrailingBytes",
            JournalFault::Memory => "Memory",
        }
    }

    /// What it means.
    fn sentence(&self) -> &'static str {
        match self {
            JournalFault::ReadFailed => "the journal could not be read",
            JournalFault::Short => "the bytes end before a field does",
            JournalFault::BadMagic => "the file is not one of a journal",
            JournalFault::BadVersion => "the journal is of an unknown version",
            JournalFault::BadDecimals => "the journal has values with another number of decimals",
            JournalFault::SchemaDiffers => "the journal is of another schema",
            JournalFault::BadDigest => "a digest of the journal is not that of its bytes",
            JournalFault::TooLong => "a record has more than 1,048,576 bytes",
            JournalFault::BadKind => "a record is of an unknown kind",
            JournalFault::BadKey => "a key is not a key text of at most 1,024 bytes",
            JournalFault::BadArchive => "the schema has no archive of this number",
            JournalFault::Packed(_) => "packed cells are refused",
            JournalFault::BadOrigin => "the origin is 0",
            JournalFault::TrailingBytes => "bytes follow the last field of a record",
            JournalFault::Memory => "out of memory",
        }
    }
}

impl fmt::Display for JournalFault {
    fn fmt<W: fmt::Write>(&self, f: &mut fmt::Formatter<W>) -> fmt::Result {
        f.write_str(self.sentence())
    }
}

impl From<ReadFailed> for JournalFault {
    ghost use Rattle.rr_journal.specs.declared.fault.JournalFault.TheVariants.{ReadFailed};

    ghost from_gives = { λ _ e. e ≡ ReadFailed };

    fn from(_e: ReadFailed) -> JournalFault {
        JournalFault::ReadFailed
    }
}

impl From<AllocError> for JournalFault {
    ghost use Rattle.rr_journal.specs.declared.fault.JournalFault.TheVariants.{Memory};

    ghost from_gives = { λ _ e. e ≡ Memory };

    fn from(_e: AllocError) -> JournalFault {
        JournalFault::Memory
    }
}

impl<T: Drop> From<AllocFailed<T>> for JournalFault {
    ghost use Rattle.rr_journal.specs.declared.fault.JournalFault.TheVariants.{Memory};

    ghost from_gives = { λ _ e. e ≡ Memory };

    fn from(_e: AllocFailed<T>) -> JournalFault {
        JournalFault::Memory
    }
}
