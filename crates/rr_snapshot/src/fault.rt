//! Why a snapshot is not written, or not loaded.

ghost use Rattle.std.specs.Prelude.{◌≡◌};

use rr_io::stream::{ReadFailed, WriteFailed};
use rr_page::PageFault;
use std::alloc::{AllocError, AllocFailed};
use std::fmt;
use thiserror::Error;

/// Why a snapshot is not written.
#[derive(Clone, Copy, Debug, PartialEq, Eq, Error)]
pub enum SaveFault {
    /// There are more than 4,294,967,295 cells.
    TooManyCells,
    /// The writer failed.
    WriteFailed,
    /// Memory ran out.
    Memory,
}

impl SaveFault {
    ghost use Rattle.rr_snapshot.specs.Fault.{save_fault_name};

    /// The printed name.
    pub fn name(&self) -> &'static str
        ensures { result.now ≡ save_fault_name self.now }
    {
        match self {
            SaveFault::TooManyCells => "TooManyCells",
            SaveFault::WriteFailed => "WriteFailed",
            SaveFault::Memory => "Memory",
        }
    }

    fn sentence(&self) -> &'static str {
        match self {
            SaveFault::TooManyCells => "a snapshot may have at most 4,294,967,295 cells",
            SaveFault::WriteFailed => "the output could not be written",
            SaveFault::Memory => "out of memory",
        }
    }
}

impl fmt::Display for SaveFault {
    fn fmt<W: fmt::Write>(&self, f: &mut fmt::Formatter<W>) -> fmt::Result {
        f.write_str(self.sentence())
    }
}

impl From<WriteFailed> for SaveFault {
    ghost use Rattle.rr_snapshot.specs.declared.fault.SaveFault.TheVariants.{WriteFailed};

    ghost from_gives = { λ _ e. e ≡ WriteFailed };

    fn from(_e: WriteFailed) -> SaveFault {
        SaveFault::WriteFailed
    }
}

impl From<AllocError> for SaveFault {
    ghost use Rattle.rr_snapshot.specs.declared.fault.SaveFault.TheVariants.{Memory};

    ghost from_gives = { λ _ e. e ≡ Memory };

    fn from(_e: AllocError) -> SaveFault {
        SaveFault::Memory
    }
}

impl<T: Drop> From<AllocFailed<T>> for SaveFault {
    ghost use Rattle.rr_snapshot.specs.declared.fault.SaveFault.TheVariants.{Memory};

    ghost from_gives = { λ _ e. e ≡ Memory };

    fn from(_e: AllocFailed<T>) -> SaveFault {
        SaveFault::Memory
    }
}

/// Why a snapshot is not loaded: the first fault from left to right.
#[derive(Clone, Copy, Debug, PartialEq, Eq, Error)]
pub enum LoadFault {
    /// The reader failed.
    ReadFailed,
    /// Fewer bytes are left than the field has.
    Short,
    /// The first bytes are not those of a snapshot.
    BadMagic,
    /// The snapshot is of another version.
    BadVersion,
    /// The snapshot is of another schema.
    SchemaDiffers,
    /// The origin is 0.
    BadOrigin,
    /// The key has no bytes or too many, or they are not a key text.
    BadKey,
    /// The schema has no such archive.
    BadArchive,
    /// The cell's origin is 0, or its contribution isn't valid in the slot.
    BadContribution,
    /// The cell does not come after the one before it.
    OutOfOrder,
    /// The digest is not that of the bytes before it.
    BadDigest,
    /// Bytes follow the digest.
    TrailingBytes,
    /// The new origin is that of the snapshot, or of one of its cells.
    OriginUsed,
    /// Memory ran out.
    Memory,
}

impl LoadFault {
    ghost use Rattle.rr_snapshot.specs.Fault.{load_fault_name};

    /// The printed name.
    pub fn name(&self) -> &'static str
        ensures { result.now ≡ load_fault_name self.now }
    {
        match self {
            LoadFault::ReadFailed => "ReadFailed",
            LoadFault::Short => "Short",
            LoadFault::BadMagic => "BadMagic",
            LoadFault::BadVersion => "BadVersion",
            LoadFault::SchemaDiffers => "SchemaDiffers",
            LoadFault::BadOrigin => "BadOrigin",
            LoadFault::BadKey => "BadKey",
            LoadFault::BadArchive => "BadArchive",
            LoadFault::BadContribution => "BadContribution",
            LoadFault::OutOfOrder => "OutOfOrder",
            LoadFault::BadDigest => "BadDigest",
            LoadFault::TrailingBytes => "TrailingBytes",
            LoadFault::OriginUsed => "OriginUsed",
            LoadFault::Memory => "Memory",
        }
    }

    fn sentence(&self) -> &'static str {
        match self {
            LoadFault::ReadFailed => "the input could not be read",
            LoadFault::Short => "the input ends before the field does",
            LoadFault::BadMagic => "the input is not a snapshot",
            LoadFault::BadVersion => "the snapshot is of an unknown version",
            LoadFault::SchemaDiffers => "the snapshot is of another schema",
            LoadFault::BadOrigin => "an origin must be from 1 to 65,535",
            LoadFault::BadKey => "the key of the cell is not a key text of at most 1,024 bytes",
            LoadFault::BadArchive => "the schema has no archive of this number",
            LoadFault::BadContribution => "the contribution is not valid in its slot",
            LoadFault::OutOfOrder => "the cell is not after the one before it",
            LoadFault::BadDigest => "the digest is not that of the snapshot",
            LoadFault::TrailingBytes => "bytes follow the digest",
            LoadFault::OriginUsed => "the snapshot has cells of this origin, or was saved under it",
            LoadFault::Memory => "out of memory",
        }
    }
}

impl fmt::Display for LoadFault {
    fn fmt<W: fmt::Write>(&self, f: &mut fmt::Formatter<W>) -> fmt::Result {
        f.write_str(self.sentence())
    }
}

impl From<PageFault> for LoadFault {
    ghost use Rattle.rr_snapshot.specs.Fault.{load_fault};

    ghost from_gives = { λ fault e. e ≡ load_fault fault };

    fn from(fault: PageFault) -> LoadFault {
        match fault {
            PageFault::Short => LoadFault::Short,
            PageFault::BadMagic => LoadFault::BadMagic,
            PageFault::BadVersion => LoadFault::BadVersion,
            PageFault::SchemaDiffers => LoadFault::SchemaDiffers,
            // No field of a snapshot gives this one.
            PageFault::TooManyCells => LoadFault::BadContribution,
            PageFault::BadKey => LoadFault::BadKey,
            PageFault::BadArchive => LoadFault::BadArchive,
            PageFault::BadContribution => LoadFault::BadContribution,
            PageFault::OutOfOrder => LoadFault::OutOfOrder,
            PageFault::TrailingBytes => LoadFault::TrailingBytes,
            PageFault::Memory => LoadFault::Memory,
        }
    }
}

impl From<ReadFailed> for LoadFault {
    ghost use Rattle.rr_snapshot.specs.declared.fault.LoadFault.TheVariants.{ReadFailed};

    ghost from_gives = { λ _ e. e ≡ ReadFailed };

    fn from(_e: ReadFailed) -> LoadFault {
        LoadFault::ReadFailed
    }
}

impl From<AllocError> for LoadFault {
    ghost use Rattle.rr_snapshot.specs.declared.fault.LoadFault.TheVariants.{Memory};

    ghost from_gives = { λ _ e. e ≡ Memory };

    fn from(_e: AllocError) -> LoadFault {
        LoadFault::Memory
    }
}
