//! What is asked of a directory.
ghost use Rattle.std.specs.Prelude.{◌≡◌};

use crate::name::FileName;
use std::alloc::{AllocError, AllocFailed, Global};
use std::io::Read;
use thiserror::Error;

/// Why a call to a directory failed.
#[derive(Clone, Copy, Debug, PartialEq, Eq, Error)]
pub enum DirectoryFault {
    /// It can't be listed, or a file isn't there or can't be opened.
    #[error("the directory could not be read")]
    ReadFailed,
    /// Memory ran out.
    #[error("out of memory")]
    Memory,
}

impl From<AllocError> for DirectoryFault {
    ghost use Rattle.rr_directory.specs.declared.directory.DirectoryFault.TheVariants.{Memory};

    ghost from_gives = { λ _ e. e ≡ Memory };

    fn from(_e: AllocError) -> DirectoryFault {
        DirectoryFault::Memory
    }
}

impl<T: Drop> From<AllocFailed<T>> for DirectoryFault {
    ghost use Rattle.rr_directory.specs.declared.directory.DirectoryFault.TheVariants.{Memory};

    ghost from_gives = { λ _ e. e ≡ Memory };

    fn from(_e: AllocFailed<T>) -> DirectoryFault {
        DirectoryFault::Memory
    }
}

/// A directory with a node's files, to be read.
///
/// Contracts see it as the names and the bytes of its files, where these are known.
pub trait Directory {
    ghost use Rattle.std.specs.Prelude.{◌≡◌, ℕ, List, Option, Some, IfOk, IfSome, length};
    ghost use Rattle.rr_directory.specs.Tail.{tail_of};
    ghost use Rattle.rr_directory.specs.declared.name.FileName.{FileName};

    /// What a file is read from.
    type Input: Read + Drop;

    ghost files: { Self → Option (List FileName) };

    ghost bytes: { Self → Option (FileName → List ℕ) };

    /// The names of the files that are a node's, in any order.
    fn names(&self, alloc: Global) -> Result<Vec<FileName>, DirectoryFault>
        ensures { IfOk result (λ names. IfSome (files self.now) (λ all. names.items ≡ all)) };

    /// Opens a file, to read it from its beginning.
    fn open(&self, alloc: Global, name: FileName) -> Result<Self::Input, DirectoryFault>
        ensures { IfOk result (λ input. IfSome (bytes self.now) (λ of.
            Self.Input.remaining input ≡ Some (of name))) };

    /// How many bytes a file has.
    fn len(&self, alloc: Global, name: FileName) -> Result<u64, DirectoryFault>
        ensures { IfOk result (λ len. IfSome (bytes self.now) (λ of. len ≡ length (of name))) };

    /// The last `len` bytes of a file, or all if it has fewer.
    fn tail(&self, alloc: Global, name: FileName, len: u64) -> Result<Vec<u8>, DirectoryFault>
        ensures { IfOk result (λ tail. IfSome (bytes self.now) (λ of.
            tail.items ≡ tail_of len (of name))) };
}
