//! A directory in memory.
ghost use Rattle.std.specs.Prelude.{◌≡◌, IfOk, IfSome, length, map, option_map};
ghost use Rattle.rr_directory.specs.Memory.{file_named, has_name, known_file};

use crate::directory::{Directory, DirectoryFault};
use crate::name::FileName;
use std::alloc::{AllocError, Global};
use std::marker::Model;

/// A file in memory.
#[derive(Clone, Copy, Debug)]
pub struct MemoryFile<'a> {
    /// Its name.
    pub name: FileName,
    /// Its bytes.
    pub bytes: &'a [u8],
}

/// A directory in memory, which lists its files: no other can be opened.
#[derive(Debug, Drop)]
pub struct MemoryDirectory<'a> {
    files: &'a [MemoryFile<'a>],
}

impl<'a> Model for MemoryDirectory<'a> {
    ghost use Rattle.std.specs.Prelude.{List, map};
    ghost use Rattle.rr_directory.specs.Memory.{KnownFile, known_file};

    ghost Value = { List KnownFile };

    ghost view = { λ d. map known_file d.files.now };
}

/// Whether two names are the same.
fn has_name(name: FileName, other: FileName) -> bool
    ensures { result ≡ has_name name other }
{
    match (name, other) {
        (FileName::Journal(name), FileName::Journal(other)) => name == other,
        (FileName::Checkpoint(name), FileName::Checkpoint(other)) => name == other,
        _ => false,
    }
}

/// The first file with this name.
fn file_named<'a>(files: &[MemoryFile<'a>], name: FileName) -> Option<MemoryFile<'a>>
    ensures { option_map known_file result ≡ file_named (map known_file files.now) name }
{
    for file in files {
        if has_name(file.name, name) {
            return Some(*file);
        }
    }
    None
}

/// The names of files.
fn names_of(alloc: Global, files: &[MemoryFile<'_>]) -> Result<Vec<FileName>, AllocError>
    ensures { IfOk result (λ names. names.items ≡ map (λ f. f.name) files.now) }
{
    files
        .iter()
        .map(|file: &MemoryFile<'_>| file.name)
        .collect(alloc)
}

impl<'a> MemoryDirectory<'a> {
    /// The directory of these files.
    pub fn new(files: &'a [MemoryFile<'a>]) -> MemoryDirectory<'a>
        ensures { result ≡ map known_file files.now }
    {
        MemoryDirectory { files }
    }
}

impl<'a> Directory for MemoryDirectory<'a> {
    ghost use Rattle.std.specs.Prelude.{Some, map};
    ghost use Rattle.rr_directory.specs.Memory.{bytes_named};

    type Input = &'a [u8];

    ghost files = { λ d. Some (map (λ f. f.name) d) };

    ghost bytes = { λ d. Some (bytes_named d) };

    fn names(&self, alloc: Global) -> Result<Vec<FileName>, DirectoryFault> {
        match names_of(alloc, self.files) {
            Ok(names) => Ok(names),
            Err(_) => Err(DirectoryFault::Memory),
        }
    }

    fn open(&self, _alloc: Global, name: FileName) -> Result<&'a [u8], DirectoryFault> {
        match file_named(self.files, name) {
            Some(file) => Ok(file.bytes),
            None => Err(DirectoryFault::ReadFailed),
        }
    }

    fn len(&self, _alloc: Global, name: FileName) -> Result<u64, DirectoryFault> {
        match file_named(self.files, name) {
            Some(file) => Ok(file.bytes.len() as u64),
            None => Err(DirectoryFault::ReadFailed),
        }
    }

    fn tail(&self, alloc: Global, name: FileName, len: u64) -> Result<Vec<u8>, DirectoryFault> {
        let Some(file) = file_named(self.files, name) else {
            return Err(DirectoryFault::ReadFailed);
        };
        let begin = file.bytes.len().saturating_sub(len as usize);
        Ok(Vec::from_slice(alloc, &file.bytes[begin..])?)
    }
}
