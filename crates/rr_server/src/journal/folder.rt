//! A directory of the host.

use rr_directory::{Directory, DirectoryFault, FileName};
use rr_files::tail_of;
use rr_process::{ToolFault, file_fault};
use std::alloc::{AllocError, Global};
use std::io::{BufReader, ErrorKind};
use std::rt::Files;
use std::{fs, io};

/// A directory of the host, at a path. What can't be read is named on standard error.
#[derive(Drop)]
pub(crate) struct Folder<'a, R> {
    rt: &'a R,
    path: &'a str,
}

impl<'a, R: Files + Eprint> Folder<'a, R> {
    /// The directory at a path.
    pub(crate) fn new(rt: &'a R, path: &'a str) -> Folder<'a, R> {
        Folder { rt, path }
    }

    /// The path of a file.
    fn file_path(&self, alloc: Global, name: FileName) -> Result<String, AllocError> {
        let mut path = String::from_str(alloc, self.path)?;
        path.push('/')?;
        let name = name.bytes(alloc)?;
        for byte in &name {
            path.push(char::from(*byte))?;
        }
        Ok(path)
    }

    /// The fault of a failed call, which is reported.
    fn fault(&self, path: &str, error: &io::Error) -> DirectoryFault {
        match file_fault(self.rt, path, error) {
            ToolFault::Memory => DirectoryFault::Memory,
            _ => DirectoryFault::ReadFailed,
        }
    }
}

impl<'a, R: Files + Eprint> Directory for Folder<'a, R> {
    ghost use Rattle.std.specs.Prelude.{None};

    type Input = BufReader<R::File>;

    ghost files = { λ d. None };

    ghost bytes = { λ d. None };

    fn names(&self, alloc: Global) -> Result<Vec<FileName>, DirectoryFault> {
        let mut names = Vec::new(alloc);
        let entries = match fs::read_dir(&(self.rt, alloc), self.path) {
            Ok(entries) => entries,
            Err(error) => return Err(self.fault(self.path, &error)),
        };
        for entry in entries {
            match entry {
                Ok(entry) => {
                    if let Some(name) = FileName::parse(entry.file_name().as_bytes()) {
                        names.push(name)?;
                    }
                }
                // A name that isn't text isn't one of a node's files.
                Err(error) if error.kind() == ErrorKind::InvalidFilename => (),
                Err(error) => return Err(self.fault(self.path, &error)),
            }
        }
        Ok(names)
    }

    fn open(&self, alloc: Global, name: FileName) -> Result<BufReader<R::File>, DirectoryFault> {
        let path = self.file_path(alloc, name)?;
        match fs::open(self.rt, path.as_str()) {
            Ok(file) => match BufReader::new(alloc, file) {
                Ok(file) => Ok(file),
                Err(_) => Err(DirectoryFault::Memory),
            },
            Err(error) => Err(self.fault(path.as_str(), &error)),
        }
    }

    fn len(&self, alloc: Global, name: FileName) -> Result<u64, DirectoryFault> {
        let path = self.file_path(alloc, name)?;
        match fs::metadata(self.rt, path.as_str()) {
            Ok(found) => Ok(found.len()),
            Err(error) => Err(self.fault(path.as_str(), &error)),
        }
    }

    fn tail(&self, alloc: Global, name: FileName, len: u64) -> Result<Vec<u8>, DirectoryFault> {
        let path = self.file_path(alloc, name)?;
        match tail_of(self.rt, alloc, path.as_str(), len) {
            Ok(tail) => Ok(tail),
            Err(error) => Err(self.fault(path.as_str(), &error)),
        }
    }
}
