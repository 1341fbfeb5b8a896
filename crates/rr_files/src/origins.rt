//! The names of the origins that a node has taken.

use crate::directory::DataDirectory;
use crate::folder::sync_folder;
use rr_directory::{origin_name, origin_named};
use rr_schema::Origin;
use std::alloc::{AllocError, Global};
use std::fs::OpenFile;
use std::io::ErrorKind;
use std::rt::Files;
use std::{fs, io};

/// The path of the file that says that an origin is taken.
fn origin_path(alloc: Global, folder: &str, origin: Origin) -> Result<String, AllocError> {
    let mut path = String::from_str(alloc, folder)?;
    path.push('/')?;
    let name = origin_name(alloc, origin)?;
    for byte in &name {
        path.push(char::from(*byte))?;
    }
    Ok(path)
}

impl<R: Files> DataDirectory<'_, R> {
    /// The origins that have names, in any order.
    pub fn origins(&self, alloc: Global) -> io::Result<Vec<Origin>> {
        let mut origins = Vec::new(alloc);
        for entry in fs::read_dir(&(self.runtime(), alloc), self.path())? {
            match entry {
                Ok(entry) => {
                    if let Some(origin) = origin_named(entry.file_name().as_bytes()) {
                        origins.push(origin)?;
                    }
                }
                // A name that isn't text isn't one of a node's files.
                Err(error) if error.kind() == ErrorKind::InvalidFilename => (),
                Err(error) => return Err(error),
            }
        }
        Ok(origins)
    }

    /// A file descriptor to be held, and let go of before [`DataDirectory::name_origin`], so that
    /// connections leave one for it.
    pub fn spare(&self, alloc: Global) -> io::Result<R::File> {
        let path = format!(in alloc; "{}/.", self.path())?;
        fs::open(self.runtime(), path.as_str())
    }

    /// Names an origin by an empty file, which may be there already. Once this succeeds, no crash
    /// takes the name away.
    pub fn name_origin(&self, alloc: Global, origin: Origin) -> io::Result<()> {
        let path = origin_path(alloc, self.path(), origin)?;
        let file = fs::create(self.runtime(), path.as_str())?;
        file.sync_all()?;
        drop(file);
        sync_folder(self.runtime(), alloc, self.path())
    }
}
