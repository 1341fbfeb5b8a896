//! Files whose content is replaced whole.

use super::save_file::SaveFile;
use std::alloc::{AllocError, Global};
use std::fs::OpenFile;
use std::io::{BufWriter, ErrorKind};
use std::rt::Files;
use std::{fs, io};

/// The suffix of the file beside, to which content is written before it replaces the last one.
const BESIDE: &str = ".new";

/// A file whose content is written to a file beside, whose name ends in `.new` and which is then
/// renamed. So the file has the last content or the new one, however the process ends.
#[derive(Drop)]
pub(crate) struct Replaced<'a, R> {
    rt: &'a R,
    alloc: Global,
    path: String,
    beside: String,
    folder: String,
}

/// The folder of a file.
fn folder_of(alloc: Global, path: &str) -> Result<String, AllocError> {
    let (folder, _) = path.rsplit_once('/').unwrap_or((".", path));
    format!(in alloc; "{folder}/.")
}

impl<'a, R: Files + Eprint> Replaced<'a, R> {
    /// The file at a path.
    pub(crate) fn new(rt: &'a R, alloc: Global, path: &str) -> Result<Replaced<'a, R>, AllocError> {
        let mut beside = String::from_str(alloc, path)?;
        beside.push_str(BESIDE)?;
        Ok(Replaced {
            rt,
            alloc,
            path: String::from_str(alloc, path)?,
            beside,
            folder: folder_of(alloc, path)?,
        })
    }

    /// Opens the file beside.
    pub(crate) fn create(&self) -> io::Result<SaveFile<R::File>> {
        let file = fs::create(self.rt, self.beside.as_str())?;
        Ok(SaveFile::new(BufWriter::new(self.alloc, file)?))
    }

    /// Finishes the file beside, and replaces the last one with it.
    pub(crate) fn replace(&self, output: BufWriter<R::File>) -> io::Result<()> {
        let file = output.into_inner()?;
        file.sync_all()?;
        drop(file);
        fs::rename(self.rt, self.beside.as_str(), self.path.as_str())
    }

    /// Syncs the file's name to disk, so that it has the new content after a power loss too. A file
    /// system that does this for no folder is tolerated.
    pub(crate) fn sync_folder(&self) -> io::Result<()> {
        let folder = fs::open(self.rt, self.folder.as_str())?;
        match folder.sync_all() {
            Err(error) if error.kind() == ErrorKind::InvalidInput => Ok(()),
            synced => synced,
        }
    }

    /// Removes the file beside, which isn't whole or couldn't replace the last one.
    pub(crate) fn remove_beside(&self) {
        // If it can't be removed, the next one begins it anew.
        let _removed = fs::remove_file(self.rt, self.beside.as_str());
    }

    /// Prints why the file beside isn't written.
    pub(crate) fn print_reason(&self, error: &io::Error) {
        let beside = self.beside.as_str();
        // If this can't be printed, there is no one to tell.
        let _printed = eprintln!(self.rt; "rr: {beside}: {error}");
    }
}
