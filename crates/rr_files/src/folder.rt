//! Paths in a directory, and what is done with names there.

use rr_directory::FileName;
use std::alloc::{AllocError, Global};
use std::fs::OpenFile;
use std::io::ErrorKind;
use std::rt::Files;
use std::{fs, io};

/// The suffix of a file's name while it is written.
pub(crate) const BESIDE: &str = ".new";

/// The path of a file, with an ending.
fn path_ending(
    alloc: Global,
    folder: &str,
    name: FileName,
    ending: &str,
) -> Result<String, AllocError> {
    let mut path = String::from_str(alloc, folder)?;
    path.push('/')?;
    let name = name.bytes(alloc)?;
    for byte in &name {
        path.push(char::from(*byte))?;
    }
    path.push_str(ending)?;
    Ok(path)
}

/// The path of a file.
pub(crate) fn file_path(alloc: Global, folder: &str, name: FileName) -> Result<String, AllocError> {
    path_ending(alloc, folder, name, "")
}

/// The path of the file beside, to which the content of a file is written before it has its name.
pub(crate) fn beside_path(
    alloc: Global,
    folder: &str,
    name: FileName,
) -> Result<String, AllocError> {
    path_ending(alloc, folder, name, BESIDE)
}

/// Reads a text as a file name followed by this ending.
pub(crate) fn name_before(ending: &str, text: &[u8]) -> Option<FileName> {
    FileName::parse(text.strip_suffix(ending.as_bytes())?)
}

/// Syncs the names in a folder to disk. A file system that does this for no folder is tolerated.
pub(crate) fn sync_folder<R: Files>(rt: &R, alloc: Global, folder: &str) -> io::Result<()> {
    let path = format!(in alloc; "{folder}/.")?;
    let folder = fs::open(rt, path.as_str())?;
    match folder.sync_all() {
        Err(error) if error.kind() == ErrorKind::InvalidInput => Ok(()),
        synced => synced,
    }
}

/// Gives the file beside its name. The file is whole and synced; after a crash it has one of the
/// two names, and once this has succeeded, the right one.
pub(crate) fn give_name<R: Files>(
    rt: &R,
    alloc: Global,
    folder: &str,
    name: FileName,
) -> io::Result<()> {
    let beside = beside_path(alloc, folder, name)?;
    let path = file_path(alloc, folder, name)?;
    fs::rename(rt, beside.as_str(), path.as_str())?;
    sync_folder(rt, alloc, folder)
}
