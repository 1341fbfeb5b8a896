//! The key of a directory's witnesses.

use crate::directory::DataDirectory;
use crate::folder::sync_folder;
use rr_journal::{KEY_LEN, Key};
use std::alloc::Global;
use std::fs::OpenFile;
use std::io::{Read, Write};
use std::rt::Files;
use std::{fs, io};

/// The name of the file that has it.
const NAME: &str = "key";

/// The key of the witnesses of the directory at a path, if it has one.
pub fn key_in<R: Files>(rt: &R, alloc: Global, path: &str) -> io::Result<Option<Key>> {
    let name = format!(in alloc; "{path}/{NAME}")?;
    if !fs::exists(rt, name.as_str())? {
        return Ok(None);
    }
    let mut bytes = [0u8; KEY_LEN];
    let mut file = fs::open(rt, name.as_str())?;
    file.read_exact(&mut bytes)?;
    Ok(Some(Key { bytes }))
}

impl<'a, R: Files> DataDirectory<'a, R> {
    /// The key of the directory's witnesses; if it has none, this one becomes its key. Once this
    /// succeeds, the key survives a crash.
    pub fn key_or(&self, alloc: Global, fresh: Key) -> io::Result<Key> {
        let (rt, path) = (self.runtime(), self.path());
        if let Some(key) = key_in(rt, alloc, path)? {
            return Ok(key);
        }
        let name = format!(in alloc; "{path}/{NAME}")?;
        let beside = format!(in alloc; "{path}/{NAME}.new")?;
        let mut file = fs::create(rt, beside.as_str())?;
        file.write_all(&fresh.bytes)?;
        file.sync_all()?;
        fs::rename(rt, beside.as_str(), name.as_str())?;
        sync_folder(rt, alloc, path)?;
        Ok(fresh)
    }
}
