//! The data directory of a running node.

use crate::fault::OpenFault;
use crate::folder::{BESIDE, beside_path, file_path, give_name, name_before, sync_folder};
use crate::journal_file::JournalFile;
use crate::lock::TryLock;
use crate::tail::tail_of;
use rr_directory::{Directory, DirectoryFault, FileName};
use rr_journal::{Cursor, Key, header_bytes};
use rr_schema::Schema;
use std::alloc::Global;
use std::fs::{OpenFile, OpenOptions};
use std::io::{BufReader, BufWriter, ErrorKind, Seek, SeekFrom, Write};
use std::rt::Files;
use std::{fs, io};

/// The file that is locked.
const LOCK: &str = "lock";

/// How many bytes of a checkpoint are gathered for one write call.
const PIECE: usize = 65_536;

/// The data directory of a node.
#[derive(Drop)]
pub struct DataDirectory<'a, R> {
    rt: &'a R,
    path: &'a str,
}

/// Keeps other processes out of a data directory, as long as this value lives.
#[derive(Drop)]
pub struct DirectoryLock<F> {
    /// Kept open, so that it stays locked.
    _file: F,
}

/// Makes a folder if there is none, and syncs its name to disk.
fn make_folder<R: Files>(rt: &R, alloc: Global, path: &str) -> io::Result<()> {
    match fs::create_dir(rt, path) {
        Ok(()) => {
            let parent = format!(in alloc; "{path}/..")?;
            sync_folder(rt, alloc, parent.as_str())
        }
        Err(error) if error.kind() == ErrorKind::AlreadyExists => Ok(()),
        Err(error) => Err(error),
    }
}

/// Opens the file to be locked in a folder, and makes it if there is none.
fn open_lock<R: Files>(rt: &R, alloc: Global, path: &str) -> io::Result<R::File> {
    let path = format!(in alloc; "{path}/{LOCK}")?;
    OpenOptions::new()
        .write(true)
        .create(true)
        .open(rt, path.as_str())
}

/// The names of a node's files in a folder that have this ending, without it.
fn names_ending<R: Files>(
    rt: &R,
    alloc: Global,
    path: &str,
    ending: &str,
) -> io::Result<Vec<FileName>> {
    let mut names = Vec::new(alloc);
    for entry in fs::read_dir(&(rt, alloc), path)? {
        match entry {
            Ok(entry) => {
                if let Some(name) = name_before(ending, entry.file_name().as_bytes()) {
                    names.push(name)?;
                }
            }
            // A name that isn't text isn't one of a node's files.
            Err(error) if error.kind() == ErrorKind::InvalidFilename => (),
            Err(error) => return Err(error),
        }
    }
    Ok(names)
}

/// Removes the files beside that a crash left, which aren't whole or never got their names.
fn remove_left<R: Files>(rt: &R, alloc: Global, path: &str) -> io::Result<()> {
    for name in &names_ending(rt, alloc, path, BESIDE)? {
        let left = beside_path(alloc, path, *name)?;
        fs::remove_file(rt, left.as_str())?;
    }
    Ok(())
}

/// The fault of a failed system call that reads.
fn read_fault(error: &io::Error) -> DirectoryFault {
    if error.kind() == ErrorKind::OutOfMemory {
        DirectoryFault::Memory
    } else {
        DirectoryFault::ReadFailed
    }
}

impl<'a, R: Files> DataDirectory<'a, R> {
    /// Opens the directory at a path, and makes it if there is none. What a crash left half written
    /// is removed.
    ///
    /// Refused as `InUse` if another process has it. The lock is the system's, on the file `lock`:
    /// a crash leaves the file, but unlocked.
    pub fn open(
        rt: &'a R,
        alloc: Global,
        path: &'a str,
    ) -> Result<(DataDirectory<'a, R>, DirectoryLock<R::File>), OpenFault>
    where
        R::File: TryLock,
    {
        make_folder(rt, alloc, path)?;
        let lock = open_lock(rt, alloc, path)?;
        if !lock.take_lock()? {
            return Err(OpenFault::InUse);
        }
        remove_left(rt, alloc, path)?;
        Ok((DataDirectory { rt, path }, DirectoryLock { _file: lock }))
    }

    /// The directory at a path that this process has opened.
    pub fn at(rt: &'a R, path: &'a str) -> DataDirectory<'a, R> {
        DataDirectory { rt, path }
    }

    /// The runtime through which it is read and written.
    pub(crate) fn runtime(&self) -> &'a R {
        self.rt
    }

    /// The path.
    pub fn path(&self) -> &'a str {
        self.path
    }

    /// A new journal file that begins at a place, with its header, and this key of its witnesses. No file
    /// of this name may exist.
    ///
    /// It is written beside and synced, then gets its name, and the folder is synced. So a crash
    /// leaves no file with part of a header, and afterwards whatever is synced in the file is found
    /// again.
    pub fn create_journal(
        &self,
        alloc: Global,
        begins: &Cursor,
        schema: &Schema,
        key: Key,
    ) -> io::Result<JournalFile<R::File>> {
        let name = FileName::Journal(begins.offset);
        let path = file_path(alloc, self.path, name)?;
        if fs::exists(self.rt, path.as_str())? {
            return Err(io::Error::from(ErrorKind::AlreadyExists));
        }
        let header = header_bytes(alloc, schema, begins)?;
        let beside = beside_path(alloc, self.path, name)?;
        let mut file = fs::create(self.rt, beside.as_str())?;
        file.write_all(&header)?;
        file.sync_all()?;
        give_name(self.rt, alloc, self.path, name)?;
        Ok(JournalFile::new(file, header.len() as u64, key))
    }

    /// The last file of the journal, to go on after what was read of it, with this key of its witnesses:
    /// its last `torn` bytes, which are a torn tail, are cut off, and the rest is synced.
    ///
    /// It is synced even if nothing is torn: a killed process may leave bytes that have been read
    /// since and that only the system's memory has.
    pub fn open_journal(
        &self,
        alloc: Global,
        name: FileName,
        torn: u64,
        key: Key,
    ) -> io::Result<JournalFile<R::File>> {
        let path = file_path(alloc, self.path, name)?;
        let mut file = OpenOptions::new()
            .read(true)
            .write(true)
            .open(self.rt, path.as_str())?;
        let len = file.metadata()?.len().saturating_sub(torn);
        file.set_len(len)?;
        file.sync_all()?;
        file.seek(SeekFrom::Start(len))?;
        Ok(JournalFile::new(file, len, key))
    }

    /// A writer for a checkpoint, after which the journal is read from an offset on. It is written
    /// beside, so a crash leaves a file that no start reads and that the next one removes.
    pub fn create_checkpoint(&self, alloc: Global, offset: u64) -> io::Result<BufWriter<R::File>> {
        let beside = beside_path(alloc, self.path, FileName::Checkpoint(offset))?;
        let file = fs::create(self.rt, beside.as_str())?;
        BufWriter::with_capacity(alloc, PIECE, file)
    }

    /// Syncs a checkpoint that is written whole, and gives it its name. Once this succeeds, a start
    /// reads it, and what comes before it in the journal may be removed; if this fails, or a crash
    /// comes first, a start reads the last one and the journal.
    pub fn finish_checkpoint(
        &self,
        alloc: Global,
        offset: u64,
        output: BufWriter<R::File>,
    ) -> io::Result<()> {
        let file = output.into_inner()?;
        file.sync_all()?;
        drop(file);
        give_name(self.rt, alloc, self.path, FileName::Checkpoint(offset))
    }

    /// Removes what was written of an abandoned checkpoint.
    pub fn abandon_checkpoint(&self, alloc: Global, offset: u64) -> io::Result<()> {
        let beside = beside_path(alloc, self.path, FileName::Checkpoint(offset))?;
        fs::remove_file(self.rt, beside.as_str())
    }

    /// Whether a file has its name.
    pub fn has(&self, alloc: Global, name: FileName) -> bool {
        match file_path(alloc, self.path, name) {
            Ok(path) => fs::exists(self.rt, path.as_str()).unwrap_or(true),
            Err(_) => true,
        }
    }

    /// Removes a file. After a crash it may be back, and is still needless.
    pub fn remove(&self, alloc: Global, name: FileName) -> io::Result<()> {
        let path = file_path(alloc, self.path, name)?;
        fs::remove_file(self.rt, path.as_str())
    }
}

impl<'a, R: Files> Directory for DataDirectory<'a, R> {
    ghost use Rattle.std.specs.Prelude.{None};

    type Input = BufReader<R::File>;

    ghost files = { λ d. None };

    ghost bytes = { λ d. None };

    fn names(&self, alloc: Global) -> Result<Vec<FileName>, DirectoryFault> {
        match names_ending(self.rt, alloc, self.path, "") {
            Ok(names) => Ok(names),
            Err(error) => Err(read_fault(&error)),
        }
    }

    fn open(&self, alloc: Global, name: FileName) -> Result<BufReader<R::File>, DirectoryFault> {
        let path = file_path(alloc, self.path, name)?;
        match fs::open(self.rt, path.as_str()) {
            Ok(file) => match BufReader::new(alloc, file) {
                Ok(file) => Ok(file),
                Err(_) => Err(DirectoryFault::Memory),
            },
            Err(error) => Err(read_fault(&error)),
        }
    }

    fn len(&self, alloc: Global, name: FileName) -> Result<u64, DirectoryFault> {
        let path = file_path(alloc, self.path, name)?;
        match fs::metadata(self.rt, path.as_str()) {
            Ok(found) => Ok(found.len()),
            Err(error) => Err(read_fault(&error)),
        }
    }

    fn tail(&self, alloc: Global, name: FileName, len: u64) -> Result<Vec<u8>, DirectoryFault> {
        let path = file_path(alloc, self.path, name)?;
        match tail_of(self.rt, alloc, path.as_str(), len) {
            Ok(tail) => Ok(tail),
            Err(error) => Err(read_fault(&error)),
        }
    }
}
