//! Bytes of the files of a data directory.

use crate::directory::DataDirectory;
use crate::folder::file_path;
use rr_directory::FileName;
use std::alloc::Global;
use std::io::{ErrorKind, Read, Seek, SeekFrom};
use std::rt::Files;
use std::{fs, io};

impl<R: Files> DataDirectory<'_, R> {
    /// This many bytes of a file from an offset on, or nothing if the file is gone. Fails with
    /// `UnexpectedEof` if the file has fewer.
    pub fn read_at(
        &self,
        alloc: Global,
        name: FileName,
        from: u64,
        len: u64,
    ) -> io::Result<Option<Vec<u8>>> {
        let path = file_path(alloc, self.path(), name)?;
        let mut file = match fs::open(self.runtime(), path.as_str()) {
            Ok(file) => file,
            Err(error) if error.kind() == ErrorKind::NotFound => return Ok(None),
            Err(error) => return Err(error),
        };
        file.seek(SeekFrom::Start(from))?;
        let mut bytes = Vec::from_elem(alloc, 0, len as usize)?;
        file.read_exact(bytes.as_mut_slice())?;
        Ok(Some(bytes))
    }
}
