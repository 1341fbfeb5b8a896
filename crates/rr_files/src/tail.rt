//! The last bytes of a file.

use std::alloc::Global;
use std::fs::OpenFile;
use std::io::{Read, Seek, SeekFrom};
use std::rt::Files;
use std::{fs, io};

/// The last `len` bytes of the file at a path, or all if it has fewer.
pub fn tail_of<R: Files>(rt: &R, alloc: Global, path: &str, len: u64) -> io::Result<Vec<u8>> {
    let mut file = fs::open(rt, path)?;
    let begin = file.metadata()?.len().saturating_sub(len);
    file.seek(SeekFrom::Start(begin))?;
    let mut tail = Vec::new(alloc);
    file.read_to_end(&mut tail)?;
    Ok(tail)
}
