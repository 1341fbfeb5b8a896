//! A writer that has room for some bytes, and takes little at a time.

use rr_base::{Counted, Failing};
use std::alloc::{AllocError, Global};
use std::io;
use std::io::Write;

/// How many bytes a writer has memory for beforehand, so that it takes none as they are written.
const BEFOREHAND: usize = 1 << 16;

/// A writer that takes at most `size` bytes at each call, has room for `left` more, and takes none
/// after that.
#[derive(Drop)]
pub struct Room {
    written: Vec<u8>,
    size: usize,
    left: usize,
}

/// A counted writer with room for `left` bytes, for which it takes memory as they are written.
pub fn with_room(alloc: Global, left: usize) -> Counted<Room> {
    Counted::new(Room {
        written: Vec::new(alloc),
        size: usize::MAX,
        left,
    })
}

/// A counted writer with room for `left` bytes that takes at most `size` bytes at each call except
/// the one after `calls` calls, which fails. It takes its memory beforehand, so that none is
/// refused to it.
pub fn failing_room(
    alloc: Global,
    size: usize,
    left: usize,
    calls: u64,
) -> Result<Counted<Failing<Room>>, AllocError> {
    let room = Room {
        written: Vec::with_capacity(alloc, left.min(BEFOREHAND))?,
        size,
        left,
    };
    Ok(Counted::new(Failing::new(room, calls)))
}

impl Room {
    /// What it took.
    pub fn into_written(self) -> Vec<u8> {
        self.written
    }
}

impl Write for Room {
    fn write(&mut self, buf: &[u8]) -> io::Result<usize> {
        let taken = buf.len().min(self.size).min(self.left);
        self.written.extend_from_slice(&buf[..taken])?;
        self.left -= taken;
        Ok(taken)
    }

    fn flush(&mut self) -> io::Result<()> {
        Ok(())
    }
}
