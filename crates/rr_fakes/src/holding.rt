//! A writer that holds bytes back until it is flushed.

use std::io;
use std::io::Write;

/// A writer that holds back what it takes until it is flushed, and then passes it on.
#[derive(Drop)]
pub struct Holding<'a> {
    /// What it holds.
    pub held: Vec<u8>,
    /// Where it passes that on to.
    pub passed: &'a mut Vec<u8>,
}

impl Write for Holding<'_> {
    fn write(&mut self, buf: &[u8]) -> io::Result<usize> {
        self.held.extend_from_slice(buf)?;
        Ok(buf.len())
    }

    fn flush(&mut self) -> io::Result<()> {
        self.passed.extend_from_slice(&self.held)?;
        self.held.clear();
        Ok(())
    }
}
