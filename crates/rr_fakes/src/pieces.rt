//! A reader that gives little at a time.

use rr_base::{Counted, Failing};
use std::io;
use std::io::Read;

/// A reader that gives at most `size` bytes of a text at each call.
#[derive(Drop)]
pub struct Pieces<'a> {
    rest: &'a [u8],
    size: usize,
}

/// A counted reader that gives at most `size` bytes of a text at each call.
pub fn in_pieces(text: &[u8], size: usize) -> Counted<Pieces<'_>> {
    Counted::new(Pieces { rest: text, size })
}

/// A counted reader that gives at most `size` bytes of a text at each call except the one after
/// `calls` calls, which fails.
pub fn failing_after(text: &[u8], size: usize, calls: u64) -> Counted<Failing<Pieces<'_>>> {
    Counted::new(Failing::new(Pieces { rest: text, size }, calls))
}

impl Pieces<'_> {
    /// How many bytes of the text it hasn't given.
    pub fn left(&self) -> usize {
        self.rest.len()
    }
}

impl Read for Pieces<'_> {
    fn read(&mut self, buf: &mut [u8]) -> io::Result<usize> {
        let mut rest = self.rest;
        let piece = buf.len().min(self.size);
        let given = rest.read(&mut buf[..piece])?;
        self.rest = rest;
        Ok(given)
    }
}
