//! A stream whose first calls fail.

use rr_base::Counted;
use std::io;
use std::io::{ErrorKind, Read, Write};

/// A stream whose first calls fail.
#[derive(Drop)]
pub struct FailingFirst<S> {
    calls: u32,
    kind: ErrorKind,
    stream: S,
}

/// A counted stream whose first `calls` calls fail with an error of this kind.
pub fn failing_first<S>(calls: u32, kind: ErrorKind, stream: S) -> Counted<FailingFirst<S>> {
    Counted::new(FailingFirst {
        calls,
        kind,
        stream,
    })
}

impl<S> FailingFirst<S> {
    fn next_call(&mut self) -> io::Result<()> {
        if self.calls > 0 {
            self.calls -= 1;
            return Err(io::Error::from(self.kind));
        }
        Ok(())
    }
}

impl<R: Read> Read for FailingFirst<R> {
    fn read(&mut self, buf: &mut [u8]) -> io::Result<usize> {
        self.next_call()?;
        self.stream.read(buf)
    }
}

impl<W: Write> Write for FailingFirst<W> {
    fn write(&mut self, buf: &[u8]) -> io::Result<usize> {
        self.next_call()?;
        self.stream.write(buf)
    }

    fn flush(&mut self) -> io::Result<()> {
        self.next_call()?;
        self.stream.flush()
    }
}
