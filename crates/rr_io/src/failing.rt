//! A stream with one call that fails.

ghost use Rattle.std.specs.Prelude.{◌≡◌, Some};
ghost use Rattle.std.specs.Io.KnownBytes.{Keeps};
ghost use Rattle.rr_io.specs.Failing.{CountsCall, stream_in, calls_left, one_call_less, fails_next};
ghost use Rattle.rr_io.specs.Stream.{ReadsInto, WritesFrom};

use std::io;
use std::io::{ErrorKind, Read, Write};

/// A reader or a writer with one call that fails. The calls before and after it are passed on; the
/// one that fails moves no byte.
///
/// It stands in for a stream in tests: a test that opens one again and again, letting one more call
/// pass each time, meets each failure once, and in the end none.
#[derive(Drop)]
pub struct Failing<S> {
    inner: S,
    left: Option<u64>,
}

impl<S> Failing<S> {
    /// This stream, which passes on `calls` calls before one fails.
    pub fn new(stream: S, calls: u64) -> Failing<S>
        ensures inner { stream_in result ≡ stream }
        ensures calls { calls_left result ≡ Some calls }
    {
        Failing {
            inner: stream,
            left: Some(calls),
        }
    }

    /// The stream inside.
    pub fn into_inner(self) -> S
        ensures { result ≡ stream_in self }
    {
        self.inner
    }

    /// Counts a call, and returns whether it is the one that fails.
    fn is_due(&mut self) -> bool
        ensures inner { stream_in self.new ≡ stream_in self.old }
        ensures calls { calls_left self.new ≡ one_call_less (calls_left self.old) }
        ensures due { result ≡ fails_next (calls_left self.old) }
    {
        match self.left {
            None => false,
            Some(0) => {
                self.left = None;
                true
            }
            Some(left) => {
                self.left = Some(left - 1);
                false
            }
        }
    }
}

/// The failure of a call.
fn failure() -> io::Error {
    io::Error::from(ErrorKind::Other)
}

impl<R: Read> Read for Failing<R> {
    ghost remaining = { λ f. R.remaining (stream_in f) };

    fn read(&mut self, buf: &mut [u8]) -> io::Result<usize>
        ensures read { ReadsInto (R.remaining (stream_in self.old))
            (R.remaining (stream_in self.new)) result buf.new }
        ensures calls { CountsCall self.old self.new result }
    {
        if self.is_due() {
            return Err(failure());
        }
        self.inner.read(buf)
    }
}

impl<W: Write> Write for Failing<W> {
    ghost contents = { λ f. W.contents (stream_in f) };

    fn write(&mut self, buf: &[u8]) -> io::Result<usize>
        ensures written { WritesFrom (W.contents (stream_in self.old))
            (W.contents (stream_in self.new)) result buf.now }
        ensures calls { CountsCall self.old self.new result }
    {
        if self.is_due() {
            return Err(failure());
        }
        self.inner.write(buf)
    }

    fn flush(&mut self) -> io::Result<()>
        ensures bytes { Keeps (W.contents (stream_in self.old)) (W.contents (stream_in self.new)) }
        ensures calls { CountsCall self.old self.new result }
    {
        if self.is_due() {
            return Err(failure());
        }
        self.inner.flush()
    }
}
