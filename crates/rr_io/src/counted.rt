//! Readers and writers that count their calls.

ghost use Rattle.std.specs.Prelude.{◌≡◌, length, true, false, MatchResult, if◌then◌else◌};
ghost use Rattle.std.specs.Io.KnownBytes.{Keeps};
ghost use Rattle.rr_io.specs.Counted.{inner_of, failures_of, reads_of, ends_of, is_flushed, one_more, is_end_read, is_failed_write};
ghost use Rattle.rr_io.specs.Stream.{ReadsInto, WritesFrom};

use std::io;
use std::io::{Read, Write};

/// A reader or a writer, with the number of its calls that failed, the numbers of its reads and of
/// those that reported the end, and whether what was written has been flushed.
///
/// Code that reports that a stream failed can be held to it: the number of failures has then risen,
/// or is at its greatest value. Code that reads within a limit can also be held to that, and to
/// what it was told; and code that answers a writer, to having flushed the answer. The bytes are
/// those of the stream inside.
#[derive(Drop)]
pub struct Counted<S> {
    inner: S,
    failures: u64,
    reads: u64,
    ends: u64,
    flushed: bool,
}

impl<S> Counted<S> {
    /// This stream, before its first call.
    pub fn new(stream: S) -> Counted<S>
        ensures inner { inner_of result ≡ stream }
        ensures failures { failures_of result ≡ 0 }
        ensures reads { reads_of result ≡ 0 }
        ensures ends { ends_of result ≡ 0 }
        ensures flushed { is_flushed result ≡ true }
    {
        Counted {
            inner: stream,
            failures: 0,
            reads: 0,
            ends: 0,
            flushed: true,
        }
    }

    /// How many calls failed: errors, and writes that took no byte of a piece that isn't empty. The
    /// count saturates.
    pub fn failures(&self) -> u64
        ensures { result ≡ failures_of self.now }
    {
        self.failures
    }

    /// How many times it was read, failed reads included. The count saturates.
    pub fn reads(&self) -> u64
        ensures { result ≡ reads_of self.now }
    {
        self.reads
    }

    /// How many of its reads reported the end: they gave no byte, though there was room. The count
    /// saturates.
    pub fn ends(&self) -> u64
        ensures { result ≡ ends_of self.now }
    {
        self.ends
    }

    /// Whether nothing was written since the last flush that succeeded.
    pub fn is_flushed(&self) -> bool
        ensures { result ≡ is_flushed self.now }
    {
        self.flushed
    }

    /// The stream inside.
    pub fn into_inner(self) -> S
        ensures { result ≡ inner_of self }
    {
        self.inner
    }

    fn count_failure(&mut self)
        ensures inner { inner_of self.new ≡ inner_of self.old }
        ensures reads { reads_of self.new ≡ reads_of self.old }
        ensures ends { ends_of self.new ≡ ends_of self.old }
        ensures flushed { is_flushed self.new ≡ is_flushed self.old }
        ensures count { failures_of self.new ≡ one_more (failures_of self.old) }
    {
        self.failures = self.failures.saturating_add(1);
    }
}

/// Whether a read into a buffer of `room` bytes reported the end: it gave none, though there was
/// room.
fn is_end_read(given: &io::Result<usize>, room: usize) -> bool
    ensures { result ≡ is_end_read given.now room }
{
    match given {
        Ok(given) => *given == 0 && room != 0,
        Err(_) => false,
    }
}

/// Whether a write of a piece of `len` bytes failed: it returned an error, or took none of
/// them though there are some.
fn is_failed_write(taken: &io::Result<usize>, len: usize) -> bool
    ensures { result ≡ is_failed_write taken.now len }
{
    match taken {
        Ok(taken) => *taken == 0 && len != 0,
        Err(_) => true,
    }
}

impl<R: Read> Read for Counted<R> {
    ghost remaining = { λ c. R.remaining (inner_of c) };

    fn read(&mut self, buf: &mut [u8]) -> io::Result<usize>
        ensures read { ReadsInto (R.remaining (inner_of self.old))
            (R.remaining (inner_of self.new)) result buf.new }
        ensures count { MatchResult result (λ _. failures_of self.new ≡ failures_of self.old)
            (λ _. failures_of self.new ≡ one_more (failures_of self.old)) }
        ensures reads { reads_of self.new ≡ one_more (reads_of self.old) }
        ensures ends { ends_of self.new ≡ (if is_end_read result (length buf.new)
            then one_more (ends_of self.old) else ends_of self.old) }
    {
        self.reads = self.reads.saturating_add(1);
        let given = self.inner.read(buf);
        if is_end_read(&given, buf.len()) {
            self.ends = self.ends.saturating_add(1);
        }
        if given.is_err() {
            self.count_failure();
        }
        given
    }
}

impl<W: Write> Write for Counted<W> {
    ghost contents = { λ c. W.contents (inner_of c) };

    fn write(&mut self, buf: &[u8]) -> io::Result<usize>
        ensures written { WritesFrom (W.contents (inner_of self.old))
            (W.contents (inner_of self.new)) result buf.now }
        ensures count { failures_of self.new ≡ (if is_failed_write result (length buf.now)
            then one_more (failures_of self.old) else failures_of self.old) }
        ensures flushed { is_flushed self.new ≡ false }
    {
        self.flushed = false;
        let taken = self.inner.write(buf);
        if is_failed_write(&taken, buf.len()) {
            self.count_failure();
        }
        taken
    }

    fn flush(&mut self) -> io::Result<()>
        ensures bytes { Keeps (W.contents (inner_of self.old)) (W.contents (inner_of self.new)) }
        ensures count { MatchResult result (λ _. failures_of self.new ≡ failures_of self.old)
            (λ _. failures_of self.new ≡ one_more (failures_of self.old)) }
        ensures flushed { MatchResult result (λ _. is_flushed self.new ≡ true)
            (λ _. is_flushed self.new ≡ is_flushed self.old) }
    {
        let flushed = self.inner.flush();
        match &flushed {
            Ok(()) => self.flushed = true,
            Err(_) => self.count_failure(),
        }
        flushed
    }
}
