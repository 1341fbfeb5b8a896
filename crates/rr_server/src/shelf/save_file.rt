//! The file that a snapshot is written to.

use std::io;
use std::io::{BufWriter, Write};

/// A file that is written through a buffer and keeps the first error of its calls, so that the
/// reason can still be told once it is given back.
#[derive(Drop)]
pub struct SaveFile<F: Write + Drop> {
    file: BufWriter<F>,
    failure: Option<io::Error>,
}

impl<F: Write + Drop> SaveFile<F> {
    /// A file with no failed call.
    pub(crate) fn new(file: BufWriter<F>) -> SaveFile<F> {
        SaveFile {
            file,
            failure: None,
        }
    }

    /// The file.
    pub(crate) fn into_file(self) -> BufWriter<F> {
        self.file
    }

    /// The first error of its calls.
    pub(crate) fn into_failure(self) -> Option<io::Error> {
        self.failure
    }

    /// Keeps an error if it is the first, and returns one of its kind.
    fn keep(&mut self, error: io::Error) -> io::Error {
        let kind = error.kind();
        if self.failure.is_none() {
            self.failure = Some(error);
        }
        io::Error::from(kind)
    }
}

impl<F: Write + Drop> Write for SaveFile<F> {
    ghost use Rattle.std.specs.Prelude.{None};

    ghost contents = { λ f. None };

    fn write(&mut self, buf: &[u8]) -> io::Result<usize> {
        match self.file.write(buf) {
            Ok(taken) => Ok(taken),
            Err(error) => Err(self.keep(error)),
        }
    }

    fn flush(&mut self) -> io::Result<()> {
        match self.file.flush() {
            Ok(()) => Ok(()),
            Err(error) => Err(self.keep(error)),
        }
    }
}
