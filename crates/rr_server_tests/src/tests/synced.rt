//! Files that note when they are synced and renamed.

use std::alloc::{Allocator, Global};
use std::fmt::Display;
use std::fs::{Metadata, OpenFile, OpenOptions};
use std::io;
use std::io::{Read, Seek, SeekFrom, Write};
use std::rt::Files;
use std::sync::atomic::{AtomicU64, Ordering};

/// A call that syncs a file or a folder.
const SYNC: u64 = 1;

/// A call that renames a file.
const RENAME: u64 = 2;

/// The calls that sync or rename something, in order: each is a digit.
#[derive(Drop)]
pub(crate) struct DiskCalls {
    digits: AtomicU64,
}

impl DiskCalls {
    /// No call yet.
    pub(crate) fn new() -> DiskCalls {
        DiskCalls {
            digits: AtomicU64::new(0),
        }
    }

    /// The digits of the calls so far.
    pub(crate) fn digits(&self) -> u64 {
        self.digits.load(Ordering::SeqCst)
    }

    fn note(&self, call: u64) {
        let longer = self.digits().wrapping_mul(10).wrapping_add(call);
        self.digits.store(longer, Ordering::SeqCst);
    }
}

/// The files of a host, with their calls noted.
#[derive(Drop)]
pub(crate) struct NotedFiles<'a, R> {
    pub(crate) host: &'a R,
    pub(crate) calls: &'a DiskCalls,
}

/// A file of which each `sync_all` is noted.
#[derive(Drop)]
pub(crate) struct NotedFile<'a, F> {
    file: F,
    calls: &'a DiskCalls,
}

impl<F: Read> Read for NotedFile<'_, F> {
    fn read(&mut self, buf: &mut [u8]) -> io::Result<usize> {
        self.file.read(buf)
    }
}

impl<F: Write> Write for NotedFile<'_, F> {
    fn write(&mut self, buf: &[u8]) -> io::Result<usize> {
        self.file.write(buf)
    }

    fn flush(&mut self) -> io::Result<()> {
        self.file.flush()
    }
}

impl<F: Seek> Seek for NotedFile<'_, F> {
    fn seek(&mut self, to: SeekFrom) -> io::Result<u64> {
        self.file.seek(to)
    }
}

impl<F: OpenFile> OpenFile for NotedFile<'_, F> {
    fn metadata(&self) -> io::Result<Metadata> {
        self.file.metadata()
    }

    fn set_len(&self, size: u64) -> io::Result<()> {
        self.file.set_len(size)
    }

    fn sync_all(&self) -> io::Result<()> {
        self.calls.note(SYNC);
        self.file.sync_all()
    }

    fn sync_data(&self) -> io::Result<()> {
        self.file.sync_data()
    }
}

impl<R: Alloc<A = Global>> Alloc for NotedFiles<'_, R> {
    type A = Global;

    fn alloc(&self) -> Global {
        self.host.alloc()
    }
}

impl<R: Eprint> Eprint for NotedFiles<'_, R> {
    fn eprint<D: Display + Drop>(&self, value: D) -> io::Result<()> {
        self.host.eprint(value)
    }

    fn eprintln<D: Display + Drop>(&self, value: D) -> io::Result<()> {
        self.host.eprintln(value)
    }
}

impl<'a, R: Files> Files for NotedFiles<'a, R> {
    type File = NotedFile<'a, R::File>;

    type Dir = R::Dir;

    fn open_file(&self, how: &OpenOptions, path: &str) -> io::Result<NotedFile<'a, R::File>> {
        Ok(NotedFile {
            file: self.host.open_file(how, path)?,
            calls: self.calls,
        })
    }

    fn open_dir(&self, path: &str) -> io::Result<R::Dir> {
        self.host.open_dir(path)
    }

    fn metadata(&self, path: &str) -> io::Result<Metadata> {
        self.host.metadata(path)
    }

    fn symlink_metadata(&self, path: &str) -> io::Result<Metadata> {
        self.host.symlink_metadata(path)
    }

    fn copy(&self, from: &str, to: &str) -> io::Result<u64> {
        self.host.copy(from, to)
    }

    fn rename(&self, from: &str, to: &str) -> io::Result<()> {
        self.calls.note(RENAME);
        self.host.rename(from, to)
    }

    fn remove_file(&self, path: &str) -> io::Result<()> {
        self.host.remove_file(path)
    }

    fn create_dir(&self, path: &str) -> io::Result<()> {
        self.host.create_dir(path)
    }

    fn remove_dir(&self, path: &str) -> io::Result<()> {
        self.host.remove_dir(path)
    }

    fn remove_dir_all<B: Allocator>(&self, alloc: B, path: &str) -> io::Result<()> {
        self.host.remove_dir_all(alloc, path)
    }
}
