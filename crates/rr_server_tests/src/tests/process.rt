//! A stand-in for the process of the program.

use rr_desk::Reader;
use rr_journal::Cursor;
use rr_packed::PackedArchive;
use rr_server::{Checkpointing, JournalParts, PeerCalling};
use std::alloc::{Allocator, Global};
use std::env::{Env, FillError};
use std::fmt::Display;
use std::fs::{Metadata, OpenOptions};
use std::io;
use std::io::{BufRead, ErrorKind, Lines};
use std::net::{Net, SocketAddr, TcpListener, TcpStream};
use std::random::RandomSource;
use std::rt::Files;
use std::sync::{Mutex, Wait};
use std::thread::Threads;
use std::time::{Clock, Duration};

/// What a process is given: its words, the program's name first, separated by single spaces; its
/// standard input; its ports; and the time.
///
/// Port 1 of this machine is the first listener, port 2 the second, and so on; no other port can be
/// listened on or reached.
#[derive(Clone, Copy)]
pub(crate) struct Given<'a> {
    pub(crate) words: &'a [u8],
    pub(crate) input: &'a [u8],
    pub(crate) ports: &'a [TcpListener],
    /// The seconds since 1970; none if the clock can't be read.
    pub(crate) moment: Option<u64>,
}

/// A process with what it is given. Its files and threads are the host's, and what it prints is
/// kept.
#[derive(Drop)]
pub(crate) struct Process<'a, R> {
    host: &'a R,
    given: Given<'a>,
    printed: Mutex<Vec<u8>>,
    complained: Mutex<Vec<u8>>,
}

impl<'a, R: Alloc<A = Global>> Process<'a, R> {
    pub(crate) fn new(host: &'a R, given: Given<'a>) -> Process<'a, R> {
        Process {
            host,
            given,
            printed: Mutex::new(Vec::new(host.alloc())),
            complained: Mutex::new(Vec::new(host.alloc())),
        }
    }

    /// What it printed on standard output, and on standard error.
    pub(crate) fn into_texts(self) -> (Vec<u8>, Vec<u8>) {
        let Process {
            host: _,
            given: _,
            printed,
            complained,
        } = self;
        (printed.into_inner(), complained.into_inner())
    }
}

impl<R> Process<'_, R> {
    /// The listener of a port.
    fn listener(&self, port: u16) -> io::Result<&TcpListener> {
        let place = usize::from(port).wrapping_sub(1);
        match self.given.ports.get(place) {
            Some(listener) => Ok(listener),
            None => Err(io::Error::from(ErrorKind::ConnectionRefused)),
        }
    }
}

/// Adds bytes to a kept text.
fn keep(rt: &impl Wait, text: &Mutex<Vec<u8>>, bytes: &[u8]) -> io::Result<()> {
    Ok(text.lock(rt).extend_from_slice(bytes)?)
}

impl<R: Wait> Wait for Process<'_, R> {}

impl<R: Threads> Threads for Process<'_, R> {}

impl<R: Alloc<A = Global>> Alloc for Process<'_, R> {
    type A = Global;

    fn alloc(&self) -> Global {
        self.host.alloc()
    }
}

impl<R> Env for Process<'_, R> {
    fn arg(&self, i: usize, buf: &mut [u8]) -> Result<usize, FillError> {
        let Some(word) = self.given.words.split(|byte| *byte == b' ').nth(i) else {
            return Err(FillError::NotPresent);
        };
        if word.len() > buf.len() {
            return Err(FillError::TooLong);
        }
        buf[..word.len()].copy_from_slice(word);
        Ok(word.len())
    }

    fn var(&self, _name: &str, _buf: &mut [u8]) -> Result<usize, FillError> {
        Err(FillError::NotPresent)
    }

    fn var_at(&self, _i: usize, _buf: &mut [u8]) -> Result<usize, FillError> {
        Err(FillError::NotPresent)
    }
}

impl<'a, R> Input for Process<'a, R> {
    type Reader = &'a [u8];

    fn read_line<A: Allocator + Clone>(&self, _buf: &mut String<A>) -> io::Result<usize> {
        Err(io::Error::from(ErrorKind::Unsupported))
    }

    fn lines<A: Allocator>(&self, alloc: A) -> Lines<&'a [u8], A> {
        self.given.input.lines(alloc)
    }

    fn reader(&self) -> &'a [u8] {
        self.given.input
    }
}

impl<R: Wait + Alloc<A = Global>> Print for Process<'_, R> {
    fn print<D: Display + Drop>(&self, value: D) -> io::Result<()> {
        let text = value.to_string(self.host.alloc())?;
        keep(self.host, &self.printed, text.as_bytes())
    }

    fn println<D: Display + Drop>(&self, value: D) -> io::Result<()> {
        self.print(value)?;
        keep(self.host, &self.printed, b"\n")
    }

    fn write_all(&self, bytes: &[u8]) -> io::Result<()> {
        keep(self.host, &self.printed, bytes)
    }
}

impl<R: Wait + Alloc<A = Global>> Eprint for Process<'_, R> {
    fn eprint<D: Display + Drop>(&self, value: D) -> io::Result<()> {
        let text = value.to_string(self.host.alloc())?;
        keep(self.host, &self.complained, text.as_bytes())
    }

    fn eprintln<D: Display + Drop>(&self, value: D) -> io::Result<()> {
        self.eprint(value)?;
        keep(self.host, &self.complained, b"\n")
    }
}

impl<R> Clock for Process<'_, R> {
    fn monotonic(&self) -> io::Result<Duration> {
        Err(io::Error::from(ErrorKind::Unsupported))
    }

    fn since_1970(&self) -> io::Result<Duration> {
        match self.given.moment {
            Some(seconds) => Ok(Duration::from_secs(seconds)),
            None => Err(io::Error::from(ErrorKind::Unsupported)),
        }
    }
}

impl<R: RandomSource> RandomSource for Process<'_, R> {
    fn fill_bytes(&self, buf: &mut [u8]) -> io::Result<()> {
        self.host.fill_bytes(buf)
    }
}

impl<R: Net<Listener = TcpListener, Stream = TcpStream>> Net for Process<'_, R> {
    type Stream = TcpStream;

    type Listener = TcpListener;

    fn bind(&self, addr: SocketAddr) -> io::Result<TcpListener> {
        self.listener(addr.port())?.try_clone()
    }

    fn connect(&self, addr: SocketAddr) -> io::Result<TcpStream> {
        let address = self.listener(addr.port())?.local_addr()?;
        self.host.connect(address)
    }

    fn connect_timeout(&self, addr: SocketAddr, timeout: Duration) -> io::Result<TcpStream> {
        let address = self.listener(addr.port())?.local_addr()?;
        self.host.connect_timeout(address, timeout)
    }
}

impl<R: Checkpointing> Checkpointing for Process<'_, R> {
    fn checkpoint(
        &self,
        alloc: Global,
        reader: &mut Reader<PackedArchive>,
        path: &str,
        begins: Cursor,
    ) -> io::Result<u64> {
        self.host.checkpoint(alloc, reader, path, begins)
    }
}

impl<R: JournalParts> JournalParts for Process<'_, R> {
    fn journal_part(
        &self,
        alloc: Global,
        path: &str,
        header: u64,
        end: u64,
        from: u64,
    ) -> io::Result<rr_web::Given> {
        self.host.journal_part(alloc, path, header, end, from)
    }

    fn checkpoint_part(
        &self,
        alloc: Global,
        path: &str,
        begins: Option<u64>,
        from: u64,
    ) -> io::Result<rr_web::Given> {
        self.host.checkpoint_part(alloc, path, begins, from)
    }
}

impl<R: PeerCalling> PeerCalling for Process<'_, R> {
    fn call_peer(&self, address: &str, limit: Duration) -> Option<TcpStream> {
        self.host.call_peer(address, limit)
    }
}

impl<R: Files> Files for Process<'_, R> {
    type File = R::File;

    type Dir = R::Dir;

    fn open_file(&self, how: &OpenOptions, path: &str) -> io::Result<R::File> {
        self.host.open_file(how, path)
    }

    fn open_dir(&self, path: &str) -> io::Result<R::Dir> {
        self.host.open_dir(path)
    }

    fn metadata(&self, path: &str) -> io::Result<Metadata> {
        self.host.metadata(path)
    }

    fn symlink_metadata(&self, path: &str) -> io::Result<Metadata> {
        self.host.symlink_metadata(path)
    }

    fn copy(&self, from: &str, to: &str) -> io::Result<u64> {
        self.host.copy(from, to)
    }

    fn rename(&self, from: &str, to: &str) -> io::Result<()> {
        self.host.rename(from, to)
    }

    fn remove_file(&self, path: &str) -> io::Result<()> {
        self.host.remove_file(path)
    }

    fn create_dir(&self, path: &str) -> io::Result<()> {
        self.host.create_dir(path)
    }

    fn remove_dir(&self, path: &str) -> io::Result<()> {
        self.host.remove_dir(path)
    }

    fn remove_dir_all<B: Allocator>(&self, alloc: B, path: &str) -> io::Result<()> {
        self.host.remove_dir_all(alloc, path)
    }
}
