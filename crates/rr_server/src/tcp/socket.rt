//! The two sides of a connection over TCP.
ghost use Rattle.std.specs.Prelude.{◌≡◌, IfSome};
ghost use Rattle.std.specs.Io.{ReadsAtMost, WritesAtMost};

use crate::signals::HaltFlag;
use std::alloc::Global;
use std::io;
use std::io::{ErrorKind, Read, Write};
use std::net::{Shutdown, TcpStream};
use std::sync::Arc;
use std::time::Duration;

/// How many unwanted bytes are read at a time, and how often: 256 MiB in all, so that an endless
/// sender isn't read forever.
const SCRAP: usize = 4_096;

const SCRAPS: u32 = 65_536;

/// How long a connection or a listener waits at a time, before it checks its node's flag.
pub(crate) fn one_second() -> Duration {
    Duration::from_secs(1)
}

/// A connection whose reads and writes wait for a second at most.
#[derive(Drop)]
struct Socket {
    stream: TcpStream,
    /// How many seconds it may move no byte.
    idle: u64,
    halt: HaltFlag,
}

/// The result of a read or a write, unless it waited in vain.
fn unless_in_vain(moved: io::Result<usize>) -> Option<io::Result<usize>>
    ensures { IfSome result (λ same. same ≡ moved) }
{
    match moved {
        Err(error) if error.kind() == ErrorKind::WouldBlock => None,
        moved => Some(moved),
    }
}

impl Socket {
    /// One read, unless no byte comes within a second. It fails if the node is halted.
    fn read(&self, buf: &mut [u8]) -> Option<io::Result<usize>>
        ensures { IfSome result (λ given. ReadsAtMost given buf.new) }
    {
        if self.halt.is_raised() {
            return Some(Err(io::Error::from(ErrorKind::ConnectionAborted)));
        }
        let mut stream: &TcpStream = &self.stream;
        unless_in_vain(stream.read(buf))
    }

    /// One write, unless no byte is taken within a second. It fails if the node is halted.
    fn write(&self, buf: &[u8]) -> Option<io::Result<usize>>
        ensures { IfSome result (λ taken. WritesAtMost taken buf.now) }
    {
        if self.halt.is_raised() {
            return Some(Err(io::Error::from(ErrorKind::ConnectionAborted)));
        }
        let mut stream: &TcpStream = &self.stream;
        unless_in_vain(stream.write(buf))
    }
}

/// One of the two halves of a TCP connection, which share its socket. A read or a write fails once
/// it has moved no byte for as long as the connection may be silent, or once the node is halted.
#[derive(Drop)]
pub struct Half {
    socket: Arc<Socket>,
    /// Whether it gave a byte.
    has_given: bool,
}

impl Half {
    /// A half that has given nothing yet.
    fn new(socket: Arc<Socket>) -> Half {
        Half {
            socket,
            has_given: false,
        }
    }

    /// Ends sending over the connection, and returns whether that succeeded.
    pub fn end(&mut self) -> bool {
        self.socket.stream.shutdown(Shutdown::Write).is_ok()
    }

    /// Ends sending over the connection, and reads what still arrives, to its end or for 256 MiB.
    /// Closing the connection before that would cut off a peer that still sends, whose next call
    /// would fail when it should learn of the end.
    pub(crate) fn drain(&mut self) {
        if !self.end() {
            return;
        }
        let mut scrap = [0u8; SCRAP];
        for _ in 0..SCRAPS {
            if !matches!(self.read(&mut scrap), Ok(1..)) {
                return;
            }
        }
    }

    /// Whether a byte was read from it.
    pub fn has_given(&self) -> bool {
        self.has_given
    }
}

impl Read for Half {
    ghost use Rattle.std.specs.Prelude.{None};

    ghost remaining = { λ h. None };

    fn read(&mut self, buf: &mut [u8]) -> io::Result<usize> {
        let socket: &Socket = &self.socket;
        for _ in 0..socket.idle {
            if let Some(given) = socket.read(buf) {
                self.has_given = self.has_given || matches!(given, Ok(1..));
                return given;
            }
        }
        Err(io::Error::from(ErrorKind::TimedOut))
    }
}

impl Write for Half {
    ghost use Rattle.std.specs.Prelude.{None};

    ghost contents = { λ h. None };

    fn write(&mut self, buf: &[u8]) -> io::Result<usize> {
        let socket: &Socket = &self.socket;
        for _ in 0..socket.idle {
            if let Some(taken) = socket.write(buf) {
                return taken;
            }
        }
        Err(io::Error::from(ErrorKind::TimedOut))
    }

    fn flush(&mut self) -> io::Result<()> {
        let mut stream: &TcpStream = &self.socket.stream;
        stream.flush()
    }
}

/// The two halves of a connection: its input and its output. It is closed once both are let go.
///
/// It may move no byte for `idle` seconds, or indefinitely if that is absent, and no longer than
/// until its node's flag is raised.
pub fn halves(
    alloc: Global,
    stream: TcpStream,
    idle: Option<u64>,
    halt: &HaltFlag,
) -> Option<(Half, Half)> {
    stream.set_read_timeout(Some(one_second())).ok()?;
    stream.set_write_timeout(Some(one_second())).ok()?;
    let socket = Socket {
        stream,
        idle: idle.unwrap_or(u64::MAX),
        halt: halt.share().ok()?,
    };
    let input = Arc::new(alloc, socket).ok()?;
    let output = Arc::try_clone(&input).ok()?;
    Some((Half::new(input), Half::new(output)))
}
