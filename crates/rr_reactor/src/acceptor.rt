//! Listeners.

use mio::net::{TcpListener, TcpStream};
use mio::{Interest, Poll, Token};
use std::io;
use std::net::{Net, SocketAddr};

/// The protocol of connections to an address.
#[derive(Clone, Copy, Debug, PartialEq, Eq)]
pub(crate) enum Kind {
    Http,
    Lines,
}

/// The process has no file descriptor left.
const EMFILE: i32 = 24;

/// The system has none left.
const ENFILE: i32 = 23;

/// What came of accepting the next connection.
#[derive(Drop)]
pub(crate) enum Accepted {
    Stream(TcpStream),
    /// One waits, and there is no file descriptor for it.
    NoDescriptor,
    /// None waits, or it can't be accepted.
    Nothing,
}

/// A listener, and whether connections may wait there.
#[derive(Drop)]
pub(crate) struct Acceptor {
    listener: TcpListener,
    pub(crate) kind: Kind,
    pub(crate) is_ready: bool,
}

impl Acceptor {
    /// Listens at an address.
    pub(crate) fn new<R: Net>(
        rt: &R,
        poll: &Poll,
        address: SocketAddr,
        kind: Kind,
        token: Token,
    ) -> io::Result<Acceptor> {
        let mut listener = TcpListener::bind(rt, address)?;
        poll.registry()
            .register(&mut listener, token, Interest::READABLE)?;
        Ok(Acceptor {
            listener,
            kind,
            is_ready: false,
        })
    }

    /// The address at which it listens.
    pub(crate) fn address(&self) -> io::Result<SocketAddr> {
        self.listener.local_addr()
    }

    /// The next connection, if one waits and can be accepted.
    pub(crate) fn accept(&mut self) -> Accepted {
        match self.listener.accept() {
            Ok((stream, _)) => Accepted::Stream(stream),
            Err(error) => {
                if error.kind() == io::ErrorKind::WouldBlock {
                    self.is_ready = false;
                }
                match error.raw_os_error() {
                    Some(code) if code == EMFILE || code == ENFILE => Accepted::NoDescriptor,
                    _ => Accepted::Nothing,
                }
            }
        }
    }
}
