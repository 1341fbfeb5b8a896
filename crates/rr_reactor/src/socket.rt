//! Sockets.

use mio::net::TcpStream;
use std::io::{ErrorKind, Read, Write};
use std::net::Shutdown;

/// A socket that returns `WouldBlock` where it would wait.
pub trait Socket: Read + Write + Drop {
    /// Ends sending.
    fn end(&mut self);
}

impl Socket for TcpStream {
    fn end(&mut self) {
        let _ended = self.shutdown(Shutdown::Write);
    }
}

/// What became of a read or a write.
#[derive(Clone, Copy, Debug, PartialEq, Eq)]
pub(crate) enum Moved {
    /// This many bytes moved.
    Bytes(usize),
    /// The other side has ended.
    End,
    /// Nothing can move now.
    Later,
    /// A signal interrupted it.
    Again,
    /// The connection has failed.
    Failed,
}

/// What became of a call.
pub(crate) fn moved_by(came: std::io::Result<usize>) -> Moved {
    match came {
        Ok(0) => Moved::End,
        Ok(count) => Moved::Bytes(count),
        Err(error) => match error.kind() {
            ErrorKind::WouldBlock => Moved::Later,
            ErrorKind::Interrupted => Moved::Again,
            _ => Moved::Failed,
        },
    }
}
