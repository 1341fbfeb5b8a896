//! Connections over TCP.

use super::socket::{Half, halves, one_second};
use crate::signals::{Flag, Waiting, pause};
use rr_host::{Visit, Visits};
use rr_io::Counted;
use std::alloc::Global;
use std::io;
use std::io::ErrorKind;
use std::net::{TcpListener, TcpStream};
use std::os::fd::OwnedFd;

/// How long to wait after no connection could be taken, in nanoseconds: a tenth of a second. So
/// failing at once, again and again, takes no processor time.
const PAUSE: i64 = 100_000_000;

/// A listener that waits at most a second, a limit set through a stream of its socket.
fn with_limit(listener: TcpListener) -> io::Result<TcpListener> {
    let socket = TcpStream::from(OwnedFd::from(listener));
    socket.set_read_timeout(Some(one_second()))?;
    Ok(TcpListener::from(OwnedFd::from(socket)))
}

/// The connections that come to an address, for as long as they are waited for ([`Waiting`]); after
/// that, none come. Nothing is known of them.
///
/// A connection fails if there is no memory for it. A read or write that moves no byte for the idle
/// time fails too, so that no silent peer holds up whoever serves it. If none can be taken, as in a
/// process out of file descriptors, that is a failed one, after a tenth of a second. What a peer of
/// another schema still sends is read before its connection is closed, so that it learns of the end
/// by a read.
#[derive(Drop)]
pub struct Listening {
    alloc: Global,
    listener: TcpListener,
    idle: Option<u64>,
    waiting: Waiting,
    /// Raised for a peer of another schema.
    schema_differs: Option<Flag>,
    /// Whether the peer of the last connection given has another schema.
    differs: bool,
}

/// What comes of waiting for a connection whose halves aren't made yet.
#[derive(Drop)]
pub enum Accepted {
    /// A connection.
    Stream(TcpStream),
    /// It failed.
    Failed,
    /// No more will come.
    Over,
}

impl Listening {
    /// The connections that come to a listener, waited for as `waiting` says. Each may move no byte
    /// for `idle` seconds, or indefinitely if that is absent.
    pub fn new(
        alloc: Global,
        listener: TcpListener,
        idle: Option<u64>,
        waiting: Waiting,
    ) -> io::Result<Listening> {
        Ok(Listening {
            alloc,
            listener: with_limit(listener)?,
            idle,
            waiting,
            schema_differs: None,
            differs: false,
        })
    }

    /// The same connections, with a flag that is raised for each peer of another schema that pulls
    /// on one.
    pub fn with_schema_flag(self, schema_differs: Flag) -> Listening {
        Listening {
            schema_differs: Some(schema_differs),
            ..self
        }
    }

    /// Waits for the next connection, which isn't handed back. It is what [`Visits::next`] gives,
    /// without halves.
    pub fn accept(&mut self) -> Accepted {
        if self.waiting.is_over() || !self.waiting.has_started() {
            return Accepted::Over;
        }
        for _ in 0..self.waiting.seconds() {
            if self.waiting.is_over() {
                return Accepted::Over;
            }
            match self.listener.accept() {
                Ok((stream, _)) => return Accepted::Stream(stream),
                Err(error) if error.kind() == ErrorKind::WouldBlock => {}
                Err(_) => {
                    pause(PAUSE);
                    return Accepted::Failed;
                }
            }
        }
        Accepted::Failed
    }

    /// The visit of an accepted connection.
    fn visit(&self, stream: TcpStream) -> Visit<Half, Half> {
        match halves(self.alloc, stream, self.idle, self.waiting.halt()) {
            Some((input, output)) => Visit::Stream(Counted::new(input), Counted::new(output)),
            None => Visit::Failed,
        }
    }
}

impl Visits for Listening {
    ghost use Rattle.std.specs.Prelude.{[], ◌∷◌, None};
    ghost use Rattle.rr_host.specs.Streams.{stream_of};
    ghost use Rattle.rr_host.specs.Visits.{HasCalled, TookBack};

    type Input = Half;

    type Output = Half;

    ghost calls = { λ l. None };

    fn next(&mut self) -> Visit<Half, Half> {
        match self.accept() {
            Accepted::Stream(stream) => self.visit(stream),
            Accepted::Failed => Visit::Failed,
            Accepted::Over => Visit::Over,
        }
    }

    fn schema_differs(&mut self) {
        self.differs = true;
        if let Some(schema_differs) = &self.schema_differs {
            schema_differs.raise();
        }
    }

    fn take_back(&mut self, input: Counted<Half>, output: Counted<Half>)
        ensures { HasCalled None None (TookBack (stream_of (λ _. None) (λ _. None) input output) ∷
            []) }
    {
        let mut input = input.into_inner();
        if !input.has_given() {
            self.waiting.note_empty();
        }
        if self.differs {
            input.drain();
            self.differs = false;
        }
        drop(output);
    }
}
