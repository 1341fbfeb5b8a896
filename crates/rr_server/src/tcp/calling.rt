//! Peers over TCP.

use super::socket::{Half, halves};
use crate::signals::HaltFlag;
use rr_host::Dial;
use rr_io::Counted;
use std::alloc::Global;
use std::net::{Net, TcpStream, ToSocketAddrs};
use std::time::Duration;

/// Reaches peers over TCP. Nothing is known of what they send.
///
/// A peer also counts as not reached if there is no memory for its connection, or if it doesn't
/// answer the call within the idle time.
#[derive(Drop)]
pub struct Calling<'a, R> {
    rt: &'a R,
    alloc: Global,
    idle: Option<u64>,
    halt: HaltFlag,
}

impl<'a, R: Net<Stream = TcpStream>> Calling<'a, R> {
    /// Reaches peers over a runtime's network. Each connection may move no byte for `idle` seconds,
    /// or indefinitely if that is absent; it fails once the flag is raised.
    pub fn new(rt: &'a R, alloc: Global, idle: Option<u64>, halt: HaltFlag) -> Calling<'a, R> {
        Calling {
            rt,
            alloc,
            idle,
            halt,
        }
    }

    /// Connects to the first of a name's addresses that answers in time.
    fn connect(&self, address: &str) -> Option<TcpStream> {
        let Some(seconds) = self.idle else {
            return TcpStream::connect(self.rt, address).ok();
        };
        let limit = Duration::from_secs(seconds);
        for found in address.to_socket_addrs(self.rt).ok()? {
            if let Ok(stream) = TcpStream::connect_timeout(self.rt, &found, limit) {
                return Some(stream);
            }
        }
        None
    }
}

impl<R: Net<Stream = TcpStream>> Dial for Calling<'_, R> {
    ghost use Rattle.std.specs.Prelude.{[], ◌∷◌, None};
    ghost use Rattle.rr_host.specs.Calls.{Grows, handed_back};
    ghost use Rattle.rr_host.specs.Streams.{stream_of};

    type Input = Half;

    type Output = Half;

    ghost calls = { λ d. None };

    fn is_due(&mut self, _address: &str) -> bool {
        true
    }

    fn open(&mut self, address: &str) -> Option<(Counted<Half>, Counted<Half>)> {
        let stream = self.connect(address)?;
        let (input, output) = halves(self.alloc, stream, self.idle, &self.halt)?;
        Some((Counted::new(input), Counted::new(output)))
    }

    fn take_back(&mut self, input: Counted<Half>, output: Counted<Half>)
        ensures { Grows None None (handed_back (stream_of (λ _. None) (λ _. None) input output) ∷
            []) }
    {
        drop(input);
        drop(output);
    }
}
