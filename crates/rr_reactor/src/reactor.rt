//! The thread that owns all sockets.

use crate::acceptor::{Accepted, Acceptor, Kind};
use crate::connections::Connections;
use crate::limits::Limits;
use crate::protocol::Protocol;
use crate::queue::Load;
use crate::queues::{Queues, Returned};
use mio::net::TcpStream;
use mio::{Events, Interest, Poll, Token, Waker};
use rr_connection::{HttpConnection, LineConnection};
use std::alloc::Global;
use std::io;
use std::net::{Net, SocketAddr};
use std::sync::{Arc, Wait};
use std::time::{Clock, Duration, Instant};

/// How many events are taken at a time.
const EVENTS: usize = 256;

/// How often times are checked, in milliseconds.
const SWEEP: u64 = 1_000;

const WAKER: usize = 0;

const HTTP: usize = 1;

const LINES: usize = 2;

/// The token of the connection with key 0.
const FIRST: usize = 3;

/// The thread that owns all sockets.
#[derive(Drop)]
pub struct Reactor {
    alloc: Global,
    limits: Limits,
    poll: Poll,
    http: Acceptor,
    lines: Option<Acceptor>,
    queues: Arc<Queues>,
    connections: Connections<TcpStream>,
    answers: Vec<Returned>,
    swept: u64,
}

/// Whether a queue with this load is behind.
fn is_behind(limits: &Limits, load: Load, now: u64) -> bool {
    let wait = match load.first {
        Some(came) => now.saturating_sub(came),
        None => 0,
    };
    limits.is_behind(load.bytes, wait)
}

/// The protocol of a connection of this kind.
fn protocol_of(alloc: Global, limits: &Limits, kind: Kind) -> Protocol {
    match kind {
        Kind::Http => Protocol::Http(HttpConnection::new(
            alloc,
            http1::Limits::default(),
            limits.body,
        )),
        Kind::Lines => Protocol::Lines(LineConnection::new(alloc)),
    }
}

/// The next connection that waits at a listener. If there is no file descriptor for it, another one
/// is let go, once.
fn accept_one(
    acceptor: &mut Acceptor,
    connections: &mut Connections<TcpStream>,
    now: u64,
) -> Option<TcpStream> {
    let mut accepted = acceptor.accept();
    if matches!(accepted, Accepted::NoDescriptor) && connections.let_one_go(now) {
        accepted = acceptor.accept();
    }
    match accepted {
        Accepted::Stream(stream) => Some(stream),
        _ => None,
    }
}

/// Accepts the connections that wait at a listener, while there is room.
fn accept_all(
    alloc: Global,
    limits: &Limits,
    poll: &Poll,
    acceptor: &mut Acceptor,
    connections: &mut Connections<TcpStream>,
    now: u64,
) {
    let both = Interest::READABLE | Interest::WRITABLE;
    for _ in 0..limits.connections {
        if !acceptor.is_ready || !connections.make_room(now) {
            return;
        }
        let Some(mut stream) = accept_one(acceptor, connections, now) else {
            return;
        };
        let _sent_at_once = stream.set_nodelay(true);
        let token = Token(connections.next_key().saturating_add(FIRST));
        if poll.registry().register(&mut stream, token, both).is_ok() {
            connections.admit(stream, protocol_of(alloc, limits, acceptor.kind), now);
        }
    }
}

impl Reactor {
    /// Listens for HTTP at one address, and for lines at another if given.
    pub fn new<R: Net + AllocGlobal>(
        rt: &R,
        limits: Limits,
        http: SocketAddr,
        lines: Option<SocketAddr>,
    ) -> io::Result<Reactor> {
        let alloc = rt.alloc();
        let poll = Poll::new(rt)?;
        let waker = Waker::new(poll.registry(), Token(WAKER))?;
        let http = Acceptor::new(rt, &poll, http, Kind::Http, Token(HTTP))?;
        let lines = match lines {
            Some(address) => Some(Acceptor::new(rt, &poll, address, Kind::Lines, Token(LINES))?),
            None => None,
        };
        Ok(Reactor {
            alloc,
            limits,
            poll,
            http,
            lines,
            queues: Arc::new(alloc, Queues::new(alloc, limits, waker)?)?,
            connections: Connections::new(alloc, limits)?,
            answers: Vec::with_capacity(alloc, limits.connections)?,
            swept: 0,
        })
    }

    /// What it shares with those who answer.
    pub fn queues(&self) -> io::Result<Arc<Queues>> {
        Ok(Arc::try_clone(&self.queues)?)
    }

    /// The address at which it listens for HTTP.
    pub fn http_address(&self) -> io::Result<SocketAddr> {
        self.http.address()
    }

    /// Advances what is ready.
    fn take_events(&mut self, events: &Events, now: u64) {
        for event in events {
            match event.token().0 {
                WAKER => {}
                HTTP => self.http.is_ready = true,
                LINES => {
                    if let Some(lines) = &mut self.lines {
                        lines.is_ready = true;
                    }
                }
                token => {
                    let is_ending = event.is_read_closed() || event.is_error();
                    self.connections.ready(
                        token.saturating_sub(FIRST),
                        event.is_readable() || is_ending,
                        event.is_writable() || event.is_write_closed(),
                        is_ending,
                        now,
                    );
                }
            }
        }
    }

    /// Passes answers to their connections.
    fn take_answers<R: Wait>(&mut self, rt: &R, now: u64) {
        let queues: &Queues = &self.queues;
        queues.exchange_answers(rt, &mut self.answers);
        for _ in 0..self.answers.len() {
            if let Some(returned) = self.answers.pop() {
                self.connections.take_back(returned, now);
            }
        }
    }

    /// Accepts the connections that wait.
    fn accept(&mut self, now: u64) {
        let (alloc, limits) = (self.alloc, &self.limits);
        let (poll, connections) = (&self.poll, &mut self.connections);
        accept_all(alloc, limits, poll, &mut self.http, connections, now);
        if let Some(lines) = &mut self.lines {
            accept_all(alloc, limits, poll, lines, connections, now);
        }
    }

    /// Hands on what was asked for, and notes which queues are behind and what is promised.
    fn hand_on<R: Wait>(&mut self, rt: &R, now: u64) {
        let queues: &Queues = &self.queues;
        let asked = self.connections.asked();
        queues.writes.put_all(rt, &mut asked.writes);
        queues.fetches.put_all(rt, &mut asked.fetches);
        let writes = is_behind(&self.limits, queues.writes.load(rt), now);
        let fetches = is_behind(&self.limits, queues.fetches.load(rt), now);
        self.connections.set_behind(writes, fetches);
        let (held, taken) = (self.connections.held(), self.connections.take_redeemed());
        let (promised, lacked) = queues.tell(rt, self.connections.len(), held, taken);
        self.connections.set_promised(promised, lacked);
    }

    /// Waits until something is ready, and advances it.
    fn round<R: Wait + Clock>(
        &mut self,
        rt: &R,
        events: &mut Events,
        began: &Instant,
    ) -> io::Result<()> {
        let wait = if self.connections.has_ready() {
            0
        } else {
            SWEEP
        };
        self.poll.poll(events, Some(Duration::from_millis(wait)))?;
        let now = u64::try_from(began.elapsed(rt)?.as_millis()).unwrap_or(u64::MAX);
        self.connections.go_on(now);
        self.take_events(events, now);
        self.take_answers(rt, now);
        self.accept(now);
        if now >= self.swept.saturating_add(SWEEP) {
            self.swept = now;
            self.connections.sweep(now);
        }
        self.hand_on(rt, now);
        Ok(())
    }

    /// Serves until its queues are halted.
    pub fn serve<R: Wait + Clock>(&mut self, rt: &R) -> io::Result<()> {
        let mut events = Events::with_capacity(self.alloc, EVENTS)?;
        let began = Instant::now(rt)?;
        for _ in 0..u64::MAX {
            if self.queues.is_halted() {
                return Ok(());
            }
            self.round(rt, &mut events, &began)?;
        }
        Ok(())
    }
}
