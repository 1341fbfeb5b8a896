//! An HTTP/1.1 connection.

ghost use Rattle.std.specs.Prelude.{◌≡◌, ◌++◌, List, [], ℕ, min, drop, length, OnOk, None, ◌==◌, ◌+◌, not};
ghost use Rattle.http1.specs.declared.conn.Limits.{Limits};
ghost use Rattle.rr_connection.specs.Stands.{Asked, RequestList};
ghost use Rattle.rr_connection.specs.Wants.{part_room};

use crate::request::Request;
use crate::room::{MAX_UNREAD, MAX_UNSENT, release};
use bytes::BytesMut;
use http1::{BodySize, Limits, Server};
use std::alloc::{AllocError, Global};

/// A head has at most this many fields, and a body at most as many trailers.
pub const MAX_HEADERS: usize = 64;

const _: () = prove!(MAX_HEADERS == 64);

/// Where a connection stands.
#[derive(Clone, Copy, Debug, PartialEq, Eq)]
pub(crate) enum Phase {
    /// A request is being received.
    Receives,
    /// One is out, and isn't answered yet.
    Waits,
    /// Nothing more is read.
    Over,
}

/// An HTTP/1.1 connection, with what was received but not yet read, and what is not yet sent.
#[derive(Drop)]
pub struct HttpConnection {
    pub(crate) alloc: Global,
    pub(crate) max_body: usize,
    pub(crate) phase: Phase,
    pub(crate) has_ended: bool,
    pub(crate) server: Server,
    pub(crate) unread: BytesMut,
    /// The request whose body is being received, with as much of it as has come.
    pub(crate) part: Option<Request>,
    /// Whether the request that is out has the method `HEAD`, whose response has no body.
    pub(crate) is_head: bool,
    pub(crate) unsent: BytesMut,
}

/// How many bytes are allocated for a body that isn't fully received.
fn part_room(part: &Option<Request>) -> usize
    ensures { result ≡ part_room part.now }
{
    match part {
        Some(part) => part.body.capacity(),
        None => 0,
    }
}

impl HttpConnection {
    ghost use Rattle.rr_connection.specs.Stands.{HasGiven, Keeps, is_ready, unsent_of};
    ghost use Rattle.rr_connection.specs.Wants.{allocated, is_over, is_within_body, is_within_request};
    ghost use Rattle.rr_connection.specs.Wants.{body_size, wants_read};

    /// A connection that has received nothing, with a body of at most `max_body` bytes.
    pub fn new(alloc: Global, limits: Limits, max_body: usize) -> HttpConnection
        ensures given { HasGiven result limits [] [] None }
        ensures unsent { unsent_of result ≡ [] }
    {
        HttpConnection {
            alloc,
            max_body,
            phase: Phase::Receives,
            has_ended: false,
            server: Server::new(limits),
            unread: BytesMut::new(alloc),
            part: None,
            is_head: false,
            unsent: BytesMut::new(alloc),
        }
    }

    /// Takes in what was received.
    pub fn receive(&mut self, bytes: &[u8]) -> Result<(), AllocError>
        ensures received { OnOk result ((limits : Limits) (received : List ℕ) (answered : RequestList)
            (asked : Asked) → HasGiven self.old limits received answered asked
            → HasGiven self.new limits (received ++ bytes.now) answered asked) }
        ensures unsent { unsent_of self.new ≡ unsent_of self.old }
    {
        self.unread.extend_from_slice(bytes)
    }

    /// Notes that nothing more will be received.
    pub fn end(&mut self)
        ensures given { Keeps self.old self.new }
        ensures unsent { unsent_of self.new ≡ unsent_of self.old }
    {
        self.has_ended = true;
    }

    /// Whether more is to be received.
    pub fn wants_read(&self) -> bool
        ensures { result ≡ wants_read self.now }
    {
        self.phase != Phase::Over
            && !self.has_ended
            && self.unread.len() < MAX_UNREAD
            && self.unsent.len() <= MAX_UNSENT
    }

    /// Whether bytes are to be sent.
    pub fn wants_write(&self) -> bool
        ensures { result ≡ not (length (unsent_of self.now) == 0) }
    {
        !self.unsent.is_empty()
    }

    /// Whether nothing more is read, whether or not all is sent.
    pub fn is_over(&self) -> bool
        ensures { result ≡ is_over self.now.phase }
    {
        self.phase == Phase::Over
    }

    /// Whether part of a request was received, but not all of it.
    pub fn is_within_request(&self) -> bool
        ensures { result ≡ is_within_request self.now }
    {
        self.phase == Phase::Receives && (self.part.is_some() || !self.unread.is_empty())
    }

    /// Whether a request's head was received, but not all of its body.
    pub fn is_within_body(&self) -> bool
        ensures { result ≡ is_within_body self.now }
    {
        self.phase == Phase::Receives && self.part.is_some()
    }

    /// The full size of the body being received, at most `max_body`, and `max_body` if its head
    /// gives no length. 0 if no body is being received.
    pub fn body_size(&self) -> usize
        ensures { result ≡ body_size self.now }
    {
        let Some(part) = &self.part else {
            return 0;
        };
        let came = part.body.len();
        match self.server.unread_size() {
            BodySize::Known(left) => self.whole(came, left),
            BodySize::Unknown => self.max_body,
            BodySize::Empty => self.whole(came, 0),
        }
    }

    /// The size of a body, from the bytes that have arrived and those still to come; at most the
    /// size that a body may have.
    fn whole(&self, came: usize, left: u64) -> usize
        ensures { result ≡ min (came + left) self.now.max_body }
    {
        let whole = left.saturating_add(came as u64);
        whole.min(self.max_body as u64) as usize
    }

    /// How many bytes of memory are held for it, counted as allocated and not as filled.
    pub fn held(&self) -> usize
        ensures { result ≡ min (allocated self.now) usize.MAX }
    {
        self.unread
            .capacity()
            .saturating_add(self.unsent.capacity())
            .saturating_add(part_room(&self.part))
    }

    /// What is to be sent.
    pub fn unsent(&self) -> &[u8]
        ensures { result.now ≡ unsent_of self.now }
    {
        self.unsent.as_slice()
    }

    /// Notes that this many bytes of it were sent.
    pub fn sent(&mut self, count: usize)
        ensures given { Keeps self.old self.new }
        ensures unsent { unsent_of self.new ≡ drop count (unsent_of self.old) }
    {
        self.unsent.advance(count.min(self.unsent.len()));
        release(self.alloc, &mut self.unsent);
    }

    /// Whether the next request may be given: none is out, and not too many bytes wait to be sent.
    pub(crate) fn is_ready(&self) -> bool
        ensures { result ≡ is_ready self.now }
    {
        self.phase == Phase::Receives && self.unsent.len() <= MAX_UNSENT
    }
}
