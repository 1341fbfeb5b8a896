//! What connections may take.

ghost use Rattle.std.specs.Prelude.{◌≡◌};
ghost use Rattle.rr_reactor.specs.Limits.{free, is_behind, little, may_read, must_let_go, promise, room, takes};

use crate::order::Rank;

/// What the connections of a reactor may take. Times are in milliseconds.
#[derive(Clone, Copy, Debug, PartialEq, Eq)]
pub struct Limits {
    /// How many connections there may be at a time.
    pub connections: usize,
    /// How many bytes a body may have.
    pub body: usize,
    /// How many bytes of memory may be held for all connections.
    pub held: usize,
    /// Once this many are held, only a connection that holds at most 8 KiB is read.
    pub received: usize,
    /// How long a connection may be silent between two requests, or between the bytes of lines.
    pub idle: u64,
    /// How long a client may take to send the head of a request.
    pub head: u64,
    /// How long a client may take to send a body, once its head has arrived.
    pub upload: u64,
    /// How long a client may take to receive what is to be sent.
    pub download: u64,
    /// How long a connection may take to move a sixteenth of the memory held for it. After that it
    /// is stalled, and may be let go to make room for others.
    pub stall: u64,
    /// A queue with more waiting bytes than this is behind.
    pub waiting: usize,
    /// A queue whose first item has waited for longer than this is behind.
    pub wait: u64,
}

/// A connection that holds no more memory than this is always read, and an answer that takes no
/// more is always sent.
pub(crate) const SMALL: usize = 8 * 1024;

const _: () = prove!(SMALL == 8_192);

/// Stalled connections are let go until one of this many parts of all room is left.
const PART: usize = 4;

const _: () = prove!(PART == 4);

impl Limits {
    /// 4,096 connections, 8 MiB for a body, 256 MiB in all, which any answer fits in, and 128 MiB
    /// up to which more is received; 60 seconds of silence, 10 for a head, 30 for a body and for an
    /// answer, 2 for a sixteenth of what is held; a queue is behind beyond 32 MiB or 2 seconds.
    pub fn usual() -> Limits {
        Limits {
            connections: 4_096,
            body: 8 * 1024 * 1024,
            held: 256 * 1024 * 1024,
            received: 128 * 1024 * 1024,
            idle: 60_000,
            head: 10_000,
            upload: 30_000,
            download: 30_000,
            stall: 2_000,
            waiting: 32 * 1024 * 1024,
            wait: 2_000,
        }
    }

    /// How many bytes are free when `all` are held.
    fn free(&self, all: usize) -> usize
        ensures { result ≡ free self.now all }
    {
        self.held.saturating_sub(all)
    }

    /// How many more bytes may be received when `all` are held.
    fn room(&self, all: usize) -> usize
        ensures { result ≡ room self.now all }
    {
        self.received.saturating_sub(all)
    }

    /// How many bytes may be read at once for a connection that holds `own` bytes of memory, of
    /// `all` held, and whose request needs `needs` in all. That many, if there is room for them and
    /// no waiter needs less; for the first waiter, as many as there is room for. Otherwise 8 KiB
    /// while it holds no more than that.
    pub fn may_read(&self, rank: Rank, all: usize, own: usize, needs: usize) -> usize
        ensures { result ≡ may_read self.now rank all own needs }
    {
        let little = if own <= SMALL { SMALL } else { 0 };
        let room = self.room(all);
        match rank {
            Rank::First => room.max(little),
            Rank::Behind(least) if needs <= room.min(least) => needs,
            Rank::Behind(_) => little,
        }
    }

    /// Whether an answer of `size` bytes is sent when `all` are held: it fits, or has at most
    /// 8 KiB.
    pub fn takes(&self, all: usize, size: usize) -> bool
        ensures { result ≡ takes self.now all size }
    {
        size <= self.free(all) || size <= SMALL
    }

    /// How many bytes to promise for an answer that takes at most `size` while it is made, when
    /// `all` are held and promised: that many if they fit, none for at most 8 KiB. None if the
    /// answer isn't to be made.
    pub fn promise(&self, all: usize, size: usize) -> Option<usize>
        ensures { result ≡ promise self.now all size }
    {
        if size <= SMALL {
            Some(0)
        } else if size <= self.free(all) {
            Some(size)
        } else {
            None
        }
    }

    /// Whether stalled connections are let go when `all` bytes are held, some had no room, and an
    /// answer of `wanted` bytes didn't fit: until it would, and a quarter of all room is left.
    pub fn must_let_go(&self, all: usize, wanted: usize) -> bool
        ensures { result ≡ must_let_go self.now all wanted }
    {
        self.free(all) < wanted || self.room(all) < self.received / PART
    }

    /// Whether a queue in which `bytes` bytes wait, the first item for `wait`, is behind.
    pub fn is_behind(&self, bytes: usize, wait: u64) -> bool
        ensures { result ≡ is_behind self.now bytes wait }
    {
        bytes > self.waiting || wait > self.wait
    }
}
