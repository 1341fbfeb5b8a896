//! All connections, by key.

ghost use Rattle.std.specs.Prelude.{◌≡◌, ◌+◌, ◌<◌, ◌≤◌};
ghost use Rattle.std.specs.Bool.{OnTrue};
ghost use Rattle.rr_reactor.specs.Connections.{count_of, most_of};

use crate::connection::{Connection, Progress};
use crate::excuse::{BEHIND, excuse, no_room};
use crate::item::{Answer, Item, Outcome, Work};
use crate::limits::Limits;
use crate::order::{Rank, Waiter};
use crate::protocol::Protocol;
use crate::queues::Returned;
use crate::socket::Socket;
use crate::watch::first_to_go;
use slab::Slab;
use std::alloc::{AllocError, Global};
use std::collections::VecDeque;
use std::mem;

/// The most bytes that are read at a time.
const SCRATCH: usize = 64 * 1024;

/// What was asked for and is still to be handed on.
#[derive(Drop)]
pub struct Asked {
    /// To the keeper.
    pub writes: VecDeque<Item>,
    /// To the readers.
    pub fetches: VecDeque<Item>,
}

/// All connections of a reactor, over sockets of one type.
#[derive(Drop)]
pub struct Connections<S> {
    alloc: Global,
    pub(crate) limits: Limits,
    pub(crate) slab: Slab<Connection<S>>,
    pub(crate) held: usize,
    /// How many bytes are promised for answers that others make, as was last told.
    promised: usize,
    /// How many were promised for those that came back since.
    redeemed: usize,
    scratch: Vec<u8>,
    asked: Asked,
    /// The keys of those that can advance at once.
    ready: VecDeque<usize>,
    /// Whether one had to wait for memory since others were last let go, and the bytes of the
    /// longest answer that didn't fit.
    pub(crate) short: Option<usize>,
    /// Those that waited for memory at the last sweep, in their order.
    pub(crate) waiters: Vec<Waiter>,
    /// The key of the first of them, until it is gone.
    pub(crate) first: Option<usize>,
    /// The least total need of those that had to wait for memory since then.
    pub(crate) least: usize,
    /// Whether the queue of writes is behind, and that of fetches.
    writes_behind: bool,
    fetches_behind: bool,
}

impl<S: Socket> Connections<S> {
    /// No connections.
    pub fn new(alloc: Global, limits: Limits) -> Result<Connections<S>, AllocError> {
        let asked = Asked {
            writes: VecDeque::with_capacity(alloc, limits.connections)?,
            fetches: VecDeque::with_capacity(alloc, limits.connections)?,
        };
        Ok(Connections {
            alloc,
            limits,
            slab: Slab::new(alloc),
            held: 0,
            promised: 0,
            redeemed: 0,
            scratch: Vec::from_elem(alloc, 0, SCRATCH)?,
            asked,
            ready: VecDeque::with_capacity(alloc, limits.connections)?,
            short: None,
            waiters: Vec::with_capacity(alloc, limits.connections)?,
            first: None,
            least: usize::MAX,
            writes_behind: false,
            fetches_behind: false,
        })
    }

    /// What was asked for and is still to be handed on.
    pub fn asked(&mut self) -> &mut Asked {
        &mut self.asked
    }

    /// The number of connections.
    pub fn len(&self) -> usize
        ensures { result ≡ count_of self.now }
    {
        self.slab.len()
    }

    /// Whether there are none.
    pub fn is_empty(&self) -> bool {
        self.slab.is_empty()
    }

    /// The bytes of memory held for them.
    pub fn held(&self) -> usize {
        self.held
    }

    /// The bytes of memory held for them, and promised for their answers.
    pub(crate) fn all(&self) -> usize {
        self.held.saturating_add(self.promised)
    }

    /// How many bytes were promised for the answers that came back since the last call.
    pub(crate) fn take_redeemed(&mut self) -> usize {
        mem::take(&mut self.redeemed)
    }

    /// Notes how many bytes are promised for answers, and the most for which there was no room if
    /// one wasn't made.
    pub(crate) fn set_promised(&mut self, promised: usize, lacked: Option<usize>) {
        self.promised = promised;
        if let Some(wanted) = lacked {
            self.lack(wanted);
        }
    }

    /// Whether some can advance at once.
    pub fn has_ready(&self) -> bool {
        !self.ready.is_empty()
    }

    /// The key of the next one to come.
    pub fn next_key(&self) -> usize {
        self.slab.vacant_key()
    }

    /// Notes which queues are behind: requests for them are answered 503 from here on.
    pub fn set_behind(&mut self, writes: bool, fetches: bool) {
        self.writes_behind = writes;
        self.fetches_behind = fetches;
    }

    /// Accepts one more. It is let go if there is no memory for it.
    pub fn admit(&mut self, socket: S, protocol: Protocol, now: u64)
        ensures count { count_of self.new ≤ count_of self.old + 1 }
        ensures most { most_of self.new ≡ most_of self.old }
    {
        let _put = self.slab.insert(Connection::new(socket, protocol, now));
    }

    /// Whether work of this kind is answered 503.
    fn is_refused(&self, work: &Work) -> bool {
        let is_behind = if work.is_write() {
            self.writes_behind
        } else {
            self.fetches_behind
        };
        is_behind && work.is_request()
    }

    /// Notes an item to be handed on. There is room for one of each connection.
    fn put(&mut self, item: Item) {
        let key = item.key;
        let put = if item.work.is_write() {
            self.asked.writes.push_back(item)
        } else {
            self.asked.fetches.push_back(item)
        };
        if put.is_err() {
            self.take_answer(key, Outcome::Nothing);
        }
    }

    /// Notes that there was no room for an answer of this many bytes, or for what a client sends.
    fn lack(&mut self, wanted: usize) {
        self.short = Some(self.short.unwrap_or(0).max(wanted));
    }

    /// The answer, or if it doesn't fit, one that says so.
    fn fitting(&mut self, outcome: Outcome) -> Outcome {
        let wanted = outcome.held();
        if self.limits.takes(self.all(), wanted) {
            return outcome;
        }
        self.lack(wanted);
        no_room(self.alloc, &outcome)
    }

    /// Passes an answer to its connection.
    fn take_answer(&mut self, key: usize, outcome: Outcome) {
        let outcome = self.fitting(outcome);
        if let Some(connection) = self.slab.get_mut(key) {
            let before = connection.held();
            connection.answer(outcome);
            let after = connection.held();
            self.held = self.held.saturating_sub(before).saturating_add(after);
        }
    }

    /// Forgets one whose socket is gone, unless its item is out.
    fn forget(&mut self, key: usize) {
        let is_gone = match self.slab.get(key) {
            Some(connection) => connection.is_gone(),
            None => false,
        };
        if is_gone && let Some(connection) = self.slab.try_remove(key) {
            self.held = self.held.saturating_sub(connection.held());
            if self.first == Some(key) {
                self.first = None;
            }
        }
    }

    /// Where one stands among those that wait for memory.
    fn rank(&self, key: usize) -> Rank {
        if self.first == Some(key) {
            Rank::First
        } else {
            Rank::Behind(self.least)
        }
    }

    /// Notes that one had to wait for memory.
    fn note_waiter(&mut self, waiter: Waiter) {
        self.lack(0);
        self.least = self.least.min(waiter.needs);
    }

    /// Advances one.
    fn move_one(&mut self, key: usize, now: u64) -> Progress {
        let rank = self.rank(key);
        let Some(connection) = self.slab.get_mut(key) else {
            return Progress::Waits;
        };
        let others = self.held.saturating_sub(connection.held());
        let promised = self.promised;
        let scratch = self.scratch.as_mut_slice();
        let progress = connection.pump(
            scratch,
            &self.limits,
            rank,
            others.saturating_add(promised),
            now,
        );
        let waiter = match progress {
            Progress::Waits => connection.waiter(key),
            _ => None,
        };
        self.held = others.saturating_add(connection.held());
        if let Some(waiter) = waiter {
            self.note_waiter(waiter);
        }
        progress
    }

    /// Advances one, hands on what it asks for, and forgets it if it is gone.
    pub(crate) fn pump(&mut self, key: usize, now: u64) {
        match self.move_one(key, now) {
            Progress::Waits => {}
            Progress::Goes => self.keep_ready(key),
            Progress::Work(work) if self.is_refused(&work) => {
                self.take_answer(key, excuse(self.alloc, 503, BEHIND));
                self.keep_ready(key);
            }
            Progress::Work(work) => self.put(Item {
                key,
                came: now,
                work,
            }),
        }
        self.forget(key);
    }

    /// Notes that one is to be advanced again, once. There is room for each.
    fn keep_ready(&mut self, key: usize) {
        let Some(connection) = self.slab.get_mut(key) else {
            return;
        };
        if !connection.set_queued(true) && self.ready.push_back(key).is_err() {
            connection.close();
        }
    }

    /// Advances those that can advance at once.
    pub fn go_on(&mut self, now: u64) {
        for _ in 0..self.ready.len() {
            let Some(key) = self.ready.pop_front() else {
                return;
            };
            if let Some(connection) = self.slab.get_mut(key) {
                connection.set_queued(false);
            }
            self.pump(key, now);
        }
    }

    /// Advances the one whose socket is ready for this; `is_ending` says whether its other side was
    /// seen to have ended.
    pub fn ready(
        &mut self,
        key: usize,
        is_readable: bool,
        is_writable: bool,
        is_ending: bool,
        now: u64,
    ) {
        if let Some(connection) = self.slab.get_mut(key) {
            connection.note(is_readable, is_writable, is_ending);
        }
        self.pump(key, now);
    }

    /// Passes an answer to its connection, and advances it.
    pub fn answer(&mut self, key: usize, outcome: Outcome, now: u64) {
        self.take_answer(key, outcome);
        self.pump(key, now);
    }

    /// Takes an answer back, for which memory was promised, and advances its connection.
    pub(crate) fn take_back(&mut self, returned: Returned, now: u64) {
        let Returned { answer, promised } = returned;
        let Answer { key, outcome } = answer;
        self.promised = self.promised.saturating_sub(promised);
        self.redeemed = self.redeemed.saturating_add(promised);
        self.answer(key, outcome, now);
    }

    /// Closes one, and forgets it.
    pub(crate) fn let_go(&mut self, key: usize) {
        if let Some(connection) = self.slab.get_mut(key) {
            connection.close();
        }
        self.forget(key);
    }
    /// Lets one go for a new one, and returns whether there was one to let go: the one idle
    /// longest, else the one whose request has taken longest. The cost is linear in the
    /// connections.
    pub fn let_one_go(&mut self, now: u64) -> bool {
        let mut first = None;
        for key in 0..self.slab.capacity() {
            if let Some(connection) = self.slab.get(key) {
                first = first_to_go(first, connection.candidate(key, now));
            }
        }
        let Some(candidate) = first else {
            return false;
        };
        self.let_go(candidate.key);
        true
    }

    /// Lets one go for a new one if there are as many as allowed, and returns whether there is
    /// room.
    pub fn make_room(&mut self, now: u64) -> bool
        ensures { OnTrue result (count_of self.new < most_of self.new) }
    {
        if self.slab.len() < self.limits.connections {
            return true;
        }
        let _went = self.let_one_go(now);
        self.slab.len() < self.limits.connections
    }
}
