//! One connection: its protocol and its socket.

ghost use Rattle.std.specs.Prelude.{◌≡◌};
ghost use Rattle.rr_reactor.specs.Connection.{GivesOne, GivesStep, IsOut, item_of};

use crate::item::{Outcome, Work};
use crate::limits::Limits;
use crate::order::{Rank, Waiter};
use crate::pace::{Holder, Pace};
use crate::protocol::Protocol;
use crate::socket::{Moved, Socket, moved_by};
use crate::watch::{Candidate, Stage, Watch};
use std::mem;

/// A connection moves this many times before others do.
const STEPS: u64 = 8;

/// What came of advancing a connection.
#[derive(Debug, Drop)]
pub(crate) enum Progress {
    /// This is asked for, and is out now.
    Work(Work),
    /// It waits for its socket, or for an answer.
    Waits,
    /// It could advance again at once.
    Goes,
}

/// One connection.
#[derive(Drop)]
pub struct Connection<S> {
    /// Its socket, until that fails or is closed.
    socket: Option<S>,
    protocol: Protocol,
    is_readable: bool,
    is_writable: bool,
    /// Whether the other side was seen to have ended.
    is_ending: bool,
    /// Whether all was received.
    has_ended: bool,
    /// Whether what comes is discarded, since nothing more is read.
    drains: bool,
    /// Whether it is among those that can advance at once.
    is_queued: bool,
    /// How many bytes are held for the item that is out, if one is.
    out: Option<usize>,
    /// How many bytes were sent from a buffer that still has its room.
    sent: usize,
    /// How many bytes came or went since its watch was set.
    moved: usize,
    watch: Watch,
    pace: Pace,
}

impl<S: Socket> Connection<S> {
    /// A new connection.
    pub fn new(socket: S, protocol: Protocol, now: u64) -> Connection<S>
        ensures { item_of result ≡ None }
    {
        Connection {
            socket: Some(socket),
            protocol,
            is_readable: true,
            is_writable: true,
            is_ending: false,
            has_ended: false,
            drains: false,
            is_queued: false,
            out: None,
            sent: 0,
            moved: 0,
            watch: Watch::new(now),
            pace: Pace::new(now),
        }
    }

    /// Whether it may be forgotten: its socket is gone, and its item isn't out.
    pub(crate) fn is_gone(&self) -> bool {
        self.socket.is_none() && self.out.is_none()
    }

    /// Whether its time is up.
    pub(crate) fn is_late(&self, limits: &Limits, now: u64) -> bool {
        self.watch.is_late(limits, now)
    }

    /// Whether it could be read on if less memory were held.
    pub(crate) fn is_held_up(&self) -> bool {
        self.out.is_none() && !self.is_queued && self.can_read()
    }

    /// Its entry among those that wait for memory, if it is one.
    pub(crate) fn waiter(&self, key: usize) -> Option<Waiter> {
        if self.is_held_up() {
            Some(Waiter {
                key,
                needs: self.protocol.needs(),
                since: self.watch.since,
            })
        } else {
            None
        }
    }

    /// Notes whether it is to be advanced again, and returns what was noted before.
    pub(crate) fn set_queued(&mut self, is_queued: bool) -> bool
        ensures { item_of self.new ≡ item_of self.old }
    {
        mem::replace(&mut self.is_queued, is_queued)
    }

    /// Whether its request isn't read further and the client has ended: it won't take the answer.
    pub(crate) fn is_left(&self) -> bool {
        self.is_ending && self.is_held_up() && matches!(self.protocol, Protocol::Http(_))
    }

    /// Its entry among those that may be let go for a new one.
    pub(crate) fn candidate(&self, key: usize, now: u64) -> Option<Candidate> {
        self.watch.candidate(key, now)
    }

    /// Its entry among those that may be let go for the memory held for them: none while its item
    /// is out, or it could advance at once.
    pub(crate) fn holder(&self, limits: &Limits, key: usize, now: u64) -> Option<Holder>
        ensures { IsOut self.now → result ≡ None }
    {
        if self.out.is_some() || self.is_queued {
            return None;
        }
        let is_kept = self.is_held_up() && !self.protocol.wants_write();
        self.pace.holder(limits, key, self.held(), is_kept, now)
    }

    /// How many bytes of memory are held for it and its item, as allocated: what was sent takes
    /// room until all is.
    pub(crate) fn held(&self) -> usize {
        let sending = self.protocol.held().saturating_add(self.sent);
        sending.saturating_add(self.out.unwrap_or(0))
    }

    /// Notes what its socket is ready for, and whether the other side was seen to have ended.
    pub(crate) fn note(&mut self, is_readable: bool, is_writable: bool, is_ending: bool)
        ensures { item_of self.new ≡ item_of self.old }
    {
        self.is_readable |= is_readable;
        self.is_writable |= is_writable;
        self.is_ending |= is_ending;
    }

    /// Drops its socket.
    pub(crate) fn close(&mut self)
        ensures { item_of self.new ≡ item_of self.old }
    {
        self.socket = None;
    }

    /// Takes the answer to its item.
    pub(crate) fn answer(&mut self, outcome: Outcome)
        ensures { item_of self.new ≡ None }
    {
        self.out = None;
        let before = self.protocol.held().saturating_add(self.sent);
        if !self.protocol.answer(outcome) {
            self.close();
        }
        // What isn't sent was moved to the beginning of its buffer, over what was sent.
        if self.protocol.held() >= before {
            self.sent = 0;
        }
    }

    /// Notes that this many bytes were sent. A buffer frees its room once all are.
    fn note_sent(&mut self, count: usize)
        ensures { item_of self.new ≡ item_of self.old }
    {
        self.moved = self.moved.saturating_add(count);
        self.sent = if self.protocol.wants_write() {
            self.sent.saturating_add(count)
        } else {
            0
        };
    }

    /// Writes once.
    fn write(&mut self)
        ensures { item_of self.new ≡ item_of self.old }
    {
        let Some(socket) = &mut self.socket else {
            return;
        };
        match self.protocol.write_to(socket) {
            Moved::Bytes(count) => self.note_sent(count),
            Moved::Again => {}
            Moved::Later => self.is_writable = false,
            Moved::End | Moved::Failed => self.close(),
        }
    }

    /// Takes in the first `count` bytes, unless what comes is discarded.
    fn take_in(&mut self, bytes: &[u8], count: usize)
        ensures { item_of self.new ≡ item_of self.old }
    {
        self.moved = self.moved.saturating_add(count);
        // A socket that gave less than it could have has no more, unless its end is still to be
        // read.
        if count < bytes.len() && !self.is_ending {
            self.is_readable = false;
        }
        if !self.drains && self.protocol.receive(bytes, count).is_err() {
            self.close();
        }
    }

    /// Notes that the other side has ended.
    fn take_end(&mut self)
        ensures { item_of self.new ≡ item_of self.old }
    {
        self.is_readable = false;
        self.has_ended = true;
        self.protocol.end();
        if self.drains {
            self.close();
        }
    }

    /// Reads once.
    fn read(&mut self, scratch: &mut [u8])
        ensures { item_of self.new ≡ item_of self.old }
    {
        let Some(socket) = &mut self.socket else {
            return;
        };
        match moved_by(socket.read(scratch)) {
            Moved::Bytes(count) => self.take_in(scratch, count),
            Moved::End => self.take_end(),
            Moved::Again => {}
            Moved::Later => self.is_readable = false,
            Moved::Failed => self.close(),
        }
    }

    /// Whether it can be written to now.
    fn can_write(&self) -> bool {
        self.socket.is_some() && self.is_writable && self.protocol.wants_write()
    }

    /// Whether it can be read now.
    fn can_read(&self) -> bool {
        self.socket.is_some() && self.is_readable && (self.drains || self.protocol.wants_read())
    }

    /// What is asked for next, if nothing is out; it is out from then on.
    fn ask(&mut self) -> Option<Work>
        ensures { GivesOne (item_of self.old) result (item_of self.new) }
    {
        if self.out.is_some() || self.socket.is_none() {
            return None;
        }
        match self.protocol.next() {
            Ok(Some(work)) => {
                self.out = Some(work.held());
                Some(work)
            }
            Ok(None) => None,
            Err(_) => {
                self.close();
                None
            }
        }
    }

    /// Ends it once nothing more is read and all is sent. What the other side still sends is
    /// discarded, since its socket would otherwise lose what was sent.
    fn finish(&mut self)
        ensures { item_of self.new ≡ item_of self.old }
    {
        if !self.protocol.is_over() || self.protocol.wants_write() || self.drains {
            return;
        }
        if self.has_ended {
            self.close();
            return;
        }
        self.drains = true;
        if let Some(socket) = &mut self.socket {
            socket.end();
        }
    }

    /// Moves once: writes, asks, ends, or reads if there is room to read into.
    fn step(&mut self, scratch: &mut [u8]) -> Progress
        ensures { GivesStep (item_of self.old) result (item_of self.new) }
    {
        if self.can_write() {
            self.write();
            return Progress::Goes;
        }
        if let Some(work) = self.ask() {
            return Progress::Work(work);
        }
        self.finish();
        if self.can_write() {
            self.write();
            Progress::Goes
        } else if !scratch.is_empty() && self.can_read() {
            self.read(scratch);
            Progress::Goes
        } else {
            Progress::Waits
        }
    }

    /// Advances until something is asked for or it has to wait.
    fn move_on(
        &mut self,
        scratch: &mut [u8],
        limits: &Limits,
        rank: Rank,
        others: usize,
    ) -> Progress
        ensures { GivesStep (item_of self.old) result (item_of self.new) }
    {
        for _ in 0..STEPS {
            let own = self.held();
            let all = others.saturating_add(own);
            let most = limits.may_read(rank, all, own, self.protocol.needs());
            let size = scratch.len().min(most);
            match self.step(&mut scratch[..size]) {
                Progress::Goes => {}
                progress => return progress,
            }
        }
        Progress::Goes
    }

    /// What it waits for.
    fn stage(&self) -> Stage {
        if self.out.is_some() {
            Stage::Answer
        } else if self.protocol.wants_write() {
            Stage::Download
        } else if self.drains {
            Stage::Refused
        } else {
            self.protocol.stage()
        }
    }

    /// Notes what it waits for now, and how much moved.
    fn note_pace(&mut self, now: u64)
        ensures { item_of self.new ≡ item_of self.old }
    {
        let stage = self.stage();
        let is_new = stage != self.watch.stage;
        self.pace = self.pace.note(is_new, self.moved, self.held(), now);
        self.watch = self.watch.note(stage, self.moved > 0, now);
        self.moved = 0;
    }

    /// Advances, with this much memory held by others and this rank among those that wait for some,
    /// and sets its watch.
    pub(crate) fn pump(
        &mut self,
        scratch: &mut [u8],
        limits: &Limits,
        rank: Rank,
        others: usize,
        now: u64,
    ) -> Progress
        ensures { GivesStep (item_of self.old) result (item_of self.new) }
    {
        let progress = self.move_on(scratch, limits, rank, others);
        self.note_pace(now);
        progress
    }
}
