//! What is done for all connections each second: which are let go, and which advance.

use crate::connections::Connections;
use crate::order::put_in_order;
use crate::pace::{Holder, first_to_free};
use crate::socket::Socket;

/// At most this many are let go in one sweep for the memory held for them.
const LET_GO: usize = 64;

impl<S: Socket> Connections<S> {
    /// The first to be let go for the memory held for it. The cost is linear in the connections.
    fn first_holder(&self, now: u64) -> Option<Holder> {
        let mut first = None;
        for key in 0..self.slab.capacity() {
            if let Some(connection) = self.slab.get(key) {
                first = first_to_free(first, connection.holder(&self.limits, key, now));
            }
        }
        first
    }

    /// Lets at most 64 stalled ones go when others had no room, and one that is kept waiting if no
    /// other is left.
    fn free_memory(&mut self, now: u64) {
        let Some(wanted) = self.short.take() else {
            return;
        };
        for _ in 0..LET_GO {
            if !self.limits.must_let_go(self.all(), wanted) {
                return;
            }
            let Some(holder) = self.first_holder(now) else {
                return;
            };
            self.let_go(holder.key);
            if holder.is_kept {
                return;
            }
        }
    }

    /// Lets go of those whose time is up, and those whose request waits for memory while their
    /// client has ended.
    fn end_late(&mut self, now: u64) {
        for key in 0..self.slab.capacity() {
            let is_due = match self.slab.get(key) {
                Some(connection) => connection.is_late(&self.limits, now) || connection.is_left(),
                None => false,
            };
            if is_due {
                self.let_go(key);
            }
        }
    }

    /// Notes those that wait for memory, in their order. There is room for each.
    fn note_waiters(&mut self) {
        self.waiters.clear();
        for key in 0..self.slab.capacity() {
            if let Some(connection) = self.slab.get(key)
                && let Some(waiter) = connection.waiter(key)
            {
                let _put = self.waiters.push(waiter);
            }
        }
        put_in_order(self.waiters.as_mut_slice());
    }

    /// Advances those that wait for memory, in their order. Until the next sweep the first may take
    /// what it needs, if there is room.
    fn serve_waiters(&mut self, now: u64) {
        self.note_waiters();
        self.first = self.waiters.first().map(|waiter| waiter.key);
        self.least = usize::MAX;
        for index in 0..self.waiters.len() {
            if let Some(waiter) = self.waiters.get(index) {
                let key = waiter.key;
                self.pump(key, now);
            }
        }
    }

    /// Lets go of those whose time is up, and of stalled ones when others had no room; then
    /// advances those that wait for memory. The cost is linear in the connections for each one let
    /// go for its memory, plus that of sorting those that wait.
    pub fn sweep(&mut self, now: u64) {
        self.free_memory(now);
        self.end_late(now);
        self.serve_waiters(now);
    }
}
