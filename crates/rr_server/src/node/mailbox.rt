//! What a peer brings, handed to the keeper.

use rr_cells::Cell;
use rr_journal::Cursor;
use rr_reactor::Queues;
use std::mem;
use std::sync::{Condvar, Mutex, Wait};
use std::time::{Clock, Duration};

/// What a peer brought.
#[derive(Drop)]
pub(crate) struct Delivery {
    /// Cells, to be joined in order.
    pub(crate) cells: Vec<Cell>,
    /// How far the peer's journal is read once they are joined, if that is to be recorded.
    pub(crate) read: Option<Cursor>,
}

/// Where a delivery is.
#[derive(Drop)]
enum Mail {
    /// There is none.
    None,
    /// It waits to be taken.
    Waiting(Delivery),
    /// The keeper has it.
    Taken,
}

/// Where a peer's thread hands deliveries to the keeper, one at a time.
#[derive(Drop)]
pub(crate) struct Mailbox {
    mail: Mutex<Mail>,
    changed: Condvar,
}

impl Mailbox {
    /// An empty mailbox.
    pub(crate) fn new() -> Mailbox {
        Mailbox {
            mail: Mutex::new(Mail::None),
            changed: Condvar::new(),
        }
    }

    /// Whether the last delivery is done with, after waiting for that for a second at most.
    fn is_done<R: Wait + Clock>(&self, rt: &R) -> bool {
        let second = Duration::from_secs(1);
        let (mail, _timed_out) = self
            .changed
            .wait_timeout_while(rt, self.mail.lock(rt), second, |mail| {
                !matches!(mail, Mail::None)
            });
        matches!(&*mail, Mail::None)
    }

    /// Hands over a delivery, and waits until it is done with or the node ends. Returns whether it
    /// is done with.
    pub(crate) fn deliver<R: Wait + Clock>(
        &self,
        rt: &R,
        delivery: Delivery,
        queues: &Queues,
    ) -> bool {
        *self.mail.lock(rt) = Mail::Waiting(delivery);
        queues.writes.nudge(rt);
        for _ in 0..u64::MAX {
            if self.is_done(rt) {
                return true;
            }
            if queues.is_halted() {
                return false;
            }
        }
        false
    }

    /// Rests for a second.
    pub(crate) fn rest<R: Wait + Clock>(&self, rt: &R) {
        let second = Duration::from_secs(1);
        let (_mail, _timed_out) = self
            .changed
            .wait_timeout_while(rt, self.mail.lock(rt), second, |_| true);
    }

    /// Takes the waiting delivery, if there is one.
    pub(crate) fn take<R: Wait>(&self, rt: &R) -> Option<Delivery> {
        let mut mail = self.mail.lock(rt);
        match mem::replace(&mut *mail, Mail::Taken) {
            Mail::Waiting(delivery) => Some(delivery),
            other => {
                *mail = other;
                None
            }
        }
    }

    /// Notes that the delivery taken is done with.
    pub(crate) fn done<R: Wait>(&self, rt: &R) {
        *self.mail.lock(rt) = Mail::None;
        self.changed.notify_one();
    }
}
