//! Queues of items that threads share.

ghost use Rattle.std.specs.Prelude.{◌≡◌, [], ◌∷◌, ◌++◌, IfOk, OnErr, OnOk, MatchOption};

use crate::item::Item;
use std::alloc::{AllocError, AllocFailed, Global};
use std::collections::VecDeque;
use std::sync::{Condvar, Mutex, Wait};
use std::time::{Clock, Duration};

/// Items that wait, and how many bytes are held for them.
#[derive(Drop)]
pub(crate) struct Waiting {
    items: VecDeque<Item>,
    bytes: usize,
    /// Whether whoever waits is to wake, though no item came.
    is_nudged: bool,
}

impl Waiting {
    /// No items, with room for this many.
    fn new(alloc: Global, room: usize) -> Result<Waiting, AllocError>
        ensures { IfOk result (λ w. w.items.items ≡ []) }
    {
        Ok(Waiting {
            items: VecDeque::with_capacity(alloc, room)?,
            bytes: 0,
            is_nudged: false,
        })
    }

    /// Appends one.
    fn put(&mut self, item: Item) -> Result<(), AllocFailed<Item>>
        ensures ok { OnOk result (self.new.items.items ≡ self.old.items.items ++ item ∷ []) }
        ensures err { OnErr result (self.new.items.items ≡ self.old.items.items) }
    {
        let held = item.work.held();
        self.items.push_back(item)?;
        self.bytes = self.bytes.saturating_add(held);
        Ok(())
    }

    /// Takes the first.
    fn take(&mut self) -> Option<Item>
        ensures { MatchOption result (self.old.items.items ≡ [])
            (λ item. self.old.items.items ≡ item ∷ self.new.items.items) }
    {
        let item = self.items.pop_front()?;
        self.bytes = self.bytes.saturating_sub(item.work.held());
        Some(item)
    }

    /// How many bytes are held for those that wait, and when the first came.
    fn load(&self) -> Load {
        Load {
            bytes: self.bytes,
            first: self.items.front().map(|item| item.came),
        }
    }
}

/// What waits in a queue.
#[derive(Clone, Copy, Debug, PartialEq, Eq)]
pub(crate) struct Load {
    /// How many bytes of memory are held for it.
    pub(crate) bytes: usize,
    /// The moment at which the first item came, if any waits.
    pub(crate) first: Option<u64>,
}

/// A queue of items that threads share. First come, first taken.
#[derive(Drop)]
pub struct Queue {
    waiting: Mutex<Waiting>,
    changed: Condvar,
}

impl Queue {
    /// An empty queue with room for this many.
    pub(crate) fn new(alloc: Global, room: usize) -> Result<Queue, AllocError> {
        Ok(Queue {
            waiting: Mutex::new(Waiting::new(alloc, room)?),
            changed: Condvar::new(),
        })
    }

    /// Appends all of these, in their order. What has no room stays in `items`.
    pub(crate) fn put_all<R: Wait>(&self, rt: &R, items: &mut VecDeque<Item>) {
        let count = items.len();
        if count == 0 {
            return;
        }
        {
            let mut waiting = self.waiting.lock(rt);
            for _ in 0..count {
                let Some(item) = items.pop_front() else {
                    break;
                };
                if let Err(refused) = waiting.put(item) {
                    // There was room for it a moment ago.
                    let _back = items.push_front(refused.value);
                    break;
                }
            }
        }
        if count == 1 {
            self.changed.notify_one();
        } else {
            self.changed.notify_all();
        }
    }

    /// How many items wait in it.
    pub fn len<R: Wait>(&self, rt: &R) -> usize {
        self.waiting.lock(rt).items.len()
    }

    /// Whether none waits in it.
    pub fn is_empty<R: Wait>(&self, rt: &R) -> bool {
        self.len(rt) == 0
    }

    /// What waits in it.
    pub(crate) fn load<R: Wait>(&self, rt: &R) -> Load {
        self.waiting.lock(rt).load()
    }

    /// Wakes whoever waits for an item, once, though none came.
    pub fn nudge<R: Wait>(&self, rt: &R) {
        self.waiting.lock(rt).is_nudged = true;
        self.changed.notify_one();
    }

    /// Waits for the first item, for at most `timeout` or until nudged, and takes it.
    pub fn take<R: Wait + Clock>(&self, rt: &R, timeout: Duration) -> Option<Item> {
        let (mut waiting, _timed_out) = self
            .changed
            .wait_timeout_while(rt, self.waiting.lock(rt), timeout, |waiting| {
                waiting.items.is_empty() && !waiting.is_nudged
            });
        waiting.is_nudged = false;
        waiting.take()
    }
}
