//! What a reactor shares with those who answer.

use crate::item::Answer;
use crate::limits::Limits;
use crate::promises::Promises;
use crate::queue::Queue;
use mio::Waker;
use std::alloc::{AllocError, Global};
use std::mem;
use std::sync::atomic::{AtomicBool, AtomicUsize, Ordering};
use std::sync::{Mutex, Wait};

/// An answer on its way back, and how many bytes were promised for it.
#[derive(Drop)]
pub(crate) struct Returned {
    pub(crate) answer: Answer,
    pub(crate) promised: usize,
}

/// What a reactor shares with those who answer.
#[derive(Drop)]
pub struct Queues {
    /// What the keeper is asked: requests to write, and pieces of lines.
    pub writes: Queue,
    /// What the readers are asked: other requests.
    pub fetches: Queue,
    answers: Mutex<Vec<Returned>>,
    limits: Limits,
    promises: Mutex<Promises>,
    waker: Waker,
    is_halted: AtomicBool,
    connections: AtomicUsize,
    held: AtomicUsize,
}

impl Queues {
    /// Queues for connections with these limits, whose reactor is woken by this waker.
    pub(crate) fn new(alloc: Global, limits: Limits, waker: Waker) -> Result<Queues, AllocError> {
        let connections = limits.connections;
        Ok(Queues {
            writes: Queue::new(alloc, connections)?,
            fetches: Queue::new(alloc, connections)?,
            answers: Mutex::new(Vec::with_capacity(alloc, connections)?),
            limits,
            promises: Mutex::new(Promises::new()),
            waker,
            is_halted: AtomicBool::new(false),
            connections: AtomicUsize::new(0),
            held: AtomicUsize::new(0),
        })
    }

    /// Promises memory for an answer that takes at most `size` bytes while it is made, and returns
    /// how many are promised, to be handed back with it. If none, it isn't to be made: all
    /// connections and answers would hold more than the limit.
    pub fn promise<R: Wait>(&self, rt: &R, size: usize) -> Option<usize> {
        self.promises.lock(rt).promise(&self.limits, size)
    }

    /// Hands back an answer for which nothing was promised.
    pub fn answer<R: Wait>(&self, rt: &R, answer: Answer) {
        self.answer_promised(rt, answer, 0);
    }

    /// Hands back an answer, with how many bytes were promised for it, and wakes the reactor if it
    /// is the first to wait there.
    pub fn answer_promised<R: Wait>(&self, rt: &R, answer: Answer, promised: usize) {
        let is_first = {
            let mut answers = self.answers.lock(rt);
            let is_first = answers.is_empty();
            // There is room for an answer to each connection.
            let _put = answers.push(Returned { answer, promised });
            is_first
        };
        if is_first {
            // A reactor that isn't woken still looks within a second.
            let _woken = self.waker.wake();
        }
    }

    /// Takes all answers in exchange for an empty list.
    pub(crate) fn exchange_answers<R: Wait>(&self, rt: &R, none: &mut Vec<Returned>) {
        let mut answers = self.answers.lock(rt);
        mem::swap(&mut *answers, none);
    }

    /// Sets how many connections there are and how many bytes of memory are held for them, after
    /// answers came back for which `taken` were promised. Returns what is still promised, and the
    /// most for which there was no room since the last call.
    pub(crate) fn tell<R: Wait>(
        &self,
        rt: &R,
        connections: usize,
        held: usize,
        taken: usize,
    ) -> (usize, Option<usize>) {
        let (promised, lacked) = {
            let mut promises = self.promises.lock(rt);
            let lacked = promises.settle(held, taken);
            (promises.promised, lacked)
        };
        self.connections.store(connections, Ordering::SeqCst);
        self.held
            .store(held.saturating_add(promised), Ordering::SeqCst);
        (promised, lacked)
    }

    /// How many connections there are.
    pub fn connections(&self) -> usize {
        self.connections.load(Ordering::SeqCst)
    }

    /// How many bytes of memory are held for them, and promised for their answers.
    pub fn held(&self) -> usize {
        self.held.load(Ordering::SeqCst)
    }

    /// Tells the reactor, and those who answer, to end.
    pub fn halt(&self) {
        self.is_halted.store(true, Ordering::SeqCst);
        let _woken = self.waker.wake();
    }

    /// Whether they are to end.
    pub fn is_halted(&self) -> bool {
        self.is_halted.load(Ordering::SeqCst)
    }
}
