//! Handlers of read requests.

use crate::clock::SystemClock;
use crate::node::giving::{Giver, JournalParts};
use crate::node::made::Made;
use crate::node::shared::{Answered, Shared};
use rr_command_line::PRODUCT;
use rr_connection::{Reply, Request};
use rr_desk::Reader;
use rr_host::Clock;
use rr_packed::PackedArchive;
use rr_reactor::{Answer, Item, Outcome, Queues, Work};
use rr_web::{Ask, asked_by, fetch_of, read_reply, response_of, target_parts};
use std::alloc::{AllocError, Global};
use std::sync::Wait;
use std::time::Duration;
use std::{io, time};

/// Why a node can acknowledge nothing.
const UNWRITTEN: &[u8] = b"the journal can't be written";

/// Why a node takes no line.
const WITHOUT_ORIGIN: &[u8] = b"the origin can't be recorded";

/// Why a node's samples are in danger.
const OWN_ELSEWHERE: &[u8] =
    b"another node writes under this one's origin: give this node a new range of origins";

/// Answers read requests, on a thread of its own.
#[derive(Drop)]
pub(crate) struct Handler {
    pub(crate) alloc: Global,
    pub(crate) reader: Reader<PackedArchive>,
    pub(crate) shared: Shared,
    /// Gives peers what they ask for.
    pub(crate) giver: Giver,
}

impl Handler {
    /// Why the node can acknowledge nothing now, if that is so.
    fn failure(&self) -> Option<&'static [u8]> {
        if self.shared.is_failing.is_raised() {
            Some(UNWRITTEN)
        } else if self.shared.is_without_origin.is_raised() {
            Some(WITHOUT_ORIGIN)
        } else if self.shared.is_own_elsewhere.is_raised() {
            Some(OWN_ELSEWHERE)
        } else {
            None
        }
    }

    /// The second up to which `last` counts: the next one.
    fn next_second<T: time::Clock>(&self, rt: &T) -> i64 {
        let mut clock = SystemClock::new(rt);
        clock.now().div_euclid(1_000_000_000).saturating_add(1)
    }

    /// The answer to a request other than a fetch that can be answered.
    fn reply<T: JournalParts + Eprint + Wait + time::Clock>(
        &mut self,
        rt: &T,
        request: &Request,
    ) -> io::Result<Reply> {
        let (path, query) = target_parts(&request.target);
        let ask = asked_by(&request.method, path);
        match ask {
            Ask::Journal | Ask::Checkpoint => {
                self.giver
                    .answer(rt, query, ask == Ask::Journal, &self.shared)
            }
            _ => Ok(self.read(rt, request, ask)?),
        }
    }

    /// The answer to a request that reads what the reader has seen.
    fn read<T: Wait + time::Clock>(
        &mut self,
        rt: &T,
        request: &Request,
        ask: Ask,
    ) -> Result<Reply, AllocError> {
        let metrics = match ask {
            Ask::Metrics => self.shared.metrics.read(rt)?,
            _ => Vec::new(self.alloc),
        };
        let failure = self.failure();
        let now = self.next_second(rt);
        let reply = read_reply(
            self.alloc,
            request,
            now,
            &mut self.reader,
            &metrics,
            failure,
        )?;
        response_of(self.alloc, reply, PRODUCT)
    }

    /// Memory for an answer of at most this many bytes, if it is promised.
    fn promise<T: Wait>(&self, rt: &T, size: usize) -> Option<usize> {
        let queues: &Queues = &self.shared.queues;
        queues.promise(rt, size)
    }

    /// What is made of a request other than a fetch that can be answered: it was made first, and is
    /// 503 if there is no room for it.
    fn answer_other<T: JournalParts + Eprint + Wait + time::Clock>(
        &mut self,
        rt: &T,
        request: &Request,
    ) -> Made {
        let Ok(reply) = self.reply(rt, request) else {
            return Made::nothing();
        };
        match self.promise(rt, reply.body.capacity()) {
            Some(promised) => Made {
                outcome: Outcome::Reply(reply),
                promised,
            },
            None => Made::refused(self.alloc),
        }
    }

    /// What is made of an item: 503 for a fetch whose answer isn't promised memory. If memory runs
    /// out or a file can't be read, its connection is closed.
    fn made<T: JournalParts + Eprint + Wait + time::Clock>(&mut self, rt: &T, work: &Work) -> Made {
        let Work::Request(request) = work else {
            return Made::nothing();
        };
        let now = self.next_second(rt);
        let fetch = match fetch_of(self.alloc, request, now, self.reader.schema()) {
            Ok(Some(fetch)) => fetch,
            Ok(None) => return self.answer_other(rt, request),
            Err(_) => return Made::nothing(),
        };
        let room = fetch.room(self.alloc).unwrap_or(usize::MAX);
        let Some(promised) = self.promise(rt, room) else {
            return Made::refused(self.alloc);
        };
        let reply = fetch.reply(self.alloc, &mut self.reader);
        Made::of_reply(self.alloc, reply, promised)
    }

    /// Answers an item.
    fn answer<T: JournalParts + Eprint + Wait + time::Clock>(&mut self, rt: &T, item: &Item) {
        let Made { outcome, promised } = self.made(rt, &item.work);
        let key = item.key;
        let answer = Answer { key, outcome };
        let answered: &Answered = &self.shared.answered;
        answered.count_answer(&answer);
        let queues: &Queues = &self.shared.queues;
        queues.answer_promised(rt, answer, promised);
    }

    /// Answers what comes, until the node ends.
    pub(crate) fn serve<T: JournalParts + Eprint + Wait + time::Clock>(&mut self, rt: &T) {
        for _ in 0..u64::MAX {
            let queues: &Queues = &self.shared.queues;
            match queues.fetches.take(rt, Duration::from_secs(1)) {
                Some(item) => self.answer(rt, &item),
                None if queues.is_halted() => return,
                None => {}
            }
        }
    }
}
