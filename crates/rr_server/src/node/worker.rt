//! What the threads of a node do, other than the keeper's.

ghost use Rattle.std.specs.Thread.{IsSync};

use crate::files::tell;
use crate::node::checkpoints::{Checkpointing, Checkpoints};
use crate::node::giving::JournalParts;
use crate::node::handler::Handler;
use crate::node::peer::{Peer, PeerCalling};
use crate::node::runtime::ThreadRuntime;
use crate::node::shared::Shared;
use rr_reactor::Reactor;
use std::sync::Wait;
use std::thread::for_each_mut;
use std::time::Clock;

/// What a thread does.
#[derive(Drop)]
pub(crate) enum Worker {
    /// Owns all sockets.
    Reactor(Reactor),
    /// Answers read requests.
    Handler(Handler),
    /// Writes checkpoints.
    Checkpoints(Checkpoints),
    /// Follows a peer.
    Peer(Peer),
}

impl Worker {
    /// Works until the node ends.
    fn work<R>(&mut self, rt: &R)
    where
        R: Checkpointing + JournalParts + PeerCalling + Eprint + Wait + Clock,
    {
        match self {
            Worker::Reactor(reactor) => {
                if let Err(error) = reactor.serve(rt) {
                    tell(rt, "the sockets", error);
                }
            }
            Worker::Handler(handler) => handler.serve(rt),
            Worker::Checkpoints(checkpoints) => checkpoints.serve(rt),
            Worker::Peer(peer) => peer.serve(rt),
        }
    }
}

/// Runs each worker on a thread of its own. Once one ends, all do.
fn work_all<R: ThreadRuntime>(rt: &R, workers: &mut [Worker], shared: &Shared) {
    if workers.is_empty() {
        return;
    }
    let threads = workers.len();
    for_each_mut(
        rt,
        workers,
        threads,
        &|_, worker: &mut Worker|
            requires { IsSync R.row }
        {
            worker.work(rt);
            shared.end();
        },
    );
}

/// The threads of a node, other than the keeper's.
#[derive(Drop)]
pub(crate) struct Workers {
    pub(crate) workers: Vec<Worker>,
    /// Ended when one of them ends.
    pub(crate) shared: Shared,
}

impl Workers {
    /// Runs each worker on a thread of its own, until one ends or they are halted.
    pub(crate) fn work<R: ThreadRuntime>(&mut self, rt: &R) {
        work_all(rt, self.workers.as_mut_slice(), &self.shared);
    }
}
