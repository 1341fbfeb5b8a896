//! Follows a peer.

use crate::node::link::{PeerLink, Standing};
use crate::node::mailbox::{Delivery, Mailbox};
use crate::node::shared::Shared;
use crate::tcp::{Half, halves};
use rr_cells::Cell;
use rr_journal::Cursor;
use rr_reactor::Queues;
use rr_replication::{Following, Next, Pace, PeerAnswer, PeerConnection, PeerFault, Reached};
use rr_schema::Schema;
use std::alloc::Global;
use std::net::{Net, TcpStream, ToSocketAddrs};
use std::sync::Wait;
use std::time::{Clock, Duration};

/// How many seconds a peer may send or take no byte, or leave a call unanswered.
const TIMEOUT: u64 = 10;

/// Connects to peers on threads of their own. [`Net`] has associated types, which can't be shown to
/// be safe on any thread but the first; so what the others do with the network is in this trait,
/// which has none.
pub trait PeerCalling {
    /// Connects to the first of a name's addresses that answers in time.
    fn call_peer(&self, address: &str, limit: Duration) -> Option<TcpStream>;
}

impl PeerCalling for HostRuntime {
    fn call_peer(&self, address: &str, limit: Duration) -> Option<TcpStream> {
        for found in address.to_socket_addrs(self).ok()? {
            if let Ok(stream) = TcpStream::connect_timeout(self, &found, limit) {
                return Some(stream);
            }
        }
        None
    }
}

/// Follows a peer on a thread of its own: keeps asking it for what its journal has gained, and
/// hands what comes to the keeper.
#[derive(Drop)]
pub(crate) struct Peer {
    alloc: Global,
    schema: Schema,
    following: Following,
    link: PeerLink,
    shared: Shared,
    /// The reason last reported for not following the peer.
    told: Option<PeerFault>,
    /// How long it is left alone after a failure.
    pace: Pace,
    /// Where the node was in its store when it was last called or asked.
    asked: Option<Reached>,
    /// Where its journal ends, as last told.
    end: Option<u64>,
}

impl Peer {
    /// Follows a peer of this schema, from where its journal was read up to if that is in `known`.
    pub(crate) fn new(
        alloc: Global,
        schema: Schema,
        known: Vec<Cursor>,
        link: PeerLink,
        shared: Shared,
    ) -> Peer {
        Peer {
            alloc,
            schema,
            following: Following::new(alloc, known),
            link,
            shared,
            told: None,
            pace: Pace::new(),
            asked: None,
            end: None,
        }
    }

    /// Whether the node is ending.
    fn is_halted(&self) -> bool {
        let queues: &Queues = &self.shared.queues;
        queues.is_halted()
    }

    /// Whether the peer isn't to be followed any more.
    fn is_given_up(&self) -> bool {
        let standing: &Standing = &self.link.standing;
        self.is_halted() || standing.is_own()
    }

    /// A connection to the peer, over which it is to be greeted.
    fn connect<R: PeerCalling>(&mut self, rt: &R) -> Result<PeerConnection<Half, Half>, PeerFault> {
        let limit = Duration::from_secs(TIMEOUT);
        let Some(stream) = rt.call_peer(self.link.address.as_str(), limit) else {
            return Err(PeerFault::BadAddress);
        };
        let halt = &self.shared.halt;
        let Some((input, output)) = halves(self.alloc, stream, Some(TIMEOUT), halt) else {
            return Err(PeerFault::BadAddress);
        };
        self.following.reconnect();
        Ok(PeerConnection::new(self.alloc, input, output))
    }

    /// Hands on what came, and waits until the keeper is done with it.
    fn hand_on<R: Wait + Clock>(&self, rt: &R, cells: Vec<Cell>, read: Option<Cursor>) {
        let queues: &Queues = &self.shared.queues;
        let mailbox: &Mailbox = &self.link.mailbox;
        let _done = mailbox.deliver(rt, Delivery { cells, read }, queues);
    }

    /// Takes an answer, and returns whether there is more. If it has no cells, it is handed on only
    /// where it ends a checkpoint.
    fn take<R: Wait + Clock>(&mut self, rt: &R, answer: &PeerAnswer) -> Result<bool, PeerFault> {
        let was_in_checkpoint = self.following.is_in_checkpoint();
        let mut cells = Vec::new(self.alloc);
        let next = self.following.take(answer, &self.schema, &mut cells)?;
        self.end = answer.end.or(self.end);
        let reached = self.following.reached();
        if let Some(place) = reached {
            self.pace.reach(place);
        }
        let link = &self.link;
        let standing: &Standing = &link.standing;
        match next {
            Next::UpToDate => {
                self.pace = Pace::new();
                standing.is_read(rt);
                self.told = None;
                Ok(false)
            }
            Next::More { read } => {
                standing.goes_on(lag_at(reached, self.end));
                if !cells.is_empty() || (was_in_checkpoint && read.is_some()) {
                    self.hand_on(rt, cells, read);
                }
                Ok(true)
            }
        }
    }

    /// Follows the peer over a connection, until the node ends or the peer can't be followed.
    fn follow<R: PeerCalling + Wait + Clock>(&mut self, rt: &R) -> Result<(), PeerFault> {
        self.asked = self.following.reached();
        let mut connection = self.connect(rt)?;
        for _ in 0..u64::MAX {
            if self.is_given_up() {
                break;
            }
            self.asked = self.following.reached();
            let target = self.following.target(&self.schema)?;
            let answer = connection.ask(self.link.address.as_bytes(), &target)?;
            if !self.take(rt, &answer)? {
                self.rest(rt);
            }
        }
        Ok(())
    }

    /// Rests for a second.
    fn rest<R: Wait + Clock>(&self, rt: &R) {
        let mailbox: &Mailbox = &self.link.mailbox;
        mailbox.rest(rt);
    }

    /// Reports why the peer isn't followed, unless that was reported last, and pauses.
    fn note<R: Eprint + Wait + Clock>(&mut self, rt: &R, fault: PeerFault) {
        let standing: &Standing = &self.link.standing;
        standing.is_down();
        if self.told != Some(fault) {
            self.told = Some(fault);
            let (number, name) = (self.link.number, fault.name());
            // If this can't be printed, the peer is called again all the same.
            let _printed = eprintln!(rt; "peer {number}: {name}");
        }
        for _ in 0..self.pace.fail(self.asked) {
            if self.is_halted() {
                return;
            }
            self.rest(rt);
        }
    }

    /// Follows the peer until the node ends, as long as it doesn't write under this node's origin.
    pub(crate) fn serve<R: PeerCalling + Eprint + Wait + Clock>(&mut self, rt: &R) {
        for _ in 0..u64::MAX {
            if self.is_halted() {
                return;
            }
            if self.is_given_up() {
                self.rest(rt);
            } else if let Err(fault) = self.follow(rt) {
                self.note(rt, fault);
            }
        }
    }
}

/// How many bytes of a peer's journal aren't read yet from a place on, if it is known where that
/// ends.
fn lag_at(reached: Option<Reached>, end: Option<u64>) -> Option<u64> {
    let (Some(reached), Some(end)) = (reached, end) else {
        return None;
    };
    Some(reached.lag(end))
}
