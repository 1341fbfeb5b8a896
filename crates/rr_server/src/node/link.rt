//! What a peer's thread shares with the keeper.

use crate::node::mailbox::Mailbox;
use rr_web::PeerNumbers;
use std::alloc::{AllocError, Global};
use std::sync::atomic::{AtomicBool, AtomicU64, Ordering};
use std::sync::{Arc, Mutex, Wait};
use std::time::{Clock, Duration, Instant};

/// How following a peer stands.
#[derive(Drop)]
pub(crate) struct Standing {
    /// Whether its last answer was taken.
    is_up: AtomicBool,
    /// Whether it has samples of this node's own origin, and so isn't followed any more.
    is_own: AtomicBool,
    /// How many bytes of its journal aren't read yet.
    lag: AtomicU64,
    /// Whether all of it was read, at the last answer.
    is_all_read: AtomicBool,
    /// When all of it was last read, or this node began.
    read: Mutex<Option<Instant>>,
}

impl Standing {
    /// Nothing read yet, as of now.
    fn new(clock: &impl Clock) -> Standing {
        Standing {
            is_up: AtomicBool::new(false),
            is_own: AtomicBool::new(false),
            lag: AtomicU64::new(0),
            is_all_read: AtomicBool::new(false),
            read: Mutex::new(Instant::now(clock).ok()),
        }
    }

    /// Notes that the peer can't be followed.
    pub(crate) fn is_down(&self) {
        self.is_up.store(false, Ordering::SeqCst);
        self.is_all_read.store(false, Ordering::SeqCst);
    }

    /// Notes that the peer has samples of this node's own origin.
    pub(crate) fn has_own(&self) {
        self.is_down();
        self.is_own.store(true, Ordering::SeqCst);
    }

    /// Whether the peer has samples of this node's own origin.
    pub(crate) fn is_own(&self) -> bool {
        self.is_own.load(Ordering::SeqCst)
    }

    /// Notes that an answer was taken which isn't the last, and how many bytes aren't read yet, if
    /// that is known.
    pub(crate) fn goes_on(&self, lag: Option<u64>) {
        self.is_up.store(true, Ordering::SeqCst);
        self.is_all_read.store(false, Ordering::SeqCst);
        if let Some(lag) = lag {
            self.lag.store(lag, Ordering::SeqCst);
        }
    }

    /// Notes that all is read.
    pub(crate) fn is_read<R: Wait + Clock>(&self, rt: &R) {
        self.goes_on(Some(0));
        *self.read.lock(rt) = Instant::now(rt).ok();
        self.is_all_read.store(true, Ordering::SeqCst);
    }

    /// The milliseconds since all was read; 0 while all is.
    fn age<R: Wait + Clock>(&self, rt: &R) -> u64 {
        if self.is_all_read.load(Ordering::SeqCst) {
            return 0;
        }
        let read = self.read.lock(rt);
        match &*read {
            Some(read) => {
                let elapsed = read.elapsed(rt).unwrap_or(Duration::ZERO);
                u64::try_from(elapsed.as_millis()).unwrap_or(u64::MAX)
            }
            None => 0,
        }
    }
}

/// What a peer's thread shares with the keeper.
#[derive(Drop)]
pub(crate) struct PeerLink {
    /// The number of the peer, counted from 1 as in the configuration.
    pub(crate) number: usize,
    /// Its address.
    pub(crate) address: String,
    pub(crate) mailbox: Arc<Mailbox>,
    pub(crate) standing: Arc<Standing>,
}

impl PeerLink {
    /// The link to the peer with a number, at an address.
    pub(crate) fn new(
        alloc: Global,
        clock: &impl Clock,
        number: usize,
        address: &str,
    ) -> Result<PeerLink, AllocError> {
        Ok(PeerLink {
            number,
            address: String::from_str(alloc, address)?,
            mailbox: Arc::new(alloc, Mailbox::new())?,
            standing: Arc::new(alloc, Standing::new(clock))?,
        })
    }

    /// The same, for one more thread.
    pub(crate) fn share(&self, alloc: Global) -> Result<PeerLink, AllocError> {
        Ok(PeerLink {
            number: self.number,
            address: String::from_str(alloc, self.address.as_str())?,
            mailbox: Arc::try_clone(&self.mailbox)?,
            standing: Arc::try_clone(&self.standing)?,
        })
    }

    /// The peer's numbers, as they stand.
    pub(crate) fn numbers<R: Wait + Clock>(
        &self,
        rt: &R,
        alloc: Global,
    ) -> Result<PeerNumbers, AllocError> {
        let standing: &Standing = &self.standing;
        Ok(PeerNumbers {
            address: Vec::from_slice(alloc, self.address.as_bytes())?,
            up: u64::from(standing.is_up.load(Ordering::SeqCst)),
            lag_bytes: standing.lag.load(Ordering::SeqCst),
            lag: standing.age(rt),
            own_origin: u64::from(standing.is_own()),
        })
    }
}
