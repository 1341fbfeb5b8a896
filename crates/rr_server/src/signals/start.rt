//! The start of a node's threads.

use libc::nanosleep;
use libc::types::timespec;
use std::alloc::{AllocError, Global};
use std::sync::Arc;
use std::sync::atomic::{AtomicUsize, Ordering};

/// How long to wait between two looks at how many threads have begun, in nanoseconds: a
/// millisecond.
const LOOK: i64 = 1_000_000;

/// How many times to look: for half a second. On a busy machine a look takes longer, and so does
/// the start of a thread.
const LOOKS: u32 = 500;

/// Sleeps for this many nanoseconds, less than a second. A signal may end the sleep early.
pub(crate) fn pause(nanoseconds: i64) {
    let asked = timespec {
        tv_sec: 0,
        tv_nsec: nanoseconds,
    };
    let mut left = asked;
    let _ended = nanosleep(&asked, &mut left);
}

/// A barrier at which each thread of a node waits, before its first connection, until all of them
/// have begun.
///
/// If a thread can't be made, the toolchain has another thread do its work afterwards, which may be
/// never. The barrier reveals that before any work has begun.
#[derive(Drop)]
pub struct StartBarrier {
    begun: Arc<AtomicUsize>,
    threads: usize,
}

impl StartBarrier {
    /// A barrier for this number of threads, none of which has begun.
    pub fn new(alloc: Global, threads: usize) -> Result<StartBarrier, AllocError> {
        Ok(StartBarrier {
            begun: Arc::new(alloc, AtomicUsize::new(0))?,
            threads,
        })
    }

    /// The same barrier, for one more thread.
    pub fn share(&self) -> Result<StartBarrier, AllocError> {
        Ok(StartBarrier {
            begun: Arc::try_clone(&self.begun)?,
            threads: self.threads,
        })
    }

    /// Notes that one more thread has begun, waits up to half a second until all have, and returns
    /// whether they have.
    pub fn wait(&self) -> bool {
        self.begun.fetch_add(1, Ordering::SeqCst);
        for _ in 0..LOOKS {
            if self.begun.load(Ordering::SeqCst) >= self.threads {
                return true;
            }
            pause(LOOK);
        }
        false
    }
}
