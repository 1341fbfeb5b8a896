//! How fast connections move bytes, and which one is let go to make room for others.

ghost use Rattle.std.specs.Prelude.{◌≡◌};
ghost use Rattle.rr_reactor.specs.Pace.{IsFirstToFree, holder, is_stalled, paced, sum_moved};

use crate::limits::{Limits, SMALL};

/// How many bytes of a connection have moved, and since when.
#[derive(Clone, Copy, Debug, PartialEq, Eq)]
pub struct Pace {
    /// The moment, in milliseconds.
    pub since: u64,
    /// How many bytes were received or sent since.
    pub moved: usize,
}

/// A connection that may be let go for the memory held for it.
#[derive(Clone, Copy, Debug, PartialEq, Eq)]
pub struct Holder {
    /// Its key.
    pub key: usize,
    /// How many bytes of memory are held for it.
    pub held: usize,
    /// Whether it is kept waiting for memory: its client's bytes could be read.
    pub is_kept: bool,
}

/// A connection is stalled if it takes too long to move one of this many parts of what is held for
/// it. At that pace an answer wouldn't be through in its 30 seconds either.
const PARTS: usize = 16;

const _: () = prove!(PARTS == 16);

impl Pace {
    /// The pace of a new connection.
    pub fn new(now: u64) -> Pace
        ensures { result ≡ record { since = now; moved = 0 } }
    {
        Pace {
            since: now,
            moved: 0,
        }
    }

    /// The pace after `moved` more bytes were received or sent, with `held` bytes of memory held;
    /// `is_new` says whether the connection now waits for something else.
    pub fn note(self, is_new: bool, moved: usize, held: usize, now: u64) -> Pace
        ensures { result ≡ paced self is_new moved held now }
    {
        let moved = self.moved.saturating_add(moved);
        if is_new || moved >= held / PARTS {
            Pace::new(now)
        } else {
            Pace {
                since: self.since,
                moved,
            }
        }
    }

    /// Whether the connection takes too long.
    pub fn is_stalled(self, limits: &Limits, now: u64) -> bool
        ensures { result ≡ is_stalled limits.now self now }
    {
        now.saturating_sub(self.since) >= limits.stall
    }

    /// Whether the connection with this key may be let go for the memory held for it: it is
    /// stalled, and holds more than 8 KiB.
    pub fn holder(
        self,
        limits: &Limits,
        key: usize,
        held: usize,
        is_kept: bool,
        now: u64,
    ) -> Option<Holder>
        ensures { result ≡ holder limits.now self key held is_kept now }
    {
        if self.is_stalled(limits, now) && held > SMALL {
            Some(Holder { key, held, is_kept })
        } else {
            None
        }
    }
}

/// Which of two connections is let go first: one whose client stalls, and of equals the one that
/// holds more.
pub(crate) fn first_to_free(first: Option<Holder>, second: Option<Holder>) -> Option<Holder>
    ensures { IsFirstToFree first second result }
{
    match (first, second) {
        (Some(a), Some(b)) if a.is_kept && !b.is_kept => Some(b),
        (Some(a), Some(b)) if a.is_kept == b.is_kept && b.held > a.held => Some(b),
        (Some(a), _) => Some(a),
        (None, second) => second,
    }
}
