//! The system's clock.

use rr_host::Clock;
use std::time;
use std::time::{SystemTime, UNIX_EPOCH};

/// The system's clock, read once between two calls of [`Clock::renew`]. If it can't be read, as
/// before 1970, or is past the year 2262, it repeats its last moment. Nothing is known of its
/// moments.
#[derive(Drop)]
pub struct SystemClock<S> {
    source: S,
    last: i64,
    /// How many times it was renewed; saturates.
    renewals: u64,
    /// How many times it had been renewed when it was last read, if it was.
    read_at: Option<u64>,
}

impl<S: time::Clock> SystemClock<S> {
    /// The system's clock, read through `source`; a program's handle will do. Its moment is 0 until
    /// it could be read.
    pub fn new(source: S) -> SystemClock<S> {
        SystemClock {
            source,
            last: 0,
            renewals: 0,
            read_at: None,
        }
    }

    /// The same, whose moment is the least there is until it could be read: no point's own time
    /// passes for one that has come.
    pub fn behind(source: S) -> SystemClock<S> {
        SystemClock {
            last: i64::MIN,
            ..SystemClock::new(source)
        }
    }
}

impl<S: time::Clock> Clock for SystemClock<S> {
    ghost use Rattle.std.specs.Prelude.{None};

    ghost given = { λ _. None };

    ghost renewals = { λ c. c.renewals };

    fn now(&mut self) -> i64 {
        if self.read_at != Some(self.renewals) {
            self.last = read(&self.source).unwrap_or(self.last);
            self.read_at = Some(self.renewals);
        }
        self.last
    }

    fn renew(&mut self) {
        self.renewals = self.renewals.saturating_add(1);
    }
}

/// The system's time, unless it can't be read or has more than 63 bits.
fn read<S: time::Clock>(source: &S) -> Option<i64> {
    let now = SystemTime::now(source).ok()?;
    let since = now.duration_since(UNIX_EPOCH).ok()?;
    i64::try_from(since.as_nanos()).ok()
}
