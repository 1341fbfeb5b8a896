//! How often something is done.

ghost use Rattle.std.specs.Prelude.{◌≡◌, None};
ghost use Rattle.rr_host.specs.Pace.{is_due, is_past, passed_next};

use std::marker::Model;
use std::time::Instant;

/// The most intervals for which something that failed is passed over.
const MOST_PASSED: u64 = 64;

const _: () = prove!(MOST_PASSED == 64);

/// The pace of something that is done at most once an interval, by a monotonic clock.
///
/// After a failure it is passed over for one interval; while it keeps failing, for 2, 4 and so on
/// up to 64. Each call takes the clock's time. If that is absent because the clock couldn't be
/// read, now or the last time, the thing is due.
#[derive(Drop)]
pub struct Pace {
    /// The seconds of an interval; without one the thing is due at any time.
    every: Option<u64>,
    /// When it was last done, or last failed.
    last: Option<Instant>,
    /// For how many intervals it is passed over, after failing then.
    passed: u64,
}

impl Model for Pace {
    ghost use Rattle.rr_host.specs.Pace.{PaceState};

    ghost Value = { PaceState };

    ghost view = { λ p. record { every = p.every; last = p.last; passed = p.passed } };
}

/// Whether an interval of `every` seconds is over, and those that are passed over.
fn is_past(elapsed: u64, every: u64, passed: u64) -> bool
    ensures { result ≡ is_past elapsed every passed }
{
    elapsed >= every.saturating_mul(passed.saturating_add(1))
}

impl Pace {
    /// The pace of something due once every `every` seconds, or at any time if that is absent. It
    /// has not been done yet.
    pub fn new(every: Option<u64>) -> Pace
        ensures { result ≡ record { every = every; last = None; passed = 0 } }
    {
        Pace {
            every,
            last: None,
            passed: 0,
        }
    }

    /// Whether it is due.
    pub fn is_due(&self, now: Option<Instant>) -> bool
        ensures { result ≡ is_due self.now now }
    {
        let (Some(every), Some(last), Some(now)) = (self.every, self.last, now) else {
            return true;
        };
        is_past(now.duration_since(last).as_secs(), every, self.passed)
    }

    /// Notes that it is done now.
    pub fn done(&mut self, now: Option<Instant>)
        ensures { self.new ≡ record { every = self.old.every; last = now; passed = 0 } }
    {
        self.last = now;
        self.passed = 0;
    }

    /// Notes that it fails now.
    pub fn failed(&mut self, now: Option<Instant>)
        ensures { self.new ≡ record {
          every = self.old.every;
          last = now;
          passed =
              passed_next self.old.passed;
        } }
    {
        self.last = now;
        self.passed = if self.passed == 0 {
            1
        } else {
            self.passed.saturating_mul(2).min(MOST_PASSED)
        };
    }
}
