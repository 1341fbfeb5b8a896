//! Ranges of times.
ghost use Rattle.std.specs.Prelude.{◌≡◌};
ghost use Rattle.rr_changes.specs.ChangeTimes.{gap, is_changed, is_empty, is_nearer_recent, widened, with_time};

/// The times from `first` to `last`, in nanoseconds since the Unix epoch, both included; none if
/// `first` is after `last`.
#[derive(Clone, Copy)]
pub struct TimeRange {
    /// The first of them.
    pub first: i64,
    /// The last of them.
    pub last: i64,
}

/// The range with no time in it.
pub const NEVER: TimeRange = TimeRange {
    first: i64::MAX,
    last: i64::MIN,
};

impl TimeRange {
    /// Whether no time is in it.
    pub fn is_empty(&self) -> bool
        ensures { result ≡ is_empty self.now }
    {
        self.last < self.first
    }

    /// How far a time is from the nearest in the range, in nanoseconds; 0 within it.
    fn gap(&self, time: i64) -> u64
        ensures { result ≡ gap self.now time }
    {
        if time < self.first {
            self.first.abs_diff(time)
        } else if self.last < time {
            time.abs_diff(self.last)
        } else {
            0
        }
    }

    /// The range widened to a time, with all between.
    fn widened(&self, time: i64) -> TimeRange
        ensures { result ≡ widened self.now time }
    {
        TimeRange {
            first: self.first.min(time),
            last: self.last.max(time),
        }
    }
}

/// Where a series changed: most changes are in one range of times, and late ones in another, so
/// that what lies between doesn't count as changed.
#[derive(Clone, Copy)]
pub struct ChangeTimes {
    /// The range begun by the first change.
    pub recent: TimeRange,
    /// The range of changes far from it.
    pub late: TimeRange,
}

/// The ranges of a series that hasn't changed.
pub const UNCHANGED: ChangeTimes = ChangeTimes {
    recent: NEVER,
    late: NEVER,
};

const _: () = prove!(UNCHANGED.recent.first == 9_223_372_036_854_775_807);

const _: () = prove!(UNCHANGED.recent.last == -9_223_372_036_854_775_808);

const _: () = prove!(UNCHANGED.late.first == 9_223_372_036_854_775_807);

const _: () = prove!(UNCHANGED.late.last == -9_223_372_036_854_775_808);

impl ChangeTimes {
    /// The ranges with a time added. It widens the recent one if that is empty, at most `near`
    /// nanoseconds from the time, or no farther from it than the late one. Otherwise it widens the
    /// late one.
    #[inline(always)]
    pub fn with_time(&self, near: u64, time: i64) -> ChangeTimes
        ensures { result ≡ with_time near self.now time }
    {
        if self.is_nearer_recent(near, time) {
            ChangeTimes {
                recent: self.recent.widened(time),
                late: self.late,
            }
        } else {
            ChangeTimes {
                recent: self.recent,
                late: self.late.widened(time),
            }
        }
    }

    /// Whether the series has changed: a time is in one of its ranges.
    #[inline(always)]
    pub fn is_changed(&self) -> bool
        ensures { result ≡ is_changed self.now }
    {
        !self.recent.is_empty() || !self.late.is_empty()
    }

    /// Whether a time goes to the recent range.
    #[inline(always)]
    fn is_nearer_recent(&self, near: u64, time: i64) -> bool
        ensures { result ≡ is_nearer_recent near self.now time }
    {
        let gap = self.recent.gap(time);
        self.recent.is_empty()
            || gap <= near
            || (!self.late.is_empty() && gap <= self.late.gap(time))
    }
}
