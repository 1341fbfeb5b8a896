//! Which series changed since they were last written.
ghost use Rattle.std.specs.Prelude.{◌≡◌, ◌↔◌, ◌<◌, ◌≤◌, ◌≢◌, ◌++◌, ◌∷◌, [], ℕ, IfOk, IsTrue, OnOk, if◌then◌else◌, length, vec_len, vec_capacity};
ghost use Rattle.rr_changes.specs.ChangeTimes.{is_changed, with_time};
ghost use Rattle.rr_changes.specs.Tracking.{AreListed, times_at};
ghost use Rattle.rr_changes.specs.declared.time_range.TheConstants.{UNCHANGED};

use crate::by_number::series_numbered;
use crate::changed_series::ChangedSeries;
use crate::time_range::{ChangeTimes, UNCHANGED};
use rr_archive::Cells;
use rr_replica::Replica;
use std::alloc::{AllocError, Global};
use std::marker::Model;

/// Which series of a replica changed since they were last written, and at which times: for each
/// changed one, by its number, its [`ChangeTimes`].
///
/// It takes 32 bytes per series, changed or not, and 8 per changed one.
#[derive(Drop)]
pub struct ChangeTracker {
    near: u64,
    times: Vec<ChangeTimes>,
    changed: Vec<usize>,
}

impl Model for ChangeTracker {
    ghost use Rattle.std.specs.Prelude.{◌-◌, vec_len, vec_capacity};
    ghost use Rattle.rr_changes.specs.Tracking.{ChangedState, AreListed};

    ghost Value = { ChangedState };

    ghost view = { λ c. record {
      near = c.near;
      times = c.times.items;
      room = vec_capacity c.changed - vec_len c.changed;
    } };

    ghost invariant = { λ c. AreListed c.times.items c.changed.items };
}

impl ChangeTracker {
    ghost use Rattle.rr_changes.specs.Tracking.{AreChangedSeries, HasRoom, times_of};

    /// A tracker with no changed series yet. A time at most `near` nanoseconds from the recent
    /// range of its series widens that range. Takes no memory.
    pub fn new(alloc: Global, near: u64) -> ChangeTracker
        ensures none { result.times ≡ [] }
        ensures near { result.near ≡ near }
    {
        ChangeTracker {
            near,
            times: Vec::new(alloc),
            changed: Vec::new(alloc),
        }
    }

    /// Whether no series has changed.
    pub fn is_empty(&self) -> bool
        ensures { IsTrue result ↔ ((i : ℕ) → times_of self.now i ≡ UNCHANGED) }
    {
        self.changed.is_empty()
    }

    /// Makes room to track a change of the series with this number. No range changes. Called before
    /// each `track`, it has an amortized constant cost.
    #[inline(always)]
    pub fn ready(&mut self, series: usize) -> Result<(), AllocError>
        ensures same { (i : ℕ) → times_of self.new i ≡ times_of self.old i }
        ensures near { self.new.near ≡ self.old.near }
        ensures room { OnOk result (HasRoom self.new series) }
    {
        if series >= self.times.len() {
            self.make_places(series)?;
        }
        self.changed.reserve(1)
    }

    /// Makes a place for the series with this number, which has none.
    fn make_places(&mut self, series: usize) -> Result<(), AllocError>
        requires { length self.old.times ≤ series }
        ensures same { (i : ℕ) → times_of self.new i ≡ times_of self.old i }
        ensures near { self.new.near ≡ self.old.near }
        ensures place { OnOk result (series < length self.new.times) }
    {
        match series.checked_add(1) {
            Some(count) => self.times.resize(count, UNCHANGED),
            None => Err(AllocError),
        }
    }

    /// Notes a change of the series with this number at a time, in nanoseconds since the Unix
    /// epoch. [`ChangeTracker::ready`] must have made room for it. The cost is constant.
    #[inline(always)]
    pub fn track(&mut self, series: usize, time: i64)
        requires { HasRoom self.old series }
        ensures widened { times_of self.new series
            ≡ with_time self.old.near (times_of self.old series) time }
        ensures others { (i : ℕ) → i ≢ series → times_of self.new i ≡ times_of self.old i }
        ensures near { self.new.near ≡ self.old.near }
    {
        let times = self.times[series];
        list(&mut self.changed, series, &times);
        self.times[series] = times.with_time(self.near, time);
    }

    /// The series that have changed, in the order in which they did, with the keys that the replica
    /// has by number. The cost is linear in the number of these series.
    pub fn series<A: Cells>(
        &self,
        alloc: Global,
        replica: &Replica<A>,
    ) -> Result<Vec<ChangedSeries>, AllocError>
        ensures { IfOk result (λ series.
            AreChangedSeries replica.now.keys self.now.times series.items) }
    {
        series_numbered(alloc, replica, &self.changed, &self.times)
    }

    /// Forgets all changes. The cost is linear in the series that have changed.
    pub fn clear(&mut self)
        ensures none { (i : ℕ) → times_of self.new i ≡ UNCHANGED }
        ensures near { self.new.near ≡ self.old.near }
    {
        forget(&mut self.times, &self.changed);
        self.changed.clear();
    }
}

/// Lists a series, unless it has changed before.
#[inline(always)]
fn list(changed: &mut Vec<usize>, series: usize, times: &ChangeTimes)
    requires { vec_len changed.old < vec_capacity changed.old }
    ensures { changed.new.items ≡ (if is_changed times.now then changed.old.items
        else changed.old.items ++ series ∷ []) }
{
    if !times.is_changed() {
        changed.push_reserved(series);
    }
}

/// Forgets the changes of these series, which are all that have changed.
fn forget(times: &mut [ChangeTimes], changed: &[usize])
    requires { AreListed times.old changed.now }
    ensures { (i : ℕ) → times_at times.new i ≡ UNCHANGED }
{
    for series in changed {
        times[*series] = UNCHANGED;
    }
}
