//! Samples of known series, put one after the other.
ghost use Rattle.std.specs.Prelude.{◌≡◌, ℕ, ◌≤◌, length, map, take, unwrap_or};
ghost use Rattle.rr_text.specs.declared.limits.TheConstants.{MAX_FIELDS};
ghost use Rattle.rr_desk.specs.KeeperState.{own_replica};
ghost use Rattle.rr_replica.specs.Becomes.{Becomes};

use crate::keeper::Keeper;
use rr_archive::Cells;
use rr_key::SeriesKey;
use rr_replica::{Hint, WriteFault, is_ahead};
use std::alloc::AllocError;

/// A value of a series.
#[derive(Drop)]
pub struct KeyedValue {
    /// The key of the series.
    pub key: SeriesKey,
    /// Where the series is likely to be.
    pub hint: Hint,
    /// The value.
    pub value: i64,
}

impl<A: Cells> Keeper<A> {
    ghost use Rattle.rr_replica.specs.Writing.{is_ahead, lacks_numbers, put_before, PutsFields, WritesFields};
    ghost use Rattle.rr_desk.specs.Points.{keyed_value, with_put, with_samples};

    /// Puts a sample of each value, in order, as [`Keeper::write`] puts those of a point whose
    /// fields have these keys, and returns how many.
    ///
    /// Refused as `AheadOfClock`, `NumbersSpent` or `Memory`, as there. The cost is that of the
    /// puts; if a series is where its hint says, its key is compared once and not looked up.
    pub fn write_samples(
        &mut self,
        values: &[KeyedValue],
        time: Option<i64>,
        now: i64,
        lead: Option<u64>,
    ) -> Result<u32, WriteFault>
        requires { length values.now ≤ MAX_FIELDS }
        ensures { WritesFields (is_ahead time now lead)
            (lacks_numbers (own_replica self.old) (length values.now)) (length values.now)
            (with_samples self.old (unwrap_or time now) (map keyed_value values.now))
            self.new
            (λ fault. self.new
            ≡ with_samples self.old (unwrap_or time now)
            (take (put_before fault) (map keyed_value values.now))) result }
    {
        if is_ahead(time, now, lead) {
            return Err(WriteFault::AheadOfClock);
        }
        if self.copies.replica().lacks_numbers(values.len()) {
            return Err(WriteFault::NumbersSpent);
        }
        self.write_values(values, time.unwrap_or(now))
    }

    /// Puts a sample of each value.
    fn write_values(&mut self, values: &[KeyedValue], time: i64) -> Result<u32, WriteFault>
        requires { length values.now ≤ MAX_FIELDS }
        ensures { PutsFields (length values.now)
            (with_samples self.old time (map keyed_value values.now))
            self.new
            (λ fault. (put : ℕ) × (fault ≡ WriteFault.Memory put)
            × (self.new ≡ with_samples self.old time (take put (map keyed_value values.now))))
            result }
    {
        let mut put = 0;
        for value in values {
            if self.write_value(value, time).is_err() {
                return Err(WriteFault::Memory { put });
            }
            put += 1;
        }
        Ok(put)
    }

    /// Puts a sample of a value.
    fn write_value(&mut self, value: &KeyedValue, time: i64) -> Result<(), AllocError>
        ensures state { Becomes self.old (with_put self.old value.now.key time value.now.value)
            self.new result }
    {
        let key = value.key.copy()?;
        match self.push_sample(value.hint, key, time, value.value) {
            Ok(_) => Ok(()),
            Err(_) => Err(AllocError),
        }
    }
}
