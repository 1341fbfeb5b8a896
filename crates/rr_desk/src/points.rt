//! Points, put field by field.
ghost use Rattle.std.specs.Prelude.{◌≡◌, ◌↔◌, length, Err, IsTrue, IsFalse, unwrap_or};
ghost use Rattle.rr_point.specs.Key.{IsWritable};
ghost use Rattle.rr_point.specs.Point.{point_view};
ghost use Rattle.rr_desk.specs.KeeperState.{own_replica};
ghost use Rattle.rr_replica.specs.Becomes.{Becomes};

use crate::keeper::Keeper;
use rr_archive::Cells;
use rr_key::SeriesKey;
use rr_point::Point;
use rr_replica::{Hint, PutFault, Sink, WriteFault, is_ahead, write_point};
use std::mem::replace;

impl<A: Cells> Sink for Keeper<A> {
    ghost use Rattle.rr_desk.specs.KeeperState.{KeeperState};
    ghost use Rattle.rr_desk.specs.Points.{with_put};

    ghost State = { KeeperState };

    ghost state = { λ k. k };

    ghost replica = { own_replica };

    ghost with_put = { with_put };

    fn lacks_numbers(&self, count: usize) -> bool {
        self.copies.replica().lacks_numbers(count)
    }

    fn put(&mut self, key: &SeriesKey, time: i64, value: i64) -> Result<u64, PutFault> {
        Keeper::put(self, key, time, value)
    }
}

impl<A: Cells> Keeper<A> {
    ghost use Rattle.rr_replica.specs.Writing.{is_ahead, lacks_numbers, WritesPoint};
    ghost use Rattle.rr_desk.specs.Points.{with_put};

    /// Puts a sample of each field of a point, in the line's order, each under the next number, and
    /// returns how many. A point without a time takes `now`. Times are in nanoseconds since the
    /// Unix epoch, the lead in nanoseconds. Readers don't see the samples until they are published.
    ///
    /// Refused as `AheadOfClock` if the point's own time is greater than `now + lead`, and as
    /// `NumbersSpent` if fewer numbers are left than the point has fields; nothing has then
    /// changed. If memory runs out, `Memory` says how many fields, from the first on, were put. The
    /// cost is that of writing the keys and of the puts.
    pub fn write(
        &mut self,
        point: &Point<'_>,
        now: i64,
        lead: Option<u64>,
    ) -> Result<u32, WriteFault>
        requires { IsWritable (point_view point.now) }
        ensures { WritesPoint own_replica with_put self.old self.new (point_view point.now)
            (length point.now.fields.items) now lead result }
    {
        let alloc = self.alloc;
        let mut text = replace(&mut self.text, Vec::new(alloc));
        let written = write_point(self, &mut text, alloc, point, now, lead);
        self.text = text;
        written
    }

    /// Puts a sample of a key, as [`Keeper::write`] puts that of a point whose only field has this
    /// key.
    ///
    /// The hint says where its series is, and the operation takes over the key. Refused as
    /// `AheadOfClock`, `NumbersSpent` or `Memory`, as there; nothing has then changed. The cost is
    /// that of the put.
    pub fn write_sample(
        &mut self,
        hint: Hint,
        key: SeriesKey,
        time: Option<i64>,
        value: i64,
        now: i64,
        lead: Option<u64>,
    ) -> Result<(), WriteFault>
        ensures state { Becomes self.old (with_put self.old key (unwrap_or time now) value)
            self.new result }
        ensures ahead { (result ≡ Err WriteFault.AheadOfClock) ↔ IsTrue (is_ahead time now lead) }
        ensures spent { (result ≡ Err WriteFault.NumbersSpent) ↔ (IsFalse (is_ahead time now lead)
            × IsTrue (lacks_numbers (own_replica self.old) 1)) }
    {
        if is_ahead(time, now, lead) {
            return Err(WriteFault::AheadOfClock);
        }
        if self.copies.replica().lacks_numbers(1) {
            return Err(WriteFault::NumbersSpent);
        }
        match self.push_sample(hint, key, time.unwrap_or(now), value) {
            Ok(_) => Ok(()),
            Err(_) => Err(WriteFault::Memory { put: 0 }),
        }
    }
}
