//! The fields of a point, put one after the other.
ghost use Rattle.std.specs.Prelude.{◌≡◌, ℕ, ℤ, List, None, length, take};
ghost use Rattle.rr_key.specs.Making.{making_fault};
ghost use Rattle.rr_cells.specs.ReplicaState.{ReplicaState};
ghost use Rattle.rr_point.specs.Key.{IsWritable, key_text, names_of};
ghost use Rattle.rr_point.specs.Point.{point_view};
ghost use Rattle.rr_replica.specs.Becomes.{Becomes};
ghost use Rattle.rr_replica.specs.Calls.{PutsNext};
ghost use Rattle.rr_replica.specs.ReplicaWithRoom.{replica_state};
ghost use Rattle.rr_replica.specs.Writing.{all_put, is_ahead, lacks_numbers, CanPutFields, PutsFields, WritesPoint};

use crate::fault::{PutFault, WriteFault};
use crate::replica::Replica;
use rr_archive::Cells;
use rr_key::SeriesKey;
use rr_point::{Field, Point};
use std::alloc::{AllocError, Global};
use std::mem::replace;

/// Takes samples, each under the next number of an origin.
///
/// Contracts see it as a state, by the replica that this stands for, and by what a put makes of it.
pub trait Sink {
    ghost State: { Type 0 };

    ghost state: { Self → State };

    ghost replica: { State → ReplicaState };

    ghost with_put: { State → List ℕ → ℤ → ℤ → State };

    /// Whether fewer than `count` numbers are left.
    fn lacks_numbers(&self, count: usize) -> bool
        ensures { result ≡ lacks_numbers (replica (state self.now)) count };

    /// Puts a sample of a key under the next number, and returns that. The time is in nanoseconds
    /// since the Unix epoch. Refused as `NumbersSpent` if the next number is past 2^40. After a
    /// refusal nothing has changed.
    fn put(&mut self, key: &SeriesKey, time: i64, value: i64) -> Result<u64, PutFault>
        ensures { PutsNext (replica (state self.old)).next (state self.old)
            (with_put (state self.old) key.now time value) (state self.new) result };
}

impl<A: Cells> Sink for Replica<A> {
    ghost use Rattle.rr_cells.specs.ReplicaState.{with_put};

    ghost State = { ReplicaState };

    ghost state = { λ r. replica_state r };

    ghost replica = { λ h. h };

    ghost with_put = { with_put };

    fn lacks_numbers(&self, count: usize) -> bool {
        Replica::lacks_numbers(self, count)
    }

    fn put(&mut self, key: &SeriesKey, time: i64, value: i64) -> Result<u64, PutFault> {
        Replica::put(self, key, time, value)
    }
}

impl<A: Cells> Replica<A> {
    ghost use Rattle.rr_cells.specs.ReplicaState.{with_put};

    /// Puts a sample of each field of a point, in the line's order, each under the next number, and
    /// returns how many. A point without a time takes `now`. Times are in nanoseconds since the
    /// Unix epoch, the lead in nanoseconds.
    ///
    /// Refused as `AheadOfClock` if the point's own time is greater than `now + lead`, and as
    /// `NumbersSpent` if fewer numbers are left than the point has fields; nothing has then
    /// changed. If memory runs out, `Memory` says how many fields, from the first on, were put. The
    /// cost is that of making the keys and of the puts.
    pub fn write(
        &mut self,
        point: &Point<'_>,
        now: i64,
        lead: Option<u64>,
    ) -> Result<u32, WriteFault>
        requires { IsWritable (point_view point.now) }
        ensures { WritesPoint (λ h. h) with_put (replica_state self.old) (replica_state self.new)
            (point_view point.now) (length point.now.fields.items) now lead result }
    {
        let alloc = self.alloc;
        let mut text = replace(&mut self.text, Vec::new(alloc));
        let written = write_point(self, &mut text, alloc, point, now, lead);
        self.text = text;
        written
    }
}

/// Puts a sample of each field of a point, with the results, refusals and cost of
/// [`Replica::write`]. Keys are written over `text`, whose memory is reused; what is left in it has
/// no meaning.
pub fn write_point<S: Sink>(
    sink: &mut S,
    text: &mut Vec<u8>,
    alloc: Global,
    point: &Point<'_>,
    now: i64,
    lead: Option<u64>,
) -> Result<u32, WriteFault>
    requires { IsWritable (point_view point.now) }
    ensures { WritesPoint S.replica S.with_put (S.state sink.old) (S.state sink.new)
        (point_view point.now) (length point.now.fields.items) now lead result }
{
    if is_ahead(point.time, now, lead) {
        return Err(WriteFault::AheadOfClock);
    }
    if sink.lacks_numbers(point.fields.len()) {
        return Err(WriteFault::NumbersSpent);
    }
    write_fields(sink, text, alloc, point, point.time.unwrap_or(now))
}

/// Puts a sample of each field of a point.
fn write_fields<S: Sink>(
    sink: &mut S,
    text: &mut Vec<u8>,
    alloc: Global,
    point: &Point<'_>,
    time: i64,
) -> Result<u32, WriteFault>
    requires { CanPutFields (point_view point.now) (length point.now.fields.items) }
    ensures { PutsFields (length point.now.fields.items)
        (all_put S.with_put (S.state sink.old) (point_view point.now) time
        (point_view point.now).fields)
        (S.state sink.new)
        (λ fault. (put : ℕ) × (fault ≡ WriteFault.Memory put)
        × (S.state sink.new ≡ all_put S.with_put (S.state sink.old) (point_view point.now) time
        (take put (point_view point.now).fields))) result }
{
    let mut put = 0;
    for field in &point.fields {
        if write_field(sink, text, alloc, point, time, field).is_err() {
            return Err(WriteFault::Memory { put });
        }
        put += 1;
    }
    Ok(put)
}

/// Puts the sample of a field of a point.
fn write_field<S: Sink>(
    sink: &mut S,
    text: &mut Vec<u8>,
    alloc: Global,
    point: &Point<'_>,
    time: i64,
    field: &Field<'_>,
) -> Result<(), AllocError>
    requires { making_fault (names_of (point_view point.now) field.now.key.now) ≡ None }
    ensures { Becomes (S.state sink.old)
        (S.with_put (S.state sink.old) (key_text (point_view point.now) field.now.key.now) time
        field.now.value)
        (S.state sink.new) result }
{
    let mut written = replace(text, Vec::new(alloc));
    point.write_key(alloc, &mut written, field.key)?;
    let key = SeriesKey::from_vec(alloc, written);
    let put = sink.put(&key, time, field.value);
    *text = key.into_vec();
    match put {
        Ok(_) => Ok(()),
        Err(_) => Err(AllocError),
    }
}

/// Whether a point's own time is later than the clock's by more than the lead.
pub fn is_ahead(time: Option<i64>, now: i64, lead: Option<u64>) -> bool
    ensures { result ≡ is_ahead time now lead }
{
    match (time, lead) {
        (Some(time), Some(lead)) => i128::from(now) + i128::from(lead) < i128::from(time),
        _ => false,
    }
}
