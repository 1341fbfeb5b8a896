//! Replicas with one-minute rows.

use anyhow::Result;
use rr_archive::Cells;
use rr_base::{ArchiveSpec, Origin, Schema};
use rr_key::SeriesKey;
use rr_replica::Replica;
use std::alloc::Global;

/// A minute, in nanoseconds.
pub const MINUTE: i64 = 60_000_000_000;

/// A schema of `rows` one-minute rows.
pub fn schema(alloc: Global, rows: u32) -> Result<Schema> {
    let rows = ArchiveSpec {
        steps: 1,
        rows,
        num: 0,
        den: 1,
    };
    Ok(Schema::new(alloc, 60, &[rows])?)
}

/// An empty replica of an origin, with `rows` one-minute rows.
pub fn minutes<A: Cells>(alloc: Global, origin: u16, rows: u32) -> Result<Replica<A>> {
    Ok(Replica::new(alloc, &schema(alloc, rows)?, Origin::new(origin)?)?)
}

/// Puts 7 at the beginning of each of the first `count` minutes.
fn fill<A: Cells>(replica: &mut Replica<A>, key: &SeriesKey, count: u32) -> Result<()> {
    for minute in 0..count {
        replica.put(key, i64::from(minute).saturating_mul(MINUTE), 7)?;
    }
    Ok(())
}

/// One that holds 7 at the beginning of each of the first `count` minutes, for the key `m v`.
pub fn filled<A: Cells>(alloc: Global, origin: u16, rows: u32, count: u32) -> Result<Replica<A>> {
    let mut replica = minutes(alloc, origin, rows)?;
    fill(&mut replica, &SeriesKey::parse_text(alloc, b"m v")?, count)?;
    Ok(replica)
}

/// One with three rows that holds 7 at one minute after the epoch, for the key `m v`.
pub fn one_sample<A: Cells>(alloc: Global, origin: u16) -> Result<Replica<A>> {
    let mut replica = minutes(alloc, origin, 3)?;
    let key = SeriesKey::parse_text(alloc, b"m v")?;
    replica.put(&key, MINUTE, 7)?;
    Ok(replica)
}
