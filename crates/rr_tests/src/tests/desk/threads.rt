//! A reader on a thread of its own.

use super::{fetched, key};
use rr_desk::{Keeper, Reader, open};
use rr_fakes::replicas::{MINUTE, minutes};
use rr_packed::PackedArchive;
use std::alloc::Global;
use std::sync::Wait;
use std::test::Fail;
use std::thread::{Threads, join};

/// The last value that a reader answers for the minute from 60 s on: 0 if nothing is known, and
/// none if the answer is neither that nor a number from 1 to 1,000.
fn last_value(alloc: Global, reader: &mut Reader<PackedArchive>) -> Option<u64> {
    let text = fetched(alloc, reader, b"LAST 60 60 120 m v")?;
    let value = text.strip_prefix(b"m v,60,")?.strip_suffix(b"\n")?;
    if value == b"U".as_slice() {
        return Some(0);
    }
    let value = str::from_utf8(value).ok()?.parse().ok()?;
    (1 <= value && value <= 1_000).then_some(value)
}

/// Whether each of 10,000 fetches gives a possible value, and none a smaller one than the fetch
/// before.
fn fetch_often(alloc: Global, reader: &mut Reader<PackedArchive>) -> bool {
    let mut last = 0;
    for _ in 0..10_000 {
        match last_value(alloc, reader) {
            Some(value) if value >= last => last = value,
            _ => return false,
        }
    }
    true
}

/// Whether the keeper puts the values from 1 to 1,000 into that minute, each later than the one
/// before it, and publishes after each.
fn put_often<R: Wait>(rt: &R, alloc: Global, keeper: &mut Keeper<PackedArchive>) -> bool {
    let Some(key) = key(alloc) else {
        return false;
    };
    for value in 1..1_001i64 {
        let time = MINUTE.saturating_add(value);
        if keeper.put(&key, time, value).is_err() || keeper.publish(rt).is_err() {
            return false;
        }
    }
    true
}

/// Fetches with a reader on a thread of its own, while the keeper puts and publishes.
fn fetch_beside<R: Threads + Wait + Sync>(
    rt: &R,
    alloc: Global,
    keeper: &mut Keeper<PackedArchive>,
    reader: &mut Reader<PackedArchive>,
) -> (bool, bool) {
    join(
        rt,
        move || fetch_often(alloc, reader),
        move || put_often(rt, alloc, keeper),
    )
}

#[test]
fn a_reader_never_goes_back_while_the_keeper_publishes(rt: HostRuntime) -> Result<(), Fail> {
    let replica = minutes::<PackedArchive>(rt.alloc(), 1, 3)?;
    let Ok((mut keeper, mut readers)) = open(rt.alloc(), &rt, replica, 1) else {
        panic!(&rt; "no desk");
    };
    let (climbs, published) = fetch_beside(&rt, rt.alloc(), &mut keeper, &mut readers[0]);
    let is_last = last_value(rt.alloc(), &mut readers[0]) == Some(1_000);
    keeper.close(&rt);
    assert_eq!(rt; (climbs, published, is_last), (true, true, true));
    Ok(())
}
