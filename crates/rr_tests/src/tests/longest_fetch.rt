//! Fetches: the longest answer.

use rr_fakes::replicas::one_sample;
use rr_fetch::{answer_text, parse_request};
use rr_packed::PackedArchive;
use rr_replica::Replica;
use std::alloc::Global;
use std::test::Fail;

/// The longest answer of a replica, and how many rows it has.
fn greatest_answer(alloc: Global, replica: &Replica<PackedArchive>) -> Option<(Vec<u8>, u32)> {
    let request = parse_request(alloc, b"MIN 60 0 6000000 m v", replica.schema()).ok()?;
    let text = answer_text(alloc, replica, &request).ok()?;
    Some((text, request.rows))
}

#[test]
fn an_answer_has_at_most_100_000_rows(rt: HostRuntime) -> Result<(), Fail> {
    let replica = one_sample::<PackedArchive>(rt.alloc(), 1)?;
    let (text, rows) = greatest_answer(rt.alloc(), &replica).expect(&rt, "an answer");
    // A row has 7 bytes besides the digits of its start; all rows have 681,479 such digits.
    let begins = text.starts_with(b"m v,0,U\nm v,60,7\nm v,120,U\n");
    assert_eq!(rt; (begins, text.len(), rows), (true, 1_381_479, 100_000));
    Ok(())
}
