//! Schemas: slots and places, what a copy has, and one archive more.

use rr_base::{ArchiveSpec, Schema, SchemaFault};
use std::alloc::Global;
use std::test::Fail;

const MINUTE: ArchiveSpec = ArchiveSpec {
    steps: 1,
    rows: 3,
    num: 0,
    den: 1,
};

/// Five steps, at most half of which may be unknown.
const FIVE_MINUTES: ArchiveSpec = ArchiveSpec {
    steps: 5,
    rows: 2,
    num: 1,
    den: 2,
};

const HOUR: ArchiveSpec = ArchiveSpec {
    steps: 60,
    rows: 1,
    num: 0,
    den: 1,
};

fn three_archives(alloc: Global) -> Result<Schema, SchemaFault> {
    Schema::new(alloc, 60, &[MINUTE, FIVE_MINUTES, HOUR])
}

#[test]
fn times_fall_into_slots_and_places(rt: HostRuntime) -> Result<(), Fail> {
    let schema = three_archives(rt.alloc())?;
    assert!(rt; schema.archives().len() == 3);
    for (time, want) in [
        (0, (0, 0, 0, 0)),
        (59_999_999_999, (0, 0, 0, 0)),
        (60_000_000_000, (1, 0, 0, 1)),
        (299_999_999_999, (4, 0, 0, 4)),
        (300_000_000_000, (5, 0, 1, 0)),
        (-1, (-1, 0, -1, 4)),
        (-60_000_000_000, (-1, 0, -1, 4)),
        (-60_000_000_001, (-2, 0, -1, 3)),
        (-300_000_000_000, (-5, 0, -1, 0)),
        (-300_000_000_001, (-6, 0, -2, 4)),
        (i64::MAX, (153_722_867, 0, 30_744_573, 2)),
        (i64::MIN, (-153_722_868, 0, -30_744_574, 2)),
    ] {
        let minute = (schema.slot(0, time), schema.place(0, time));
        let five = (schema.slot(1, time), schema.place(1, time));
        assert_eq!(rt; (minute.0, minute.1, five.0, five.1), want);
    }
    Ok(())
}

#[test]
fn a_schema_has_what_it_was_made_of(rt: HostRuntime) -> Result<(), Fail> {
    let schema = three_archives(rt.alloc())?;
    let copy = schema.copy(rt.alloc())?;
    assert!(rt; copy.archives().len() == 3);
    let spans = (copy.span(0), copy.span(1), copy.span(2));
    let are_same = copy.archives() == [MINUTE, FIVE_MINUTES, HOUR].as_slice();
    assert_eq!(rt;
        (copy.step(), copy.byte_len(), spans, are_same),
        (60, 32, (60, 300, 3_600), true)
    );
    Ok(())
}

#[test]
fn the_archive_that_was_added_is_found(rt: HostRuntime) -> Result<(), Fail> {
    let schema = three_archives(rt.alloc())?;
    assert!(rt; schema.archives().len() == 3);
    let old = schema.without(rt.alloc(), 1)?;
    let is_left = old.archives() == [MINUTE, HOUR].as_slice();
    assert_eq!(rt;
        (old.step(), is_left, schema.added(&old), old.added(&schema)),
        (60, true, Some(1), None)
    );
    Ok(())
}

#[test]
fn a_schema_has_bytes(rt: HostRuntime) -> Result<(), Fail> {
    let bytes = Schema::new(rt.alloc(), 60, &[MINUTE])?.bytes(rt.alloc())?;
    assert!(rt; bytes.as_slice() == [0, 0, 0, 0x3c, 1, 1, 0, 0, 0, 3, 0, 0, 0, 1].as_slice());
    Ok(())
}
