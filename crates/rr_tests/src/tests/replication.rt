//! Parts of a journal, given and read.
use super::journal::{schema, start};
use rr_cells::Cell;
use rr_fakes::journals::RECORDS;
use rr_journal::Cursor;
use rr_replication::{MAX_PART, Part, PartFault, part_from, read_part};
use std::alloc::Global;

/// What a peer makes of a part at its place: the result, where it then is, and how many cells came.
fn read(
    alloc: Global,
    part: &[u8],
    place: &mut Cursor,
) -> Option<(Result<(), PartFault>, u64, usize)> {
    let schema = schema(alloc)?;
    let mut cells: Vec<Cell> = Vec::new(alloc);
    let answer = read_part(alloc, part, place, &schema, &mut cells);
    Some((answer, place.offset, cells.len()))
}

#[test]
fn a_part_gives_the_cells_of_its_records(rt: HostRuntime) {
    let mut place = start();
    let all = read(rt.alloc(), &RECORDS, &mut place);
    let nothing = read(rt.alloc(), &[], &mut place);
    assert_eq!(rt;
        (all, nothing),
        (Some((Ok(()), 167, 6)), Some((Ok(()), 167, 0)))
    );
}

#[test]
fn a_cut_record_is_asked_for_again(rt: HostRuntime) {
    let mut place = start();
    let first = read(rt.alloc(), &RECORDS[..20], &mut place);
    let second = read(rt.alloc(), &RECORDS[15..120], &mut place);
    let third = read(rt.alloc(), &RECORDS[101..], &mut place);
    assert_eq!(rt; first, Some((Ok(()), 15, 0)));
    assert_eq!(rt; second, Some((Ok(()), 101, 6)));
    assert_eq!(rt; third, Some((Ok(()), 167, 0)));
}

#[test]
fn a_part_without_a_whole_record_is_damaged(rt: HostRuntime) {
    let short = read(rt.alloc(), &RECORDS[..14], &mut start());
    let elsewhere = read(rt.alloc(), &RECORDS[15..], &mut start());
    let damaged = Some((Err(PartFault::Damaged), 0, 0));
    assert_eq!(rt; (short, elsewhere), (damaged, damaged));
}

/// The part that is given of a journal of three files.
fn given(from: u64) -> Part {
    part_from(&[300, 100, 9_000_000], 10_000_000, from)
}

#[test]
fn a_part_lies_in_one_file(rt: HostRuntime) {
    let file = 300;
    let first = Part::Bytes {
        file,
        skip: 0,
        len: MAX_PART,
    };
    let last = Part::Bytes {
        file,
        skip: 8_999_699,
        len: 1,
    };
    assert_eq!(rt; (given(300), given(8_999_999)), (first, last));
}

#[test]
fn what_a_journal_lacks_is_gone(rt: HostRuntime) {
    assert_eq!(rt; given(10_000_000), Part::Nothing);
    assert_eq!(rt; (given(99), given(10_000_001)), (Part::Gone, Part::Gone));
}
