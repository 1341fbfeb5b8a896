//! A journal's bytes, written and read, cut and changed.
//!
//! The bytes were made from the format by a script in another language.
use rr_base::{ArchiveSpec, Counted, Origin, Schema};
use rr_fakes::journals::{HEADER, KEY, RECORDS, WITNESSED};
use rr_journal::{
    Cursor, Group, JournalFault, MemoryJournal, RawRecord, Record, Step, Stop, commit, decode,
    encode, fits_between_syncs, header_bytes, header_from, read_record,
};
use rr_key::SeriesKey;
use std::alloc::Global;

/// The packed cells of the first group.
const PACKED: [u8; 32] = [
    0x06, 0x80, 0xb0, 0x9d, 0xc2, 0xdf, 0x01, 0x83, 0x0a, 0xc8, 0x01, 0x14, 0x01, 0x02, 0x87, 0x0e,
    0x09, 0xe8, 0x07, 0x02, 0x01, 0x02, 0x0e, 0x03, 0x02, 0x11, 0x02, 0xe1, 0x07, 0x01, 0x02, 0x00,
];

/// Where each record ends.
const ENDS: [usize; 4] = [15, 101, 146, 167];

/// A schema of three one-minute rows.
pub(super) fn schema(alloc: Global) -> Option<Schema> {
    let archive = ArchiveSpec {
        steps: 1,
        rows: 3,
        num: 0,
        den: 1,
    };
    Schema::new(alloc, 60, &[archive]).ok()
}

/// Where the journal begins.
pub(super) fn start() -> Cursor {
    Cursor::start([0, 1, 2, 3, 4, 5, 6, 7, 8, 9, 10, 11, 12, 13, 14, 15])
}

/// A record of the packed cells and of a group without cells.
fn cells(alloc: Global) -> Option<Record> {
    let mut groups = Vec::new(alloc);
    groups
        .push(Group {
            key: SeriesKey::parse_text(alloc, b"cpu value").ok()?,
            archive: 0,
            packed: Vec::from_slice(alloc, &PACKED).ok()?,
        })
        .ok()?;
    let key = SeriesKey::parse_text(alloc, b"disk,host=a free").ok()?;
    groups.push(Group::new(alloc, key, 0, &[]).ok()?).ok()?;
    Some(Record::Cells(groups))
}

fn two(alloc: Global, first: &Record, second: &Record) -> Option<Vec<RawRecord>> {
    let mut records = Vec::new(alloc);
    records.push(encode(alloc, first).ok()?).ok()?;
    records.push(encode(alloc, second).ok()?).ok()?;
    Some(records)
}

/// The bytes of a journal written in two batches.
fn written(alloc: Global, first: &[RawRecord], second: &[RawRecord]) -> Option<Vec<u8>> {
    if !fits_between_syncs(first) || !fits_between_syncs(second) {
        return None;
    }
    let mut cursor = start();
    let mut bytes = header_bytes(alloc, &schema(alloc)?, &cursor).ok()?;
    let mut journal = MemoryJournal::new(Vec::new(alloc), KEY);
    match commit(&mut journal, &mut cursor, first) {
        Ok(()) => (),
        Err(_) => return None,
    }
    match commit(&mut journal, &mut cursor, second) {
        Ok(()) => (),
        Err(_) => return None,
    }
    bytes.extend_from_slice(journal.bytes()).ok()?;
    Some(bytes)
}

/// The bytes of the four records after a header.
fn all_bytes(alloc: Global) -> Option<Vec<u8>> {
    let cursor = Cursor {
        id: [0xff; 16],
        offset: 4096,
        digest: [1, 2, 3, 4, 5, 6, 7, 8],
    };
    let origin = Record::Origin(Origin::new(1001).ok()?);
    let first = two(alloc, &origin, &cells(alloc)?)?;
    let second = two(alloc, &Record::Cursor(cursor), &Record::End(6))?;
    written(alloc, &first, &second)
}

/// The bytes of a file of version 1.
fn first_version(alloc: Global) -> Option<Vec<u8>> {
    let mut bytes = Vec::from_slice(alloc, &HEADER).ok()?;
    bytes.extend_from_slice(&RECORDS).ok()?;
    Some(bytes)
}

#[test]
fn a_journal_is_written_as_the_format_says(rt: HostRuntime) {
    let wanted = Vec::from_slice(rt.alloc(), &WITNESSED).ok();
    assert_eq!(rt; all_bytes(rt.alloc()), wanted);
}

/// How many records are read, each of which means something, and why reading stops.
fn read(alloc: Global, bytes: &[u8]) -> Result<(usize, Option<Stop>), JournalFault> {
    let Some(schema) = schema(alloc) else {
        return Err(JournalFault::Memory);
    };
    let mut input = Counted::new(bytes);
    let mut cursor = header_from(alloc, &mut input, &schema)?;
    for count in 0..10 {
        match read_record(alloc, &mut input, &mut cursor)? {
            Step::Whole(raw) => {
                let _record = decode(alloc, &raw, &schema)?;
            }
            Step::Stopped(stop) => return Ok((count, Some(stop))),
        }
    }
    Ok((10, None))
}

/// How many records end within this many bytes of records.
fn ended_within(len: usize) -> usize {
    let mut count = 0;
    for end in 0..ENDS.len() {
        if ENDS[end] <= len {
            count = end + 1;
        }
    }
    count
}

/// Whether this many bytes end with a whole record, or are none.
fn is_end(len: usize) -> bool {
    len == 0 || ENDS.as_slice().contains(&len)
}

/// Whether a prefix of this many bytes is read as it should be.
fn is_read(alloc: Global, bytes: &[u8], len: usize) -> bool {
    if len > bytes.len() {
        return false;
    }
    let found = read(alloc, &bytes[..len]);
    if len < HEADER.len() {
        return found == Err(JournalFault::Short);
    }
    let left = len - HEADER.len();
    let stop = if is_end(left) { Stop::End } else { Stop::Torn };
    found == Ok((ended_within(left), Some(stop)))
}

#[test]
fn each_prefix_is_read_up_to_its_last_whole_record(rt: HostRuntime) {
    let bytes = first_version(rt.alloc()).unwrap_or(Vec::new(rt.alloc()));
    let mut right = 0u32;
    for len in 0..=bytes.len() {
        right = right.saturating_add(u32::from(is_read(rt.alloc(), &bytes, len)));
    }
    assert_eq!(rt; right, 230);
}

/// Whether a change of the byte at a place is seen: in the header it is refused; in a record,
/// reading stops before that record.
fn is_seen(alloc: Global, bytes: &[u8], at: usize) -> bool {
    let Ok(mut changed) = Vec::from_slice(alloc, bytes) else {
        return false;
    };
    let Some(byte) = changed.get_mut(at) else {
        return false;
    };
    *byte ^= 4;
    let found = read(alloc, &changed);
    if at < HEADER.len() {
        return found.is_err();
    }
    found == Ok((ended_within(at - HEADER.len()), Some(Stop::Torn)))
}

#[test]
fn each_changed_byte_is_seen(rt: HostRuntime) {
    let bytes = first_version(rt.alloc()).unwrap_or(Vec::new(rt.alloc()));
    let mut seen = 0u32;
    for at in 0..bytes.len() {
        seen = seen.saturating_add(u32::from(is_seen(rt.alloc(), &bytes, at)));
    }
    assert_eq!(rt; seen, 229);
}
