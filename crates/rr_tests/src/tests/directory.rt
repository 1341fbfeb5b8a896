//! A replica from the files of a directory.
//!
//! The bytes were made from the format by a script in another language.
use super::journal::schema;
use rr_archive::PlainArchive;
use rr_base::Origin;
use rr_directory::{
    FileFault, FileName, MemoryDirectory, MemoryFile, Refusal, last_origin, recover, start_of,
};
use rr_fakes::journals::{HEADER, HEADER_101, KEY, RECORDS, WITNESSED, file};
use rr_journal::Key;
use rr_replica::Replica;
use std::alloc::Global;

/// The header of a file that begins after all four records, and of their checkpoint.
pub(super) const HEADER_167: [u8; 62] = [
    0x52, 0x52, 0x4a, 0x4e, 0x01, 0x00, 0x00, 0x0e, 0x00, 0x00, 0x00, 0x3c, 0x01, 0x01, 0x00, 0x00,
    0x00, 0x03, 0x00, 0x00, 0x00, 0x01, 0x00, 0x01, 0x02, 0x03, 0x04, 0x05, 0x06, 0x07, 0x08, 0x09,
    0x0a, 0x0b, 0x0c, 0x0d, 0x0e, 0x0f, 0x00, 0x00, 0x00, 0x00, 0x00, 0x00, 0x00, 0xa7, 0x8f, 0x4b,
    0xf2, 0xce, 0x53, 0x71, 0x55, 0x65, 0x56, 0xe6, 0x94, 0x60, 0xcd, 0xb4, 0xf0, 0x1a,
];

/// The records of that checkpoint: the six cells and its end.
pub(super) const CHECKPOINT: [u8; 107] = [
    0x00, 0x00, 0x00, 0x49, 0x81, 0x00, 0x09, 0x63, 0x70, 0x75, 0x20, 0x76, 0x61, 0x6c, 0x75, 0x65,
    0x00, 0x00, 0x00, 0x00, 0x20, 0x06, 0x80, 0xb0, 0x9d, 0xc2, 0xdf, 0x01, 0x83, 0x0a, 0xc8, 0x01,
    0x14, 0x01, 0x02, 0x87, 0x0e, 0x09, 0xe8, 0x07, 0x02, 0x01, 0x02, 0x0e, 0x03, 0x02, 0x11, 0x02,
    0xe1, 0x07, 0x01, 0x02, 0x00, 0x00, 0x10, 0x64, 0x69, 0x73, 0x6b, 0x2c, 0x68, 0x6f, 0x73, 0x74,
    0x3d, 0x61, 0x20, 0x66, 0x72, 0x65, 0x65, 0x00, 0x00, 0x00, 0x00, 0x02, 0x00, 0x00, 0x7f, 0xe4,
    0x31, 0x04, 0x28, 0xaa, 0xdf, 0x47, 0x00, 0x00, 0x00, 0x08, 0x04, 0x00, 0x00, 0x00, 0x00, 0x00,
    0x00, 0x00, 0x06, 0x1a, 0x13, 0xe5, 0xaf, 0x18, 0xf0, 0xb5, 0x0b,
];

/// A record after all four: the origin 1002.
const ORIGIN_1002: [u8; 15] = [
    0x00, 0x00, 0x00, 0x02, 0x82, 0x03, 0xea, 0x9c, 0x47, 0x37, 0x86, 0xe5, 0x51, 0x1f, 0x69,
];

/// What a recovery tells: how many cells are recovered, the last origin, where the journal ends and
/// how many bytes are torn; or which file is refused, and why.
pub(super) type Told = Result<(usize, Option<Origin>, Option<u64>, u64), Refusal>;

/// What a recovery of these files under the origin 9, with this key of their witnesses, tells.
fn told_with(alloc: Global, files: &[MemoryFile<'_>], key: Option<Key>) -> Option<Told> {
    let schema = schema(alloc)?;
    let origin = Origin::new(9).ok()?;
    let directory = MemoryDirectory::new(files);
    let mut replica: Replica<PlainArchive> = Replica::new(alloc, &schema, origin).ok()?;
    let mut names = Vec::new(alloc);
    for file in files {
        names.push(file.name).ok()?;
    }
    let start = start_of(alloc, &names).ok()?;
    let recovered = match recover(alloc, &directory, &start.files, &schema, key, &mut replica) {
        Ok(recovered) => recovered,
        Err(refusal) => return Some(Err(refusal)),
    };
    let origin = last_origin(alloc, &directory, &start.files, &schema).ok()?;
    if origin != recovered.found.origin {
        return None;
    }
    let end = recovered.end.map(|end| end.offset);
    Some(Ok((replica.cell_count(), origin, end, recovered.torn)))
}

/// The same without a key.
pub(super) fn told(alloc: Global, files: &[MemoryFile<'_>]) -> Option<Told> {
    told_with(alloc, files, None)
}

/// A file of the journal.
fn journal(offset: u64, bytes: &[u8]) -> MemoryFile<'_> {
    MemoryFile {
        name: FileName::Journal(offset),
        bytes,
    }
}

/// Texts, and the name that each spells, if any.
const NAMES: [(&[u8], Option<FileName>); 8] = [
    (
        b"journal-00000000000000000167.rrj",
        Some(FileName::Journal(167)),
    ),
    (
        b"checkpoint-00000000000000000000.rrj",
        Some(FileName::Checkpoint(0)),
    ),
    (
        b"journal-18446744073709551615.rrj",
        Some(FileName::Journal(u64::MAX)),
    ),
    (b"journal-18446744073709551616.rrj", None),
    (b"journal-167.rrj", None),
    (b"journal-00000000000000000167.rrj.new", None),
    (b"checkpoint-0000000000000000000a.rrj", None),
    (b"lock", None),
];

#[test]
fn names_have_one_spelling(rt: HostRuntime) {
    for (text, name) in NAMES {
        assert_eq!(rt; FileName::parse(text), name);
    }
}

#[test]
fn files_that_chain_are_read_in_order(rt: HostRuntime) {
    let (first, second) = RECORDS.split_at(101);
    let first = file(rt.alloc(), &HEADER, first).unwrap_or(Vec::new(rt.alloc()));
    let second = file(rt.alloc(), &HEADER_101, second).unwrap_or(Vec::new(rt.alloc()));
    let files = [journal(101, &second), journal(0, &first)];
    let wanted = Ok((6, Origin::new(1001).ok(), Some(167), 0));
    assert_eq!(rt; told(rt.alloc(), &files), Some(wanted));
}

#[test]
fn a_checkpoint_stands_for_the_journal_before_it(rt: HostRuntime) {
    let old = file(rt.alloc(), &HEADER, &RECORDS[..15]).unwrap_or(Vec::new(rt.alloc()));
    let checkpoint = file(rt.alloc(), &HEADER_167, &CHECKPOINT).unwrap_or(Vec::new(rt.alloc()));
    let last = file(rt.alloc(), &HEADER_167, &ORIGIN_1002).unwrap_or(Vec::new(rt.alloc()));
    let name = FileName::Checkpoint(167);
    let newest = MemoryFile {
        name,
        bytes: &checkpoint,
    };
    let files = [journal(0, &old), journal(167, &last), newest];
    let wanted = Ok((6, Origin::new(1002).ok(), Some(182), 0));
    assert_eq!(rt; told(rt.alloc(), &files), Some(wanted));
}

/// What is told if this many bytes are cut off the first file, and this many off the second.
fn told_of_cut(alloc: Global, first: usize, second: usize) -> Option<Told> {
    let all = file(alloc, &HEADER, &RECORDS[..101])?;
    let rest = file(alloc, &HEADER_101, &RECORDS[101..])?;
    let files = [
        journal(0, &all[..all.len().saturating_sub(first)]),
        journal(101, &rest[..rest.len().saturating_sub(second)]),
    ];
    told(alloc, &files)
}

#[test]
fn the_last_file_alone_may_be_torn(rt: HostRuntime) {
    let torn = Ok((6, Origin::new(1001).ok(), Some(146), 20));
    assert_eq!(rt; told_of_cut(rt.alloc(), 0, 1), Some(torn));
    let file = FileName::Journal(0);
    let fault = FileFault::Torn;
    assert_eq!(rt;
        told_of_cut(rt.alloc(), 1, 0),
        Some(Err(Refusal { file, fault }))
    );
    let file = FileName::Journal(101);
    let fault = FileFault::FileMissing(15);
    assert_eq!(rt;
        told_of_cut(rt.alloc(), 86, 0),
        Some(Err(Refusal { file, fault }))
    );
}

/// How many bytes of the first batch of the file with witnesses there are, behind the header.
const FIRST_BATCH: usize = 122;

/// Whether that file is refused as damaged once the byte at a place is changed.
fn is_damaged(alloc: Global, at: usize) -> Option<bool> {
    let mut bytes = Vec::from_slice(alloc, &WITNESSED).ok()?;
    let byte = bytes.get_mut(at)?;
    *byte ^= 4;
    let told = told_with(alloc, &[journal(0, &bytes)], Some(KEY))?;
    let Err(refusal) = told else {
        return Some(false);
    };
    Some(matches!(refusal.fault, FileFault::Damaged { .. }))
}

/// How many changed bytes of these are told as damage.
fn damaged(alloc: Global, places: std::ops::Range<usize>) -> usize {
    places
        .filter(|at: &usize| is_damaged(alloc, *at) == Some(true))
        .count()
}

#[test]
fn a_changed_byte_of_what_was_synced_is_damage(rt: HostRuntime) {
    let last = HEADER.len() + FIRST_BATCH;
    let first = damaged(rt.alloc(), HEADER.len()..last);
    let second = damaged(rt.alloc(), last..WITNESSED.len());
    assert_eq!(rt; (first, second), (FIRST_BATCH, 0));
}
