//! Files of a directory, each read by itself.
//!
//! The bytes were made from the format by a script in another language.
use super::directory::{CHECKPOINT, HEADER_167, Told, told};
use rr_archive::PlainArchive;
use rr_directory::{
    FileEnding, FileFault, FileName, MemoryDirectory, MemoryFile, Refusal, first_schema,
    own_refusal, survey,
};
use rr_fakes::journals::{HEADER, HEADER_101, RECORDS, file};
use rr_journal::JournalFault;
use std::alloc::Global;

/// The first file of a journal.
const FIRST: FileName = FileName::Journal(0);

/// The second one.
const SECOND: FileName = FileName::Journal(101);

/// The name of a checkpoint.
const NEWEST: FileName = FileName::Checkpoint(167);

/// A record behind the end of [`CHECKPOINT`]: the origin 1002.
const BEHIND_END: [u8; 15] = [
    0x00, 0x00, 0x00, 0x02, 0x02, 0x03, 0xea, 0xfb, 0xe4, 0x2f, 0x37, 0x14, 0xb3, 0x8c, 0x25,
];

/// How a file ends, and how many records and cells it has.
type Report = (FileEnding, u64, u64);

/// What is reported on a file.
fn report(alloc: Global, files: &[MemoryFile<'_>], name: FileName) -> Report {
    let directory = MemoryDirectory::new(files);
    let report = survey::<PlainArchive, _>(alloc, &directory, name, None);
    (report.ending, report.records, report.cells)
}

/// The first file, with a bit of the byte at a place changed.
fn changed(alloc: Global, at: usize) -> Option<Vec<u8>> {
    let mut bytes = file(alloc, &HEADER, &RECORDS[..101])?;
    let byte = bytes.get_mut(at)?;
    *byte ^= 1;
    Some(bytes)
}

/// The reports on the first file, changed so, and on the second; what the first is refused as where
/// it is read as of another schema; and whether the schema of both is found.
fn told_of_changed(alloc: Global, at: usize) -> Option<(Report, Report, FileFault, bool)> {
    let first = changed(alloc, at)?;
    let second = file(alloc, &HEADER_101, &RECORDS[101..])?;
    let files = [
        MemoryFile {
            name: FIRST,
            bytes: &first,
        },
        MemoryFile {
            name: SECOND,
            bytes: &second,
        },
    ];
    let directory = MemoryDirectory::new(&files);
    let schema = first_schema(alloc, &directory, &[FIRST, SECOND]).ok()?;
    let refusal = Refusal {
        file: FIRST,
        fault: FileFault::BadHeader(JournalFault::SchemaDiffers),
    };
    Some((
        report(alloc, &files, FIRST),
        report(alloc, &files, SECOND),
        own_refusal(alloc, &directory, refusal).fault,
        schema?.has_bytes(&HEADER[8..22]),
    ))
}

/// The fault of a header in which a bit of the byte at a place is changed.
fn fault_at(at: usize) -> FileFault {
    FileFault::BadHeader(match at {
        0..=3 => JournalFault::BadMagic,
        4 => JournalFault::BadVersion,
        5 => JournalFault::BadDecimals,
        6 => JournalFault::Short,
        _ => JournalFault::BadDigest,
    })
}

/// Whether that file alone is blamed.
fn is_blamed_alone(alloc: Global, at: usize) -> bool {
    let fault = fault_at(at);
    let first = (FileEnding::Refused(fault), 0, 0);
    let second = (FileEnding::End, 2, 0);
    told_of_changed(alloc, at) == Some((first, second, fault, true))
}

#[test]
fn a_damaged_header_blames_no_other_file(rt: HostRuntime) {
    let blamed = (0..HEADER.len())
        .filter(|at: &usize| is_blamed_alone(rt.alloc(), *at))
        .count();
    assert_eq!(rt; blamed, HEADER.len());
}

/// What is reported on a checkpoint with these records, and what a start makes of it.
fn told_of_checkpoint(alloc: Global, records: &[u8]) -> Option<(Report, Option<Told>)> {
    let bytes = file(alloc, &HEADER_167, records)?;
    let files = [MemoryFile {
        name: NEWEST,
        bytes: &bytes,
    }];
    Some((report(alloc, &files, NEWEST), told(alloc, &files)))
}

/// Whether a checkpoint with these records, of which there are `count`, is refused as not whole.
fn is_refused(alloc: Global, records: &[u8], count: u64) -> bool {
    let fault = FileFault::NotWhole;
    let told = Some(Err(Refusal {
        file: NEWEST,
        fault,
    }));
    let report = (FileEnding::Refused(fault), count, 6);
    told_of_checkpoint(alloc, records) == Some((report, told))
}

#[test]
fn a_checkpoint_is_whole_if_its_end_is_its_last_record(rt: HostRuntime) {
    let whole = told_of_checkpoint(rt.alloc(), &CHECKPOINT);
    let taken = Some(Ok((6, None, Some(167), 0)));
    assert_eq!(rt; whole, Some(((FileEnding::End, 2, 6), taken)));
}

#[test]
fn a_checkpoint_without_its_end_at_its_end_is_refused(rt: HostRuntime) {
    let alloc = rt.alloc();
    let longer = file(alloc, &CHECKPOINT, &BEHIND_END).unwrap_or(Vec::new(alloc));
    let refused = (
        is_refused(alloc, &CHECKPOINT[..86], 1),
        is_refused(alloc, &longer, 3),
    );
    assert_eq!(rt; refused, (true, true));
}
