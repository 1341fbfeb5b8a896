//! One file of a directory, read by itself.
ghost use Rattle.std.specs.Prelude.{◌≡◌, ◌⊎◌, IfErr, IfOk, IfSome, option_map};
ghost use Rattle.rr_recovery.specs.Taking.{recovery};
ghost use Rattle.rr_replica.specs.ReplicaWithRoom.{replica_state};
ghost use Rattle.rr_directory.specs.Survey.{IsReported, IsReportedUnder, Reports, Surveys, ending_by, told_ending, whole_ending};

use crate::directory::Directory;
use crate::fault::FileFault;
use crate::file::replay_file;
use crate::name::FileName;
use crate::place::{bytes_before, place_from};
use crate::recovered::empty_replica;
use crate::report::{FileEnding, FileReport};
use crate::schema::own_schema;
use crate::tail::is_synced_tail;
use rr_archive::Cells;
use rr_io::Counted;
use rr_journal::{Key, header_len};
use rr_recovery::Found;
use rr_replica::Replica;
use rr_schema::{Origin, Schema};
use std::alloc::{AllocError, Global};

/// Takes the records of a file into a replica, and returns how the file ends.
fn ending_in<A: Cells, D: Directory>(
    alloc: Global,
    directory: &D,
    name: FileName,
    schema: &Schema,
    replica: &mut Replica<A>,
    found: &mut Found,
) -> Result<FileEnding, FileFault>
    requires { schema.now ≡ replica.old.schema }
    ensures read { IfSome (D.bytes directory.now) (λ of. Surveys schema.now name (of name)
        (recovery replica.old found.old) (recovery replica.new found.new) result) }
    ensures schema { replica.new.schema ≡ replica.old.schema }
{
    let mut input = Counted::new(directory.open(alloc, name)?);
    let begins = place_from(alloc, &mut input, schema, name)?;
    let (end, stop) = replay_file(alloc, &mut input, &begins, schema, replica, found)?;
    let len = directory.len(alloc, name)?;
    Ok(FileEnding::of_stop(stop, len, bytes_before(schema, &begins, &end)))
}

/// The ending of a file, which is damaged if its torn tail was synced at least in part.
fn told_ending<D: Directory>(
    alloc: Global,
    directory: &D,
    name: FileName,
    schema: &Schema,
    key: Option<Key>,
    ending: FileEnding,
) -> Result<FileEnding, FileFault>
    ensures told { IfOk result (λ told. IfSome (D.bytes directory.now) (λ of. told
        ≡ told_ending schema.now (option_map (λ k. k.bytes) key) name (of name) ending)) }
    ensures faults { IfErr result (λ fault. (fault ≡ FileFault.ReadFailed)
        ⊎ (fault ≡ FileFault.Memory)) }
{
    let FileEnding::Torn(len) = ending else {
        return Ok(ending);
    };
    let at = directory.len(alloc, name)?.saturating_sub(len);
    let records = at.saturating_sub(header_len(schema) as u64);
    let offset = name.offset().saturating_add(records);
    if is_synced_tail(alloc, directory, name, key, offset, len)? {
        Ok(FileEnding::Damaged(at))
    } else {
        Ok(ending)
    }
}

/// The ending of a file, which is refused if it is a checkpoint that isn't whole.
fn whole_ending(name: FileName, is_whole: bool, ending: FileEnding) -> FileEnding
    ensures { result ≡ whole_ending name is_whole ending }
{
    match (name, ending) {
        (FileName::Checkpoint(_), FileEnding::End) if !is_whole => {
            FileEnding::Refused(FileFault::NotWhole)
        }
        _ => ending,
    }
}

/// How a file ends that was read, or couldn't be.
fn ending_by(read: Result<FileEnding, FileFault>) -> FileEnding
    ensures { result ≡ ending_by read }
{
    match read {
        Ok(ending) => ending,
        Err(fault) => FileEnding::Refused(fault),
    }
}

/// The report on a file, whose records are taken into a replica.
fn report_of<A: Cells, D: Directory>(
    alloc: Global,
    directory: &D,
    name: FileName,
    schema: &Schema,
    key: Option<Key>,
    replica: &mut Replica<A>,
) -> FileReport
    requires { schema.now ≡ replica.old.schema }
    ensures named { result.name ≡ name }
    ensures read { IfSome (D.bytes directory.now) (λ of. Reports schema.now
        (option_map (λ k. k.bytes) key) name (of name) (replica_state replica.old) result) }
{
    let mut found = Found::new(alloc);
    let read = ending_in(alloc, directory, name, schema, replica, &mut found);
    let told = told_ending(alloc, directory, name, schema, key, ending_by(read));
    FileReport {
        name,
        records: found.records,
        cells: found.cells,
        ending: whole_ending(name, found.is_whole(), ending_by(told)),
    }
}

/// The report on a file of which nothing is read.
fn unread(name: FileName, fault: FileFault) -> FileReport
    ensures named { result.name ≡ name }
    ensures ending { result.ending ≡ FileEnding.Refused fault }
{
    FileReport {
        name,
        records: 0,
        cells: 0,
        ending: FileEnding::Refused(fault),
    }
}

/// The report on a file that is read under an origin.
fn report_under<A: Cells, D: Directory>(
    alloc: Global,
    directory: &D,
    name: FileName,
    schema: &Schema,
    key: Option<Key>,
    origin: Origin,
) -> FileReport
    ensures named { result.name ≡ name }
    ensures read { IfSome (D.bytes directory.now) (λ of. IsReportedUnder schema.now
        (option_map (λ k. k.bytes) key) name (of name) result) }
{
    let empty: Result<Replica<A>, AllocError> = empty_replica(alloc, schema, origin);
    match empty {
        Ok(mut replica) => report_of(alloc, directory, name, schema, key, &mut replica),
        Err(_) => unread(name, FileFault::Memory),
    }
}

/// The report on a file that is read under the greatest origin of which it has nothing.
fn report_by<A: Cells, D: Directory>(
    alloc: Global,
    directory: &D,
    name: FileName,
    schema: &Schema,
    key: Option<Key>,
) -> FileReport
    ensures named { result.name ≡ name }
    ensures read { IfSome (D.bytes directory.now) (λ of. IsReportedUnder schema.now
        (option_map (λ k. k.bytes) key) name (of name) result) }
{
    for number in (1..=u16::MAX).rev() {
        let Ok(origin) = Origin::new(number) else {
            continue;
        };
        let report = report_under::<A, D>(alloc, directory, name, schema, key, origin);
        if report.ending != FileEnding::Refused(FileFault::OriginUsed) {
            return report;
        }
    }
    unread(name, FileFault::OriginUsed)
}

/// The report on a file by itself, under the schema that its own header names, if that is whole:
/// its records are taken as [`recover`](crate::recover) takes them, but it needn't join another
/// file. With the key of the directory's witnesses, a tail that was synced at least in part is
/// damage. The cost is that of recovering from the file, again for each origin from 65,535 down of
/// which the file has something.
pub fn survey<A: Cells, D: Directory>(
    alloc: Global,
    directory: &D,
    name: FileName,
    key: Option<Key>,
) -> FileReport
    ensures named { result.name ≡ name }
    ensures read { IfSome (D.bytes directory.now) (λ of. IsReported
        (option_map (λ k. k.bytes) key) name (of name) result) }
{
    match own_schema(alloc, directory, name) {
        Ok(schema) => report_by::<A, D>(alloc, directory, name, &schema, key),
        Err(fault) => unread(name, fault),
    }
}
