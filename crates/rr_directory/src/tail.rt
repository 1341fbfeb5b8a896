//! What the bytes of a file tell that aren't read as records.
ghost use Rattle.std.specs.Prelude.{◌≡◌, ◌⊎◌, IfErr, IfOk, IfSome, option_map};
ghost use Rattle.rr_directory.specs.Tail.{ChecksLast, ChecksTail, is_synced_tail, last_fault, last_name, tail_fault};

use crate::directory::Directory;
use crate::fault::{FileFault, Refusal};
use crate::name::FileName;
use rr_journal::{Cursor, JournalFault, Key, was_synced};
use std::alloc::Global;

/// Whether the last `len` bytes of a file, which aren't read as records and are of the journal from
/// an offset on, were synced at least in part; false if there is no key.
pub(crate) fn is_synced_tail<D: Directory>(
    alloc: Global,
    directory: &D,
    name: FileName,
    key: Option<Key>,
    offset: u64,
    len: u64,
) -> Result<bool, FileFault>
    ensures told { IfOk result (λ is_synced. IfSome (D.bytes directory.now) (λ of. is_synced
        ≡ is_synced_tail (option_map (λ k. k.bytes) key) offset len (of name))) }
    ensures faults { IfErr result (λ fault. (fault ≡ FileFault.ReadFailed)
        ⊎ (fault ≡ FileFault.Memory)) }
{
    let Some(key) = key else {
        return Ok(false);
    };
    let tail = directory.tail(alloc, name, len)?;
    Ok(was_synced(&key, offset, &tail))
}

/// Refuses a file whose last `len` bytes, which aren't read as records, were synced at least in
/// part.
fn check_tail<D: Directory>(
    alloc: Global,
    directory: &D,
    name: FileName,
    key: Option<Key>,
    offset: u64,
    len: u64,
) -> Result<(), FileFault>
    ensures { IfSome (D.bytes directory.now) (λ of. ChecksTail
        (tail_fault (option_map (λ k. k.bytes) key) offset len (of name)) result) }
{
    if !is_synced_tail(alloc, directory, name, key, offset, len)? {
        return Ok(());
    }
    let at = directory.len(alloc, name)?.saturating_sub(len);
    Err(FileFault::Damaged {
        at,
        fault: JournalFault::BadDigest,
    })
}

/// Refuses the last of some files if its last `len` bytes, behind the place that was reached and
/// not read as records, were synced at least in part.
pub(crate) fn check_last<D: Directory>(
    alloc: Global,
    directory: &D,
    files: &[FileName],
    key: Option<Key>,
    end: Option<Cursor>,
    len: u64,
) -> Result<(), Refusal>
    ensures { IfSome (D.bytes directory.now) (λ of. ChecksLast
        (last_fault (option_map (λ k. k.bytes) key) of (last_name files.now) end len) result) }
{
    let (Some(name), Some(end)) = (files.last(), end) else {
        return Ok(());
    };
    match check_tail(alloc, directory, *name, key, end.offset, len) {
        Ok(()) => Ok(()),
        Err(fault) => Err(Refusal { file: *name, fault }),
    }
}
