//! One file of a directory, read into a replica.
ghost use Rattle.std.specs.Prelude.{◌≡◌, ℕ, List, IfSome, Some, length};
ghost use Rattle.rr_io.specs.Counted.{inner_of};
ghost use Rattle.rr_recovery.specs.Taking.{recovery};
ghost use Rattle.rr_directory.specs.Reading.{after_checkpoint, after_file, after_journal, records_bytes};
ghost use Rattle.rr_directory.specs.Recovering.{Reads, ReplaysFile, TakesCheckpoint, TakesJournal, reached};

use crate::directory::Directory;
use crate::ending::{check_checkpoint, check_journal, torn_len};
use crate::fault::FileFault;
use crate::name::FileName;
use crate::place::{bytes_before, check_join, due_place, place_from};
use crate::recovered::Recovered;
use rr_archive::Cells;
use rr_io::Counted;
use rr_journal::{Cursor, Stop};
use rr_recovery::{Found, replay};
use rr_replica::Replica;
use rr_schema::Schema;
use std::alloc::Global;
use std::io::Read;

/// The file to read next.
#[derive(Clone, Copy)]
pub(crate) struct NextFile {
    pub(crate) name: FileName,
    /// Whether none follows.
    pub(crate) is_last: bool,
}

/// Takes the records of a file that begins at a place, and returns the place after them and why no
/// more follow.
pub(crate) fn replay_file<A: Cells, R: Read>(
    alloc: Global,
    input: &mut Counted<R>,
    begins: &Cursor,
    schema: &Schema,
    replica: &mut Replica<A>,
    found: &mut Found,
) -> Result<(Cursor, Stop), FileFault>
    requires { schema.now ≡ replica.old.schema }
    ensures read { IfSome (R.remaining (inner_of input.old)) (λ bytes. ReplaysFile begins.now bytes
        (recovery replica.old found.old) (recovery replica.new found.new) result) }
    ensures schema { replica.new.schema ≡ replica.old.schema }
{
    let mut place = *begins;
    let stop = replay(alloc, input, &mut place, schema, replica, found)?;
    Ok((place, stop))
}

/// Takes a checkpoint that begins at a place.
fn take_checkpoint<A: Cells, R: Read>(
    alloc: Global,
    input: &mut Counted<R>,
    begins: &Cursor,
    schema: &Schema,
    replica: &mut Replica<A>,
    found: &mut Found,
) -> Result<(), FileFault>
    requires { schema.now ≡ replica.old.schema }
    ensures read { (bytes : List ℕ)
        → R.remaining (inner_of input.old) ≡ Some (records_bytes schema.now bytes)
        → TakesCheckpoint begins.now (recovery replica.new found.new)
        (after_checkpoint schema.now (recovery replica.old found.old) begins.now bytes) result }
    ensures schema { replica.new.schema ≡ replica.old.schema }
{
    let (end, stop) = replay_file(alloc, input, begins, schema, replica, found)?;
    check_checkpoint(stop, found.is_whole(), bytes_before(schema, begins, &end))
}

/// Takes a file of the journal that begins at a place and has `len` bytes, and returns the place
/// where it ends and the length of its torn tail.
fn take_journal<A: Cells, R: Read>(
    alloc: Global,
    input: &mut Counted<R>,
    begins: &Cursor,
    len: u64,
    is_last: bool,
    schema: &Schema,
    replica: &mut Replica<A>,
    found: &mut Found,
) -> Result<(Cursor, u64), FileFault>
    requires { schema.now ≡ replica.old.schema }
    ensures read { (bytes : List ℕ)
        → R.remaining (inner_of input.old) ≡ Some (records_bytes schema.now bytes)
        → len ≡ length bytes → TakesJournal (recovery replica.new found.new)
        (after_journal schema.now is_last (recovery replica.old found.old) begins.now bytes) result }
    ensures schema { replica.new.schema ≡ replica.old.schema }
{
    let (end, stop) = replay_file(alloc, input, begins, schema, replica, found)?;
    let at = bytes_before(schema, begins, &end);
    check_journal(stop, is_last, at)?;
    Ok((end, torn_len(stop, len, at)))
}

/// Reads a file into the replica, after what was read so far.
pub(crate) fn read_file<A: Cells, D: Directory>(
    alloc: Global,
    directory: &D,
    file: NextFile,
    schema: &Schema,
    replica: &mut Replica<A>,
    so_far: &mut Recovered,
) -> Result<(), FileFault>
    requires { schema.now ≡ replica.old.schema }
    ensures read { IfSome (D.bytes directory.now) (λ of. Reads (reached replica.new so_far.new)
        (after_file schema.now file.is_last (reached replica.old so_far.old) file.name
        (of file.name)) result) }
    ensures schema { replica.new.schema ≡ replica.old.schema }
{
    let mut input = Counted::new(directory.open(alloc, file.name)?);
    let begins = place_from(alloc, &mut input, schema, file.name)?;
    let found = &mut so_far.found;
    match file.name {
        FileName::Checkpoint(_) => {
            take_checkpoint(alloc, &mut input, &begins, schema, replica, found)?;
            so_far.end = Some(begins);
            so_far.torn = 0;
        }
        FileName::Journal(_) => {
            check_join(&due_place(so_far.end, &begins), &begins)?;
            let len = directory.len(alloc, file.name)?;
            let (end, torn) = take_journal(
                alloc,
                &mut input,
                &begins,
                len,
                file.is_last,
                schema,
                replica,
                found,
            )?;
            so_far.end = Some(end);
            so_far.torn = torn;
        }
    }
    Ok(())
}
