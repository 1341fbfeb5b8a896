//! A directory whose files lack an archive that the configuration has.

use crate::files::tell;
use crate::node::checkpoints::write_checkpoint_file;
use crate::node::endings::{failed, refusal_ending};
use crate::server::OUT_OF_MEMORY;
use rr_desk::open;
use rr_directory::{FileName, Refusal, empty_replica, join_raised, own_schema};
use rr_files::DataDirectory;
use rr_journal::Cursor;
use rr_packed::PackedArchive;
use rr_process::Ending;
use rr_replica::Replica;
use rr_schema::Schema;
use std::alloc::{AllocError, Global};
use std::io;
use std::io::ErrorKind;
use std::rt::Files;
use std::sync::Wait;

/// A schema on one line: the step, and each archive's steps, rows and xff.
fn schema_text(alloc: Global, schema: &Schema) -> Result<String, AllocError> {
    let mut text = format!(in alloc; "step {}, archives", schema.step())?;
    for archive in schema.archives() {
        let (steps, rows, num, den) = (archive.steps, archive.rows, archive.num, archive.den);
        write!(text, " {steps}x{rows} {num}/{den}")?;
    }
    Ok(text)
}

/// Reports that a directory's schema differs from the configuration's, with both.
fn tell_schemas(
    rt: &(impl AllocGlobal + Eprint),
    path: &str,
    found: &Schema,
    own: &Schema,
) -> Result<(), AllocError> {
    let found = schema_text(rt.alloc(), found)?;
    let own = schema_text(rt.alloc(), own)?;
    let text = format!(in rt.alloc(); "has {found}; the configuration has {own}")?;
    tell(rt, path, text.as_str());
    Ok(())
}

/// The schema of a directory's files, if the configuration's is that one with one archive more; any
/// other is reported, and the file refused when it is read. A first file whose header isn't whole
/// is refused.
pub(crate) fn older_schema<R: AllocGlobal + Files + Eprint>(
    rt: &R,
    path: &str,
    directory: &DataDirectory<'_, R>,
    files: &[FileName],
    own: &Schema,
) -> Result<Option<Schema>, Ending> {
    let Some(name) = files.first() else {
        return Ok(None);
    };
    let found = match own_schema(rt.alloc(), directory, *name) {
        Ok(found) => found,
        Err(fault) => return Err(refusal_ending(rt, path, &Refusal { file: *name, fault })),
    };
    let Ok(bytes) = found.bytes(rt.alloc()) else {
        return Err(OUT_OF_MEMORY);
    };
    if own.has_bytes(&bytes) {
        return Ok(None);
    }
    if own.added(&found).is_some() {
        return Ok(Some(found));
    }
    match tell_schemas(rt, path, &found, own) {
        Ok(()) => Ok(None),
        Err(_) => Err(OUT_OF_MEMORY),
    }
}

/// The cells of a replica under a schema that has one archive more than its own.
fn raised_replica(
    alloc: Global,
    older: &Replica<PackedArchive>,
    schema: &Schema,
) -> Result<Replica<PackedArchive>, AllocError> {
    let mut replica = empty_replica(alloc, schema, older.origin())?;
    if let Some(added) = schema.added(older.schema()) {
        join_raised(alloc, older, added, &mut replica)?;
    }
    replica.finish_all_rows();
    Ok(replica)
}

/// Writes what a replica holds as a checkpoint that begins at a place, and gives the replica back.
fn checkpointed<R: AllocGlobal + Files + Wait>(
    rt: &R,
    directory: &DataDirectory<'_, R>,
    replica: Replica<PackedArchive>,
    begins: Cursor,
) -> io::Result<Replica<PackedArchive>> {
    let alloc = rt.alloc();
    let Ok((keeper, mut readers)) = open(alloc, rt, replica, 1) else {
        return Err(io::Error::from(ErrorKind::OutOfMemory));
    };
    let written = match readers.pop() {
        Some(mut reader) => write_checkpoint_file(alloc, &mut reader, directory, begins),
        None => Err(io::Error::from(ErrorKind::OutOfMemory)),
    };
    let replica = keeper.close(rt);
    written?;
    Ok(replica)
}

/// Brings what an older replica holds under a schema that has one archive more, and writes it as
/// the checkpoint that another journal begins with. Once the checkpoint has its name, a start reads
/// it in place of the files before it; after a crash before that, a start begins anew.
pub(crate) fn upgraded<R: AllocGlobal + Files + Eprint + Wait>(
    rt: &R,
    path: &str,
    directory: &DataDirectory<'_, R>,
    older: Replica<PackedArchive>,
    schema: &Schema,
    begins: Cursor,
) -> Result<Replica<PackedArchive>, Ending> {
    let Ok(replica) = raised_replica(rt.alloc(), &older, schema) else {
        return Err(OUT_OF_MEMORY);
    };
    drop(older);
    match checkpointed(rt, directory, replica, begins) {
        Ok(replica) => {
            tell(rt, path, "an archive is added, and the journal begins anew");
            Ok(replica)
        }
        Err(error) => Err(failed(rt, path, &error)),
    }
}
