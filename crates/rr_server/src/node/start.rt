//! A node's replica and journal, from its directory.

use crate::files::{load_replica, tell};
use crate::node::endings::{directory_ending, failed, refusal_ending};
use crate::node::loading::commit_replica;
use crate::node::logbook::Logbook;
use crate::node::origins::{OwnOrigins, own_origins};
use crate::node::upgrade::{older_schema, upgraded};
use crate::server::OUT_OF_MEMORY;
use rr_batch::commit_origin;
use rr_commit::ChangesFault;
use rr_config::NodeConfig;
use rr_directory::{
    Directory, FileName, Recovered, Start, empty_replica, own_refusal, recover, start_of,
};
use rr_files::{DataDirectory, DirectoryLock, JournalFile, OpenFault, TryLock, key_in};
use rr_journal::{Cursor, ID_LEN, KEY_LEN, Key};
use rr_packed::PackedArchive;
use rr_process::{Ending, ToolFault};
use rr_replica::Replica;
use rr_schema::{Origin, Schema};
use std::alloc::Global;
use std::fs::OpenFile;
use std::io;
use std::io::{Seek, Write};
use std::random::RandomSource;
use std::rt::Files;
use std::sync::Wait;

/// A node that is ready to serve.
#[derive(Drop)]
pub(crate) struct Started<F> {
    pub(crate) replica: Replica<PackedArchive>,
    pub(crate) beginning: Beginning<F>,
}

/// What a node begins with besides its replica.
#[derive(Drop)]
pub(crate) struct Beginning<F> {
    pub(crate) logbook: Logbook<F>,
    pub(crate) origins: OwnOrigins,
    /// Held until the origin is named.
    pub(crate) spare: Option<F>,
    /// How far the journals of peers were read, by their ids.
    pub(crate) cursors: Vec<Cursor>,
}

/// The contents of a directory.
#[derive(Drop)]
struct Contents {
    files: Start,
    origins: OwnOrigins,
    replica: Replica<PackedArchive>,
    /// What else its files have.
    recovered: Recovered,
    /// Whether the replica has cells that the files lack.
    is_loaded: bool,
}

/// Opens and locks a directory. The lock is held as long as the node runs.
pub(crate) fn open_directory<'a, R>(
    rt: &'a R,
    path: &'a str,
) -> Result<(DataDirectory<'a, R>, DirectoryLock<R::File>), Ending>
where
    R: AllocGlobal + Files + Eprint,
    R::File: TryLock,
{
    match DataDirectory::open(rt, rt.alloc(), path) {
        Ok(opened) => Ok(opened),
        Err(OpenFault::InUse) => {
            tell(rt, path, "in use");
            Err(Ending::Stopped)
        }
        Err(OpenFault::Failed(error)) => Err(failed(rt, path, &error)),
    }
}

/// The names of a directory's files, by what a start does with them.
fn files_of<R: AllocGlobal + Files + Eprint>(
    rt: &R,
    path: &str,
    directory: &DataDirectory<'_, R>,
) -> Result<Start, Ending> {
    let names = match directory.names(rt.alloc()) {
        Ok(names) => names,
        Err(fault) => return Err(directory_ending(rt, path, fault)),
    };
    match start_of(rt.alloc(), &names) {
        Ok(start) => Ok(start),
        Err(_) => Err(OUT_OF_MEMORY),
    }
}

/// The replica that files of a schema make, and what else was found in them.
fn recovered<R: AllocGlobal + Files + Eprint>(
    rt: &R,
    path: &str,
    directory: &DataDirectory<'_, R>,
    files: &[FileName],
    schema: &Schema,
    origin: Origin,
) -> Result<(Replica<PackedArchive>, Recovered), Ending> {
    let alloc = rt.alloc();
    let Ok(mut replica) = empty_replica(alloc, schema, origin) else {
        return Err(OUT_OF_MEMORY);
    };
    let key = match key_in(rt, alloc, path) {
        Ok(key) => key,
        Err(error) => return Err(failed(rt, path, &error)),
    };
    match recover(alloc, directory, files, schema, key, &mut replica) {
        Ok(recovered) => {
            replica.finish_all_rows();
            tell_torn(rt, path, recovered.torn);
            Ok((replica, recovered))
        }
        Err(refusal) => {
            let refusal = own_refusal(alloc, directory, refusal);
            Err(refusal_ending(rt, path, &refusal))
        }
    }
}

/// The start of a new journal, at an offset.
fn new_cursor<R: RandomSource>(rt: &R, offset: u64) -> io::Result<Cursor> {
    let mut id = [0u8; ID_LEN];
    rt.fill_bytes(&mut id)?;
    Ok(Cursor {
        offset,
        ..Cursor::start(id)
    })
}

/// A key for a directory's witnesses.
fn new_key<R: RandomSource>(rt: &R) -> io::Result<Key> {
    let mut bytes = [0u8; KEY_LEN];
    rt.fill_bytes(&mut bytes)?;
    Ok(Key { bytes })
}

/// The journal's last file, to go on after what was read of it, or a first one; its name; and the
/// journal's end. A directory without a key of its witnesses gets one.
fn open_journal<R: AllocGlobal + Files + RandomSource>(
    rt: &R,
    directory: &DataDirectory<'_, R>,
    files: &[FileName],
    recovered: &Recovered,
    config: &NodeConfig,
) -> io::Result<(JournalFile<R::File>, FileName, Cursor)> {
    let alloc = rt.alloc();
    let key = directory.key_or(alloc, new_key(rt)?)?;
    let cursor = match recovered.end {
        Some(end) => end,
        None => new_cursor(rt, 0)?,
    };
    if let Some(FileName::Journal(offset)) = files.last() {
        let name = FileName::Journal(*offset);
        let journal = directory.open_journal(alloc, name, recovered.torn, key)?;
        return Ok((journal, name, cursor));
    }
    let journal = directory.create_journal(alloc, &cursor, &config.schema, key)?;
    Ok((journal, FileName::Journal(cursor.offset), cursor))
}

/// The offset from which on no checkpoint is written, and the size in bytes of the newest one: the
/// one that a start reads first, if any.
fn newest_checkpoint<R: Files>(
    alloc: Global,
    directory: &DataDirectory<'_, R>,
    files: &[FileName],
) -> (u64, u64) {
    match files.first() {
        Some(FileName::Checkpoint(offset)) => {
            let name = FileName::Checkpoint(*offset);
            (*offset, directory.len(alloc, name).unwrap_or(0))
        }
        _ => (0, 0),
    }
}

/// Reports a torn tail, which a crash left and which is cut off.
fn tell_torn(rt: &impl Eprint, path: &str, torn: u64) {
    if torn > 0 {
        // If this can't be printed, the node starts all the same.
        let _printed = eprintln!(rt; "rr: {path}: a torn tail of {torn} bytes is cut off");
    }
}

/// The contents of a directory whose files lack an archive, under the configuration's schema. Its
/// journal begins anew after its old end.
fn with_archive<R: AllocGlobal + Files + Eprint + RandomSource + Wait>(
    rt: &R,
    config: &NodeConfig,
    path: &str,
    directory: &DataDirectory<'_, R>,
    older: Contents,
) -> Result<Contents, Ending> {
    let Contents {
        origins,
        replica,
        mut recovered,
        ..
    } = older;
    let end = match recovered.end {
        Some(end) => end.offset,
        None => 0,
    };
    let begins = match new_cursor(rt, end.saturating_add(1)) {
        Ok(begins) => begins,
        Err(error) => return Err(failed(rt, path, &error)),
    };
    let replica = upgraded(rt, path, directory, replica, &config.schema, begins)?;
    recovered.end = Some(begins);
    recovered.torn = 0;
    // The journal that begins has no record of an origin.
    recovered.found.origin = None;
    Ok(Contents {
        files: files_of(rt, path, directory)?,
        origins,
        replica,
        recovered,
        is_loaded: false,
    })
}

/// What a new directory begins with: the snapshot in a file.
fn loaded<R: AllocGlobal + Files + Eprint>(
    rt: &R,
    config: &NodeConfig,
    path: &str,
    directory: &DataDirectory<'_, R>,
    files: Start,
    file: &str,
) -> Result<Contents, Ending> {
    if !files.files.is_empty() {
        tell(rt, path, "not a new directory: --load begins one");
        return Err(Ending::Stopped);
    }
    let schema = &config.schema;
    let origins = own_origins(rt, directory, &files, schema, config)?;
    let origin = origins.next;
    let (_, recovered) = recovered(rt, path, directory, &files.files, schema, origin)?;
    Ok(Contents {
        files,
        origins,
        replica: load_replica(rt, file, schema, origin)?,
        recovered,
        is_loaded: true,
    })
}

/// The contents that a directory's files make for a new origin.
fn contents_of<R: AllocGlobal + Files + Eprint + RandomSource + Wait>(
    rt: &R,
    config: &NodeConfig,
    path: &str,
    directory: &DataDirectory<'_, R>,
    files: Start,
) -> Result<Contents, Ending> {
    let older = older_schema(rt, path, directory, &files.files, &config.schema)?;
    let schema = match &older {
        Some(older) => older,
        None => &config.schema,
    };
    let origins = own_origins(rt, directory, &files, schema, config)?;
    let origin = origins.next;
    let (replica, recovered) = recovered(rt, path, directory, &files.files, schema, origin)?;
    let contents = Contents {
        files,
        origins,
        replica,
        recovered,
        is_loaded: false,
    };
    match older {
        Some(_) => with_archive(rt, config, path, directory, contents),
        None => Ok(contents),
    }
}

/// Records the greatest origin taken before, if the files that are read don't have it last: those
/// that have it may go.
fn record_last<F: Write + Seek + OpenFile>(
    alloc: Global,
    contents: &Contents,
    journal: &mut JournalFile<F>,
    cursor: &mut Cursor,
) -> Result<(), ChangesFault> {
    match contents.origins.last {
        Some(last) if contents.recovered.found.origin != Some(last) => {
            commit_origin(alloc, last, journal, cursor)
        }
        _ => Ok(()),
    }
}

/// The journal, with what the files lack.
fn begun<R: AllocGlobal + Files + Eprint + RandomSource>(
    rt: &R,
    config: &NodeConfig,
    path: &str,
    directory: &DataDirectory<'_, R>,
    contents: &Contents,
) -> Result<Logbook<R::File>, Ending> {
    let alloc = rt.alloc();
    let (files, replica) = (&contents.files.files, &contents.replica);
    let opened = open_journal(rt, directory, files, &contents.recovered, config);
    let (mut journal, name, mut cursor) = match opened {
        Ok(opened) => opened,
        Err(error) => return Err(failed(rt, path, &error)),
    };
    if record_last(alloc, contents, &mut journal, &mut cursor).is_err()
        || (contents.is_loaded
            && commit_replica(alloc, replica, &mut journal, &mut cursor).is_err())
    {
        return Err(Ending::Failed(ToolFault::WriteFailed));
    }
    let (since, checkpoint) = newest_checkpoint(alloc, directory, files);
    Ok(Logbook {
        journal,
        name,
        seen: None,
        cursor,
        since,
        checkpoint,
        is_asked: false,
        witnessed: 0,
    })
}

/// Recovers what the files of an open directory have, under an origin that no start of it has
/// taken. With `load` the directory must be new, and begins with the snapshot in that file. If the
/// configuration has one archive more than the files, it is added.
pub(crate) fn start<R>(
    rt: &R,
    config: &NodeConfig,
    directory: &DataDirectory<'_, R>,
    load: Option<&str>,
) -> Result<Started<R::File>, Ending>
where
    R: AllocGlobal + Files + Eprint + RandomSource + Wait,
{
    let path = directory.path();
    let files = files_of(rt, path, directory)?;
    let contents = match load {
        Some(file) => loaded(rt, config, path, directory, files, file)?,
        None => contents_of(rt, config, path, directory, files)?,
    };
    let logbook = begun(rt, config, path, directory, &contents)?;
    for name in &contents.files.needless {
        // What stays is still needless at the next start.
        let _removed = directory.remove(rt.alloc(), *name);
    }
    let Contents {
        origins,
        replica,
        recovered,
        ..
    } = contents;
    let beginning = Beginning {
        logbook,
        origins,
        spare: directory.spare(rt.alloc()).ok(),
        cursors: recovered.found.cursors,
    };
    Ok(Started { replica, beginning })
}
