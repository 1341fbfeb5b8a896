//! A replica from the files of a directory.
ghost use Rattle.std.specs.Prelude.{◌≡◌, IfOk, IfSome, option_map};
ghost use Rattle.rr_replica.specs.ReplicaWithRoom.{replica_state};
ghost use Rattle.rr_directory.specs.Reading.{after_files};
ghost use Rattle.rr_directory.specs.Tail.{recovered_files};
ghost use Rattle.rr_directory.specs.Recovering.{IsNothing, Recovers, empty_state, first_reached};

use crate::directory::Directory;
use crate::fault::Refusal;
use crate::file::{NextFile, read_file};
use crate::name::FileName;
use crate::tail::check_last;
use rr_archive::Cells;
use rr_journal::{Cursor, Key};
use rr_recovery::Found;
use rr_replica::Replica;
use rr_schema::{Origin, Schema};
use std::alloc::{AllocError, Global};

/// What was read of the files of a directory, besides the cells.
#[derive(Debug, Drop)]
pub struct Recovered {
    /// What they have besides cells.
    pub found: Found,
    /// Where the journal ends and is continued; none if no file was read.
    pub end: Option<Cursor>,
    /// The length in bytes of the last file's torn tail, which is to be cut off.
    pub torn: u64,
}

impl Recovered {
    /// Nothing yet. Takes no memory.
    pub(crate) fn new(alloc: Global) -> Recovered
        ensures { IsNothing result }
    {
        Recovered {
            found: Found::new(alloc),
            end: None,
            torn: 0,
        }
    }
}

/// An empty replica of an origin, into which files that name this schema can be read.
pub fn empty_replica<A: Cells>(
    alloc: Global,
    schema: &Schema,
    origin: Origin,
) -> Result<Replica<A>, AllocError>
    ensures empty { IfOk result (λ r. replica_state r ≡ empty_state schema.now origin) }
    ensures schema { IfOk result (λ r. r.schema ≡ schema.now) }
{
    Replica::new(alloc, schema, origin)
}

/// Reads files, in this order, into a replica, up to the first that a node doesn't start from.
fn read_files<A: Cells, D: Directory>(
    alloc: Global,
    directory: &D,
    files: &[FileName],
    schema: &Schema,
    replica: &mut Replica<A>,
) -> Result<Recovered, Refusal>
    requires { schema.now ≡ replica.old.schema }
    ensures { IfSome (D.bytes directory.now) (λ of. Recovers replica.new
        (after_files schema.now of (first_reached (replica_state replica.old)) files.now) result) }
{
    let mut so_far = Recovered::new(alloc);
    for (i, name) in files.iter().enumerate() {
        let next = NextFile {
            name: *name,
            is_last: i + 1 == files.len(),
        };
        match read_file(alloc, directory, next, schema, replica, &mut so_far) {
            Ok(()) => (),
            Err(fault) => return Err(Refusal { file: *name, fault }),
        }
    }
    Ok(so_far)
}

/// Reads files, in this order, into a replica: a checkpoint, if there is one, and then the
/// journal's files, as [`start_of`](crate::start_of) gives them. Each must name the schema of the
/// replica and begin where the one before it ends; a checkpoint must be whole, and only the
/// journal's last file may have a torn tail. With the key of the directory's witnesses, a tail that was
/// synced at least in part, as a witness in it shows, is refused as `Damaged`.
///
/// The first file, in order, that a node doesn't start from is refused before anything after it is
/// read. Some cells are joined then, and the replica is of no further use. The cost is linear in
/// the bytes, plus that of joining the cells; one record is in memory at a time.
pub fn recover<A: Cells, D: Directory>(
    alloc: Global,
    directory: &D,
    files: &[FileName],
    schema: &Schema,
    key: Option<Key>,
    replica: &mut Replica<A>,
) -> Result<Recovered, Refusal>
    requires { schema.now ≡ replica.old.schema }
    ensures { IfSome (D.bytes directory.now) (λ of. Recovers replica.new
        (recovered_files schema.now (option_map (λ k. k.bytes) key) of
        (first_reached (replica_state replica.old)) files.now) result) }
{
    let recovered = read_files(alloc, directory, files, schema, replica)?;
    check_last(alloc, directory, files, key, recovered.end, recovered.torn)?;
    Ok(recovered)
}
