//! The last origin of the files of a directory.
ghost use Rattle.std.specs.Prelude.{◌≡◌, IfSome, None};
ghost use Rattle.rr_directory.specs.Origins.{FindsLast, FindsOriginIn, last_origin_in, later, origin_after, origin_after_journal};

use crate::directory::Directory;
use crate::fault::{FileFault, Refusal};
use crate::name::FileName;
use crate::place::place_from;
use rr_io::Counted;
use rr_schema::{Origin, Schema};
use std::alloc::Global;

/// The later of two origins, if there are two.
fn later(origin: Option<Origin>, before: Option<Origin>) -> Option<Origin>
    ensures { result ≡ later origin before }
{
    match origin {
        Some(origin) => Some(origin),
        None => before,
    }
}

/// The origin of the last record of an origin in a file of the journal, or `before` if the file has
/// none.
fn origin_in_journal<D: Directory>(
    alloc: Global,
    directory: &D,
    name: FileName,
    schema: &Schema,
    before: Option<Origin>,
) -> Result<Option<Origin>, FileFault>
    ensures { IfSome (D.bytes directory.now) (λ of. FindsOriginIn
        (origin_after_journal schema.now before name (of name)) result) }
{
    let mut input = Counted::new(directory.open(alloc, name)?);
    let mut place = place_from(alloc, &mut input, schema, name)?;
    let (_, origin) = rr_recovery::last_origin(alloc, &mut input, &mut place, schema)?;
    Ok(later(origin, before))
}

/// The origin of a file's last record of an origin, or `before` if the file has none, as a
/// checkpoint hasn't.
fn origin_in<D: Directory>(
    alloc: Global,
    directory: &D,
    name: FileName,
    schema: &Schema,
    before: Option<Origin>,
) -> Result<Option<Origin>, FileFault>
    ensures { IfSome (D.bytes directory.now) (λ of. FindsOriginIn
        (origin_after schema.now before name (of name)) result) }
{
    match name {
        FileName::Checkpoint(_) => Ok(before),
        FileName::Journal(_) => origin_in_journal(alloc, directory, name, schema, before),
    }
}

/// The origin of the last record of an origin in the journal's files, among files as
/// [`start_of`](crate::start_of) gives them, so that a node can choose a new one before it
/// recovers. A checkpoint isn't opened: origins are recorded only in the journal, and the file that
/// begins where a checkpoint does has the one that was written under then. Cells aren't checked,
/// nor is whether the files join; [`recover`](crate::recover) refuses an origin that any record or
/// cell has.
///
/// Refused at the first file of the journal whose header is refused, or that has a record of an
/// origin that means none. The cost is linear in the bytes of the journal's files.
pub fn last_origin<D: Directory>(
    alloc: Global,
    directory: &D,
    files: &[FileName],
    schema: &Schema,
) -> Result<Option<Origin>, Refusal>
    ensures { IfSome (D.bytes directory.now) (λ of. FindsLast
        (last_origin_in schema.now of None files.now) result) }
{
    let mut origin = None;
    for name in files {
        match origin_in(alloc, directory, *name, schema, origin) {
            Ok(found) => origin = found,
            Err(fault) => return Err(Refusal { file: *name, fault }),
        }
    }
    Ok(origin)
}
