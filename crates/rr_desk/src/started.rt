//! Opening the two copies of a replica.
ghost use Rattle.std.specs.Prelude.{◌≡◌, [], false, IfOk, OnOk};
ghost use Rattle.left_right.specs.Sides.{view};
ghost use Rattle.rr_cells.specs.Operations.{joins_of};
ghost use Rattle.rr_replica.specs.ReplicaWithRoom.{replica_state};
ghost use Rattle.rr_desk.specs.Editions.{flat, Reaches};
ghost use Rattle.rr_desk.specs.Rule.{keeper_of};
ghost use Rattle.rr_desk.specs.Writers.{IsUnopened, ShowsCopy};

use crate::book::{Batch, Editions};
use crate::change::Change;
use crate::reader_count::ReaderCount;
use crate::shown::Shown;
use crate::writing::{DeskWriter, start};
use rr_archive::Cells;
use rr_replica::Replica;
use std::alloc::{AllocError, Global};
use std::marker::Brand;
use std::sync::Wait;

/// Adds the first edition, of one join for each cell of a replica: these operations are the ones
/// picked.
fn first_batch<A: Cells, K: Batch>(
    book: &mut Editions,
    replica: &Replica<A>,
) -> Result<(), AllocError>
    requires fresh { book.old.editions ≡ [] }
    requires batch { K.batch ≡ joins_of replica.now.cells }
    ensures { Reaches (joins_of replica.now.cells) book.old book.new result }
{
    let _ = replica;
    book.add::<K>()
}

/// A copy of a replica, not yet opened for readers.
fn unopened<A: Cells>(
    alloc: Global,
    replica: &Replica<A>,
    book: &Editions,
) -> Result<Shown<A>, AllocError>
    ensures replica { IfOk result (λ copy. replica_state copy.replica ≡ replica_state replica.now) }
    ensures keys { IfOk result (λ copy. copy.replica.keys ≡ replica.now.keys) }
    ensures unopened { IfOk result (λ copy. copy.started ≡ false) }
    ensures prefix { IfOk result (λ copy. copy.prefix ≡ book.now) }
{
    Ok(Shown {
        replica: replica.copy(alloc)?,
        started: false,
        prefix: book.prefix(),
    })
}

/// Discards a writer whose desk isn't opened.
pub fn discard<A: Cells, R: Wait>(writer: DeskWriter<A>, rt: &R) -> AllocError {
    drop(writer.take(rt));
    AllocError
}

/// A writer of two copies of a replica with room for `readers` readers, none of which can enter
/// yet.
fn unopened_writer<A: Cells>(
    alloc: Global,
    replica: &Replica<A>,
    readers: ReaderCount,
    book: &Editions,
) -> Result<DeskWriter<A>, AllocError>
    ensures { IfOk result (IsUnopened replica.now) }
{
    let first = unopened(alloc, replica, book)?;
    let second = unopened(alloc, replica, book)?;
    DeskWriter::new(alloc, first, second, readers.value)
}

/// A writer of two copies of a replica, which up to `readers` readers may enter. The book gets its
/// first edition, of one join for each cell of the replica.
pub fn started_writer<A: Cells, R: Wait>(
    alloc: Global,
    rt: &R,
    replica: &Replica<A>,
    readers: ReaderCount,
    book: &mut Editions,
) -> Result<DeskWriter<A>, AllocError>
    requires { book.old.editions ≡ [] }
    ensures view { IfOk result (λ w. view w.desk.place
        ≡ keeper_of (replica_state replica.now) book.new.desk) }
    ensures copy { IfOk result (ShowsCopy replica.now []) }
    ensures prefix { IfOk result (λ w. w.desk.shown.value.prefix ≡ book.new) }
    ensures book { OnOk result (flat book.new.editions ≡ joins_of replica.now.cells) }
{
    // The proof needs the replica's invariant, which `schema` ensures.
    let _schema = replica.schema();
    first_batch::<A, Brand>(book, replica)?;
    let mut writer = unopened_writer(alloc, replica, readers, &*book)?;
    if writer.append(Change::Edition(book.prefix())).is_err() {
        return Err(discard(writer, rt));
    }
    match start(rt, writer, &*book) {
        (writer, Ok(())) => Ok(writer),
        (writer, Err(_)) => Err(discard(writer, rt)),
    }
}
