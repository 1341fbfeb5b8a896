//! A replica from a snapshot, read cell by cell.
ghost use Rattle.std.specs.Prelude.{◌≡◌, ◌≤◌, ◌<◌, length, IfSome, IfOk, OnOk};
ghost use Rattle.std.specs.FinMap.{empty};
ghost use Rattle.std.specs.Option.{option_map};
ghost use Rattle.rr_io.specs.Counted.{inner_of};
ghost use Rattle.rr_schema.specs.Added.{IsAddition, older};
ghost use Rattle.rr_page.specs.PageReading.{is_after};
ghost use Rattle.rr_cells.specs.Listing.{owned_cell};
ghost use Rattle.rr_cells.specs.CellBounds.{IsCellOf};
ghost use Rattle.rr_cells.specs.Joining.{with_cell};
ghost use Rattle.rr_replica.specs.Becomes.{Becomes};
ghost use Rattle.rr_replica.specs.ReplicaWithRoom.{replica_state};
ghost use Rattle.rr_cells.specs.Raising.{raised};
ghost use Rattle.rr_snapshot.specs.SnapshotReading.{cells_after};
ghost use Rattle.rr_snapshot.specs.Stream.{StreamMakes};
ghost use Rattle.rr_snapshot.specs.Loading.{HasJoined, GivesIfRead, LoadsAll, LoadsCells, loaded_at};

use crate::ending::{digest_from, end_from};
use crate::fault::LoadFault;
use crate::heading::{Head, head_from};
use crate::stream::{MAX_CELL_LEN, cell_from};
use rr_archive::Cells;
use rr_cells::Cell;
use rr_io::Counted;
use rr_page::follows;
use rr_replica::Replica;
use rr_schema::{Addition, Origin, Schema};
use rr_text::limits::MAX_ARCHIVES;
use sha2::{Digest, Sha256};
use std::alloc::{AllocError, Global};
use std::io::Read;

/// Whether the name of a cell is greater than that of the cell before it, if there is one.
fn is_after(before: &Option<Cell>, cell: &Cell) -> bool
    ensures { result
        ≡ is_after (option_map (λ c. (owned_cell c).0) before.now) (owned_cell cell.now).0 }
{
    match before {
        None => true,
        Some(before) => follows(before, cell),
    }
}

/// The number that an archive has after an addition.
fn raised(addition: Addition, archive: u8) -> u8
    requires { archive < MAX_ARCHIVES }
    ensures { result ≡ raised addition archive }
{
    match addition {
        Addition::Nothing => archive,
        Addition::Archive(added) => {
            if archive < added {
                archive
            } else {
                archive + 1
            }
        }
    }
}

/// Joins a cell that comes after another, if there is one. If this one is of a later key, no
/// further cell of that one's key comes: its finished rows are then made ready to be shared, so
/// that no more than one series is held as it is built.
fn join_next<A: Cells>(
    replica: &mut Replica<A>,
    before: &Option<Cell>,
    cell: &Cell,
) -> Result<(), AllocError>
    requires { IsCellOf replica.old.schema (owned_cell cell.now) }
    ensures state { Becomes (replica_state replica.old)
        (with_cell (replica_state replica.old) cell.now) (replica_state replica.new) result }
{
    if let Some(before) = before {
        if before.key != cell.key {
            replica.finish_rows_of(&before.key);
        }
    }
    replica.join_cell(cell)
}

/// Joins the cells after a head into a replica, each after the one before it, and returns whether
/// one of them is of the replica's own origin. They are of the schema before the head's addition.
/// Only the last cell is kept, for its name.
fn join_cells_from<A: Cells, R: Read>(
    alloc: Global,
    input: &mut Counted<R>,
    head: Head,
    own: &Schema,
    replica: &mut Replica<A>,
    hasher: &mut Sha256,
) -> Result<bool, LoadFault>
    requires addition { IsAddition replica.old.schema head.addition }
    requires own { own.now ≡ older replica.old.schema head.addition }
    ensures read { StreamMakes (HasJoined head.addition (replica_state replica.old)
        (replica_state replica.new)) result
        (R.remaining (inner_of input.old)) (R.remaining (inner_of input.new))
        (cells_after replica.old.schema head) }
    ensures loads { LoadsCells replica.old.schema head R.remaining input.old input.new
        hasher.old hasher.new result }
{
    let _archives = own.archives(); // their contract says that they are few
    let origin = replica.origin();
    let mut buffer = [0u8; MAX_CELL_LEN];
    let mut before = None;
    let mut has_own = false;
    for _ in 0..head.count {
        let (mut cell, len) = cell_from(alloc, input, &mut buffer, own, head.version)?;
        hasher.update(&buffer[..len]);
        cell.archive = raised(head.addition, cell.archive);
        if !is_after(&before, &cell) {
            return Err(LoadFault::OutOfOrder);
        }
        join_next(replica, &before, &cell)?;
        has_own |= cell.origin == origin;
        before = Some(cell);
    }
    Ok(has_own)
}

/// The same, making the schema before the addition if there was one.
fn join_cells_after<A: Cells, R: Read>(
    alloc: Global,
    input: &mut Counted<R>,
    head: Head,
    schema: &Schema,
    replica: &mut Replica<A>,
    hasher: &mut Sha256,
) -> Result<bool, LoadFault>
    requires schema { schema.now ≡ replica.old.schema }
    requires addition { IsAddition schema.now head.addition }
    requires older_has_archives { 1 ≤ length (older schema.now head.addition).archives }
    ensures read { StreamMakes (HasJoined head.addition (replica_state replica.old)
        (replica_state replica.new)) result
        (R.remaining (inner_of input.old)) (R.remaining (inner_of input.new))
        (cells_after schema.now head) }
    ensures loads { LoadsCells schema.now head R.remaining input.old input.new
        hasher.old hasher.new result }
{
    match head.addition {
        Addition::Nothing => join_cells_from(alloc, input, head, schema, replica, hasher),
        Addition::Archive(number) => {
            let own = schema.without(alloc, number)?;
            join_cells_from(alloc, input, head, &own, replica, hasher)
        }
    }
}

/// Reads a snapshot, which must be all of the input, into a replica of the reader's schema without
/// cells. Only `load` owns a replica, so that it is dropped only there if the load is refused.
fn load_into<A: Cells, R: Read>(
    alloc: Global,
    input: &mut Counted<R>,
    schema: &Schema,
    replica: &mut Replica<A>,
) -> Result<(), LoadFault>
    requires schema { replica.old.schema ≡ schema.now }
    requires next { replica.old.next ≡ 1 }
    requires cells { replica.old.cells ≡ empty }
    ensures read { IfSome (R.remaining (inner_of input.old)) (λ bytes.
        GivesIfRead (λ _. replica_state replica.new) result
        (loaded_at schema.now replica.old.origin bytes)) }
    ensures schema { OnOk result (replica.new.schema ≡ schema.now) }
    ensures origin { OnOk result (replica.new.origin ≡ replica.old.origin) }
    ensures next { OnOk result (replica.new.next ≡ 1) }
    ensures loads { LoadsAll schema.now R.remaining input.old input.new result }
{
    let mut hasher = Sha256::new();
    let head = head_from(input, schema, &mut hasher)?;
    let has_own = join_cells_after(alloc, input, head, schema, replica, &mut hasher)?;
    digest_from(input, &hasher.finalize())?;
    end_from(input)?;
    if head.origin == replica.origin() || has_own {
        return Err(LoadFault::OriginUsed);
    }
    Ok(())
}

/// Reads a snapshot, which must be all of the input, of the reader's schema or of one with one
/// archive less, into a replica of a new origin, whose next number is 1. An archive that the
/// snapshot's schema lacks has no cells; the numbers of those after it are higher by one than in
/// the snapshot. One cell's bytes of the snapshot are in memory at a time.
///
/// Refused as the first fault from left to right: `ReadFailed` if a read fails; `Short` if fewer
/// bytes are left than a field has; `BadMagic`; `BadVersion`; `SchemaDiffers`, once the step and
/// the number of archives are read, and again once the archives are, unless both are those of the
/// reader's schema, or of it without one archive; `BadOrigin`; for each cell those of
/// [`read_cell`](rr_page::read_cell), and then `OutOfOrder` if its name is not greater than the one
/// before; `BadDigest`; `TrailingBytes`; and last `OriginUsed` if the new origin is that of the
/// snapshot or of one of its cells, including those past the horizon. `Memory` comes before
/// anything is read, after a good head, or at a good cell that follows good ones, and never after
/// the cells. A refused load gives no replica, and a prefix of the input has been read. The cost is
/// linear in the bytes, plus that of joining the cells.
pub fn load<A: Cells, R: Read>(
    alloc: Global,
    input: &mut Counted<R>,
    schema: &Schema,
    new_origin: Origin,
) -> Result<Replica<A>, LoadFault>
    // If the bytes of the input are known, the result is what they are loaded as.
    ensures read { IfSome (R.remaining (inner_of input.old)) (λ bytes.
        GivesIfRead replica_state result (loaded_at schema.now new_origin bytes)) }
    // Whatever the input is, the replica has this schema and origin, and the first number.
    ensures schema { IfOk result (λ replica. replica.schema ≡ schema.now) }
    ensures origin { IfOk result (λ replica. replica.origin ≡ new_origin) }
    ensures next { IfOk result (λ replica. replica.next ≡ 1) }
    ensures loads { LoadsAll schema.now R.remaining input.old input.new result }
{
    let mut replica = Replica::new(alloc, schema, new_origin)?;
    load_into(alloc, input, schema, &mut replica)?;
    Ok(replica)
}
