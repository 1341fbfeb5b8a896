//! What a peer brings: cells, to be joined, and how far its journal was read, to be recorded.

ghost use Rattle.std.specs.Prelude.{◌≡◌, OnOk, fold};
ghost use Rattle.std.specs.List.{list_any};
ghost use Rattle.rr_journal.specs.Keeping.{Grows};
ghost use Rattle.rr_batch.specs.Peers.{RecordsCursor, is_unwritten, joined_if, joined_to};

use crate::origin::out_of_memory;
use rr_archive::Cells;
use rr_cells::Cell;
use rr_commit::ChangesFault;
use rr_desk::Keeper;
use rr_journal::{Cursor, Journal, Record, commit, encode};
use rr_schema::Origin;
use std::alloc::{AllocError, Global};

/// Whether a cell is of this origin, under a number that isn't below the next one.
fn is_unwritten(cell: &Cell, origin: Origin, next: u64) -> bool
    ensures { result ≡ is_unwritten origin next cell.now }
{
    cell.origin == origin && cell.contribution.version >= next
}

/// Whether a peer brings a cell of a node's own origin that the node never wrote, given the number
/// of its next sample: then another node writes under the same origin. Such cells may not be
/// joined. The cost is linear in the cells.
pub fn are_unwritten(cells: &[Cell], origin: Origin, next: u64) -> bool
    ensures { result ≡ list_any (is_unwritten origin next) cells.now }
{
    cells
        .iter()
        .any(|cell: &Cell| is_unwritten(cell, origin, next))
}

/// Joins a cell, if it is one of the keeper's schema.
fn join_if<A: Cells>(cell: &Cell, keeper: &mut Keeper<A>) -> Result<(), AllocError>
    ensures { OnOk result (keeper.new ≡ joined_if keeper.old cell.now) }
{
    if cell.is_of(keeper.schema()) {
        keeper.join_cell(cell)?;
    }
    Ok(())
}

/// Joins the cells that a peer brought, in order: each is then pending, and is published and
/// committed with the next batch. One that isn't of the keeper's schema is skipped.
///
/// If memory runs out, a prefix of them is pending. The cost is that of [`Keeper::join_cell`] for
/// each.
pub fn join_cells<A: Cells>(cells: &[Cell], keeper: &mut Keeper<A>) -> Result<(), AllocError>
    ensures { OnOk result (keeper.new ≡ joined_to keeper.old cells.now) }
{
    for cell in cells {
        join_if(cell, keeper)?;
    }
    Ok(())
}

/// Commits a record of how far the journal of a peer was read, after the cells that it had before
/// that, so that a later start continues there, and has these cells, whatever a crash leaves.
///
/// All that was written before must be synced. Refused as `NotWritten`, which leaves the journal as
/// it was; as `NotSynced`, after which it must be opened and read again; and as `Memory`.
pub fn commit_cursor<J: Journal>(
    alloc: Global,
    read: &Cursor,
    journal: &mut J,
    cursor: &mut Cursor,
) -> Result<(), ChangesFault>
    requires { J.text journal.old ≡ J.synced journal.old }
    ensures recorded { OnOk result (RecordsCursor read.now (J.key journal.old)
        (J.synced journal.old)
        (J.synced journal.new) (J.text journal.new) cursor.old cursor.new) }
    ensures grows { Grows (J.synced journal.old) (J.synced journal.new) }
{
    // The proof needs to know how many bytes these have, which their types ensure.
    let (_id, _digest) = (read.id, read.digest);
    let raw = match encode(alloc, &Record::Cursor(*read)) {
        Ok(raw) => raw,
        Err(fault) => return Err(ChangesFault::from(out_of_memory(fault))),
    };
    commit(journal, cursor, &[raw])?;
    Ok(())
}
