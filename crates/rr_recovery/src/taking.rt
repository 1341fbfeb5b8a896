//! Taking records into a replica.
ghost use Rattle.std.specs.Prelude.{◌≡◌, ◌<◌, [], ◌∷◌, length, map, slice_get, Some, IfOk, IsTrue};
ghost use Rattle.std.specs.List.{flat_map, AllByRecursion};
ghost use Rattle.rr_cells.specs.Listing.{owned_cell};
ghost use Rattle.rr_contrib.specs.Validity.{is_valid};
ghost use Rattle.rr_text.specs.Results.{GivesUnless};
ghost use Rattle.rr_journal.specs.Body.{HasOrigin, meaning_of, packed_cells, record_meaning};
ghost use Rattle.rr_journal.specs.Text.{raw_of};
ghost use Rattle.rr_recovery.specs.Joining.{group_cells, named_by};
ghost use Rattle.rr_recovery.specs.Taking.{IsCheckedGroup, Takes, as_bad, recovery, taken, taken_cells, taken_record};

use crate::fault::RecoveryFault;
use crate::found::{Found, put_cursor};
use rr_archive::{Cells, Entry};
use rr_cells::Cell;
use rr_codec::Decoder;
use rr_journal::{Group, JournalFault, RawRecord, Record, decode};
use rr_replica::Replica;
use rr_schema::{Origin, Schema};
use std::alloc::{AllocError, Global};

/// A cell of a group, which shares the group's key.
fn cell_of(group: &Group, cell: &(i64, Entry)) -> Result<Cell, AllocError>
    ensures { IfOk result (λ c. owned_cell c
        ≡ named_by group.now.key group.now.archive cell.now) }
{
    Ok(Cell {
        key: group.key.copy()?,
        archive: group.archive,
        slot: cell.0,
        origin: cell.1.origin,
        contribution: cell.1.contribution,
    })
}

/// Joins a cell of a group whose series has this number, unless it is of the replica's own origin.
fn take_cell<A: Cells>(
    group: &Group,
    series: usize,
    cell: &(i64, Entry),
    replica: &mut Replica<A>,
    found: &mut Found,
) -> Result<(), RecoveryFault>
    requires archive { group.now.archive < length replica.old.schema.archives }
    requires valid { IsTrue (is_valid replica.old.schema group.now.archive cell.now.0
        cell.now.1.contribution) }
    requires series { slice_get replica.old.keys series ≡ Some group.now.key }
    ensures taken { Takes (recovery replica.old found.old) (recovery replica.new found.new)
        (taken_cells (recovery replica.old found.old)
        (named_by group.now.key group.now.archive cell.now ∷ [])) result }
    ensures keys { replica.new.keys ≡ replica.old.keys }
{
    if cell.1.origin == replica.origin() {
        return Err(RecoveryFault::OriginUsed);
    }
    // The proof needs the invariants of the key and the origin, which these ensure.
    let _text = group.key.text();
    let _number = cell.1.origin.get();
    let cell = cell_of(group, cell)?;
    replica.join_cell_numbered(series, &cell)?;
    found.cells = found.cells.saturating_add(1);
    Ok(())
}

/// Joins the cells of a group whose series has this number, one by one, up to the first of the
/// replica's own origin.
fn take_cells<A: Cells>(
    group: &Group,
    series: usize,
    replica: &mut Replica<A>,
    found: &mut Found,
) -> Result<(), RecoveryFault>
    requires checked { IsCheckedGroup replica.old.schema (packed_cells group.now) }
    requires series { slice_get replica.old.keys series ≡ Some group.now.key }
    ensures { Takes (recovery replica.old found.old) (recovery replica.new found.new)
        (taken_cells (recovery replica.old found.old) (group_cells (packed_cells group.now)))
        result }
{
    let mut cells = Decoder::new(&group.packed)?;
    while let Some(cell) = cells.next()? {
        take_cell(group, series, &cell, replica, found)?;
    }
    Ok(())
}

/// Joins the cells of a group, up to the first of the replica's own origin. The series is looked up
/// once.
fn take_group<A: Cells>(
    group: &Group,
    replica: &mut Replica<A>,
    found: &mut Found,
) -> Result<(), RecoveryFault>
    requires { IsCheckedGroup replica.old.schema (packed_cells group.now) }
    ensures { Takes (recovery replica.old found.old) (recovery replica.new found.new)
        (taken_cells (recovery replica.old found.old) (group_cells (packed_cells group.now)))
        result }
{
    let series = replica.series_of(&group.key)?;
    take_cells(group, series, replica, found)
}

/// Joins the cells of groups, in order.
fn take_groups<A: Cells>(
    groups: &[Group],
    replica: &mut Replica<A>,
    found: &mut Found,
) -> Result<(), RecoveryFault>
    requires { AllByRecursion (IsCheckedGroup replica.old.schema) (map packed_cells groups.now) }
    ensures { Takes (recovery replica.old found.old) (recovery replica.new found.new)
        (taken_cells (recovery replica.old found.old)
        (flat_map group_cells (map packed_cells groups.now))) result }
{
    for group in groups {
        take_group(group, replica, found)?;
    }
    Ok(())
}

/// Keeps an origin in `found`, unless it is the replica's own.
fn take_origin<A: Cells>(
    origin: Origin,
    replica: &Replica<A>,
    found: &mut Found,
) -> Result<(), RecoveryFault>
    ensures { Takes (recovery replica.now found.old) (recovery replica.now found.new)
        (taken (recovery replica.now found.old) (HasOrigin origin)) result }
{
    if origin == replica.origin() {
        return Err(RecoveryFault::OriginUsed);
    }
    found.origin = Some(origin);
    Ok(())
}

/// What a record means, with a recovery's faults.
pub(crate) fn meaning_of(
    alloc: Global,
    raw: &RawRecord,
    schema: &Schema,
) -> Result<Record, RecoveryFault>
    ensures { GivesUnless RecoveryFault.Memory meaning_of result
        (as_bad (record_meaning schema.now (raw_of raw.now))) }
{
    match decode(alloc, raw, schema) {
        Ok(record) => Ok(record),
        Err(JournalFault::Memory) => Err(RecoveryFault::Memory),
        Err(fault) => Err(RecoveryFault::BadRecord(fault)),
    }
}

/// Counts a record, and joins its cells or keeps in `found` what it holds instead.
pub(crate) fn take_record<A: Cells>(
    alloc: Global,
    raw: &RawRecord,
    schema: &Schema,
    replica: &mut Replica<A>,
    found: &mut Found,
) -> Result<(), RecoveryFault>
    requires { schema.now ≡ replica.old.schema }
    ensures { Takes (recovery replica.old found.old) (recovery replica.new found.new)
        (taken_record (recovery replica.old found.old) (raw_of raw.now)) result }
{
    let meaning = meaning_of(alloc, raw, schema)?;
    found.count_record();
    match meaning {
        Record::Cells(groups) => take_groups(&groups, replica, found),
        Record::Origin(origin) => take_origin(origin, replica, found),
        Record::Cursor(cursor) => Ok(put_cursor(&mut found.cursors, cursor)?),
        Record::End(count) => {
            found.end = Some(count);
            Ok(())
        }
        Record::Witness(_) => Ok(()),
    }
}
