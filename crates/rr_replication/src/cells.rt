//! The cells of records.
ghost use Rattle.std.specs.Prelude.{◌≡◌, IfOk, Ok, map};
ghost use Rattle.std.specs.List.{flat_map, AllByRecursion};
ghost use Rattle.rr_cells.specs.Listing.{owned_cell};
ghost use Rattle.rr_journal.specs.Body.{meaning_of, packed_cells, record_meaning};
ghost use Rattle.rr_journal.specs.Text.{raw_of};
ghost use Rattle.rr_recovery.specs.Joining.{group_cells, named_by};
ghost use Rattle.rr_recovery.specs.Taking.{IsCheckedGroup};
ghost use Rattle.rr_replication.specs.Reading.{Adds, as_bad, record_cells, record_end};
ghost use Rattle.rr_text.specs.Results.{GivesUnless};

use crate::fault::PartFault;
use rr_archive::Entry;
use rr_cells::Cell;
use rr_codec::Decoder;
use rr_journal::{Group, JournalFault, RawRecord, Record, decode};
use rr_schema::Schema;
use std::alloc::{AllocError, Global};

/// A cell of a group, which shares the group's key.
fn cell_of(group: &Group, cell: &(i64, Entry)) -> Result<Cell, AllocError>
    ensures { IfOk result (λ c. owned_cell c
        ≡ named_by group.now.key group.now.archive cell.now) }
{
    Ok(Cell {
        key: group.key.copy()?,
        archive: group.archive,
        slot: cell.0,
        origin: cell.1.origin,
        contribution: cell.1.contribution,
    })
}

/// Appends the cells of a group.
fn push_group(group: &Group, schema: &Schema, cells: &mut Vec<Cell>) -> Result<(), PartFault>
    requires { IsCheckedGroup schema.now (packed_cells group.now) }
    ensures { Adds schema.now cells.old.items cells.new.items
        (Ok (group_cells (packed_cells group.now))) result }
{
    let mut packed = Decoder::new(&group.packed)?;
    while let Some(entry) = packed.next()? {
        let cell = cell_of(group, &entry)?;
        // The proof needs this to be a cell of the schema.
        let _is_of = cell.is_of(schema);
        cells.push(cell)?;
    }
    Ok(())
}

/// Appends the cells of groups, in order.
fn push_groups(groups: &[Group], schema: &Schema, cells: &mut Vec<Cell>) -> Result<(), PartFault>
    requires { AllByRecursion (IsCheckedGroup schema.now) (map packed_cells groups.now) }
    ensures { Adds schema.now cells.old.items cells.new.items
        (Ok (flat_map group_cells (map packed_cells groups.now))) result }
{
    for group in groups {
        push_group(group, schema, cells)?;
    }
    Ok(())
}

/// What a record means, with a part's faults.
fn meaning_of(alloc: Global, raw: &RawRecord, schema: &Schema) -> Result<Record, PartFault>
    ensures { GivesUnless PartFault.Memory meaning_of result
        (as_bad (record_meaning schema.now (raw_of raw.now))) }
{
    match decode(alloc, raw, schema) {
        Ok(record) => Ok(record),
        Err(JournalFault::Memory) => Err(PartFault::Memory),
        Err(fault) => Err(PartFault::BadRecord(fault)),
    }
}

/// Appends the cells of a record, in order, or refuses one that means nothing. An origin, a cursor,
/// an end and a witness have none. The result is the number that an end states.
pub(crate) fn push_record(
    alloc: Global,
    raw: &RawRecord,
    schema: &Schema,
    cells: &mut Vec<Cell>,
) -> Result<Option<u64>, PartFault>
    ensures cells { Adds schema.now cells.old.items cells.new.items
        (record_cells schema.now (raw_of raw.now)) result }
    ensures end { IfOk result (λ end. record_end schema.now (raw_of raw.now) ≡ Ok end) }
{
    match meaning_of(alloc, raw, schema)? {
        Record::Cells(groups) => {
            push_groups(&groups, schema, cells)?;
            Ok(None)
        }
        Record::End(count) => Ok(Some(count)),
        Record::Origin(_) | Record::Cursor(_) | Record::Witness(_) => Ok(None),
    }
}
