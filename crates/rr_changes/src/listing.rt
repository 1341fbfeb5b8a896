//! The cells of an archive within ranges.
ghost use Rattle.std.specs.Prelude.{◌≡◌, ◌<◌, ◌≤◌, ◌++◌, ◌+◌, ◌+ℤ◌, ◌-ℤ◌, ◌≤ℤ◌, ◌<ℤ◌, [], pos, IfOk, OnOk, None, Some, length, map};
ghost use Rattle.rr_archive.specs.CellSlots.{IsSlot};
ghost use Rattle.rr_cells.specs.Cells.{archive_cells};
ghost use Rattle.rr_changes.specs.Listing.{archive_changes, cells_between, up_to_slot, PushesRun};

use crate::changed_series::ChangedSeries;
use crate::slots::Slots;
use rr_archive::{Cells, Entry};
use rr_replica::{Hint, Replica};
use rr_schema::Origin;
use std::alloc::{AllocError, Global};
use std::marker::Model;

/// Of so few slots each is read by itself; of more, runs of them are read together.
const FEW: i64 = 8;

const _: () = prove!(FEW == 8);

/// The changes of one archive of a series after another, in memory that is used again. Contracts see
/// it as the list of these cells.
#[derive(Drop)]
pub struct ArchiveChanges {
    cells: Vec<(i64, Entry)>,
    row: Vec<Entry>,
    run: Vec<(i64, Entry)>,
}

impl Model for ArchiveChanges {
    ghost use Rattle.std.specs.Prelude.{List, ℤ};
    ghost use Rattle.rr_archive.specs.declared.entry.Entry.{Entry};

    ghost Value = { List (ℤ × Entry) };

    ghost view = { λ c. c.cells.items };
}

/// Adds the entries of a slot.
fn push_row(cells: &mut Vec<(i64, Entry)>, slot: i64, row: &[Entry]) -> Result<(), AllocError>
    ensures { OnOk result (cells.new.items ≡ cells.old.items ++ map (λ e. (slot, e)) row.now) }
{
    for entry in row {
        cells.push((slot, *entry))?;
    }
    Ok(())
}

/// Adds the cells of a run that are of slots up to a last one.
fn push_up_to(
    cells: &mut Vec<(i64, Entry)>,
    run: &[(i64, Entry)],
    last: i64,
) -> Result<(), AllocError>
    ensures { OnOk result (cells.new.items ≡ cells.old.items ++ up_to_slot last run.now) }
{
    for cell in run {
        if cell.0 > last {
            return Ok(());
        }
        cells.push(*cell)?;
    }
    Ok(())
}

impl ArchiveChanges {
    /// No cells yet. Takes no memory.
    pub fn new(alloc: Global) -> ArchiveChanges
        ensures { result ≡ [] }
    {
        ArchiveChanges {
            cells: Vec::new(alloc),
            row: Vec::new(alloc),
            run: Vec::new(alloc),
        }
    }

    /// The cells that were listed last, as slots and entries, in order.
    pub fn cells(&self) -> &[(i64, Entry)]
        ensures { result.now ≡ self.now }
    {
        &self.cells
    }

    /// Lists the changes of a series in one of its archives: the live cells in the slots of its
    /// ranges.
    ///
    /// The cost is that of finding the series by its number, and for each of its ranges that of
    /// `Cells::entries_into` for a few slots, or else that of `Cells::next_cell` and
    /// `Cells::cells_into` for each run of slots that has a cell.
    pub fn list<A: Cells>(
        &mut self,
        replica: &Replica<A>,
        series: &ChangedSeries,
        archive: u8,
    ) -> Result<(), AllocError>
        requires { archive < length replica.now.schema.archives }
        ensures { OnOk result (self.new ≡ archive_changes replica.now.schema archive
            series.now.times (archive_cells replica.now.cells series.now.key archive)) }
    {
        self.cells.clear();
        let hint = Hint::at(series.number);
        let Some(held) = replica.archive_near(hint, &series.key, archive) else {
            return Ok(());
        };
        let (schema, origin) = (replica.schema(), replica.origin());
        let recent = Slots::of(schema, archive, &series.times.recent);
        let late = Slots::of(schema, archive, &series.times.late);
        if late.last < recent.first {
            self.push_slots(held, &late, origin)?;
            return self.push_slots(held, &recent, origin);
        }
        if recent.last < late.first {
            self.push_slots(held, &recent, origin)?;
            return self.push_slots(held, &late, origin);
        }
        let both = Slots {
            first: recent.first.min(late.first),
            last: recent.last.max(late.last),
        };
        self.push_slots(held, &both, origin)
    }

    /// Adds the cells of an archive in some slots.
    fn push_slots<A: Cells>(
        &mut self,
        archive: &A,
        slots: &Slots,
        origin: Origin,
    ) -> Result<(), AllocError>
        requires first { IsSlot slots.now.first }
        requires last { IsSlot slots.now.last }
        ensures { OnOk result (self.new ≡ self.old
            ++ cells_between (A.cells archive.now) slots.now.first (slots.now.last +ℤ pos 1)) }
    {
        if slots.last - slots.first < FEW {
            self.push_rows(archive, slots)
        } else {
            self.push_runs(archive, slots, origin)
        }
    }

    /// Adds the cells of an archive in some slots, slot by slot.
    fn push_rows<A: Cells>(&mut self, archive: &A, slots: &Slots) -> Result<(), AllocError>
        requires first { IsSlot slots.now.first }
        requires last { IsSlot slots.now.last }
        ensures { OnOk result (self.new ≡ self.old
            ++ cells_between (A.cells archive.now) slots.now.first (slots.now.last +ℤ pos 1)) }
    {
        for slot in slots.first..slots.last + 1 {
            archive.entries_into(slot, &mut self.row)?;
            push_row(&mut self.cells, slot, &self.row)?;
        }
        Ok(())
    }

    /// Adds the cells of an archive in some slots, run by run.
    fn push_runs<A: Cells>(
        &mut self,
        archive: &A,
        slots: &Slots,
        origin: Origin,
    ) -> Result<(), AllocError>
        requires first { IsSlot slots.now.first }
        requires last { IsSlot slots.now.last }
        ensures { OnOk result (self.new ≡ self.old
            ++ cells_between (A.cells archive.now) slots.now.first (slots.now.last +ℤ pos 1)) }
    {
        let mut first = slots.first;
        while first <= slots.last {
            match self.push_run(archive, first, slots.last, origin)? {
                Some(next) => first = next,
                None => return Ok(()),
            }
        }
        Ok(())
    }

    /// Adds the cells of the first run of an archive that begins with a cell, from a slot on and up
    /// to a last one, and returns the slot after the run. There is none if no cell is left.
    fn push_run<A: Cells>(
        &mut self,
        archive: &A,
        first: i64,
        last: i64,
        origin: Origin,
    ) -> Result<Option<i64>, AllocError>
        requires first { IsSlot first }
        requires last { IsSlot last }
        requires order { first ≤ℤ last }
        ensures { PushesRun (A.cells archive.now) first last self.old self.new result }
    {
        let Some((cell, _)) = archive.next_cell(first - 1, origin) else {
            return Ok(None);
        };
        if cell > last {
            return Ok(None);
        }
        let start = cell.max(first);
        let slots = archive.cells_into(start, &mut self.run)?;
        push_up_to(&mut self.cells, &self.run, last)?;
        Ok(Some(start + i64::from(slots)))
    }
}
