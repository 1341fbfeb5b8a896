//! The archives of one key.
ghost use Rattle.std.specs.Prelude.{◌≡◌, ℕ, ◌<◌, slice_get, IsOk, OnOk, IfOk};
ghost use Rattle.std.specs.FinMap as fin;
ghost use Rattle.rr_replica.specs.Archives.{Each, AreOf, AreReadyFrom, AreSame, MakeRoom, SuitsArchives, SuitsUnkeyed, TakeCell, TakeSample};

use crate::slots::{place_in, slot_near};
use crate::unkeyed_sample::UnkeyedSample;
use rr_archive::Cells;
use rr_cells::{Cell, Op};
use rr_schema::{Origin, Schema};
use std::alloc::{AllocError, Global};

/// An archive without cells for each of a schema's.
pub(crate) fn empty_archives<A: Cells>(alloc: Global, schema: &Schema) -> Result<Vec<A>, AllocError>
    ensures of_schema { IfOk result (λ archives. AreOf A.row_limit schema.now archives.items) }
    ensures empty { IfOk result (λ archives. Each (λ i a. A.cells a ≡ fin.empty) archives.items) }
{
    let mut archives = Vec::with_capacity(alloc, schema.archives().len())?;
    for archive in schema.archives() {
        archives.push(A::new(alloc, archive.rows))?;
    }
    Ok(archives)
}

/// Makes room for a sample of a time and an origin in each archive from number `first` on, and
/// changes no cell.
#[inline(always)]
fn make_ready<A: Cells>(
    archives: &mut Vec<A>,
    schema: &Schema,
    time: i64,
    origin: Origin,
    first: usize,
) -> Result<(), AllocError>
    requires of_schema { AreOf A.row_limit schema.now archives.old.items }
    ensures unchanged { AreSame A.cells archives.old.items archives.new.items }
    ensures before { (i : ℕ) → i < first → slice_get archives.new.items i
        ≡ slice_get archives.old.items i }
    ensures of_schema { AreOf A.row_limit schema.now archives.new.items }
    ensures ready { OnOk result (AreReadyFrom first A.is_ready schema.now time origin
        archives.new.items) }
    ensures room_suffices { AreReadyFrom first A.is_ready schema.now time origin archives.old.items
        → IsOk result }
{
    for i in first..archives.len() {
        let newest = archives[i].newest();
        let slot = slot_near(schema, i as u8, time, newest);
        archives[i].ready(slot, origin)?;
    }
    Ok(())
}

/// Puts a sample into each archive, or into none: if the first can't take it, nothing has changed
/// yet, and those after it have room.
#[inline(always)]
pub(crate) fn store_in<A: Cells>(
    archives: &mut Vec<A>,
    schema: &Schema,
    sample: &UnkeyedSample,
) -> Result<(), AllocError>
    requires { SuitsUnkeyed A.cells A.row_limit schema.now sample.now archives.old.items }
    ensures { TakeSample A.cells A.row_limit A.is_ready schema.now sample.now archives.old.items
        archives.new.items result }
{
    make_ready(archives, schema, sample.time, sample.origin, 1)?;
    for i in 0..archives.len() {
        let newest = archives[i].newest();
        let slot = slot_near(schema, i as u8, sample.time, newest);
        let place = place_in(schema, i as u8, sample.time);
        archives[i].put(
            slot,
            sample.origin,
            sample.number,
            place,
            sample.time,
            sample.value,
        )?;
    }
    Ok(())
}

/// Joins a cell into its archive, or into none.
pub(crate) fn join_into<A: Cells>(
    archives: &mut Vec<A>,
    schema: &Schema,
    cell: &Cell,
) -> Result<(), AllocError>
    requires { SuitsArchives A.row_limit schema.now (Op.Join cell.now) archives.old.items }
    ensures { TakeCell A.cells A.row_limit A.is_ready schema.now cell.now archives.old.items
        archives.new.items result }
{
    // This is the cell's own slot, since the cell is valid; as the slot of a time, it is within
    // bounds.
    let slot = schema.slot(cell.archive, cell.contribution.last_time);
    let archive = &mut archives[cell.archive as usize];
    archive.join_cell(slot, cell.origin, &cell.contribution)
}

/// Makes room for an operation, and changes no cell.
#[inline(always)]
pub(crate) fn make_room<A: Cells>(
    archives: &mut Vec<A>,
    schema: &Schema,
    op: &Op,
) -> Result<(), AllocError>
    requires { SuitsArchives A.row_limit schema.now op.now archives.old.items }
    ensures { MakeRoom A.cells A.row_limit A.is_ready schema.now op.now archives.old.items
        archives.new.items result }
{
    match op {
        Op::Put(sample) => make_ready(archives, schema, sample.time, sample.origin, 0),
        Op::Join(cell) => {
            let slot = schema.slot(cell.archive, cell.contribution.last_time);
            let archive = &mut archives[cell.archive as usize];
            archive.ready(slot, cell.origin)
        }
    }
}
