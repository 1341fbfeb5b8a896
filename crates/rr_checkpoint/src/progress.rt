//! How far a checkpoint is written.
ghost use Rattle.std.specs.Prelude.{◌≡◌, ◌≢◌, ◌+◌, ◌^◌, ◌≤◌, [], ◌∷◌, Err, IfOk, MatchResult, OnOk, length, map};
ghost use Rattle.rr_cells.specs.Listing.{owned_cell};
ghost use Rattle.rr_io.specs.Stream.{WritesWhole};
ghost use Rattle.rr_journal.specs.declared.raw.TheConstants.{MAX_BODY_LEN};
ghost use Rattle.rr_journal.specs.Text.{chain, raw_of, records_text};
ghost use Rattle.rr_checkpoint.specs.Text.{IsEndOf, end_text};
ghost use Rattle.rr_checkpoint.specs.Writing.{WritesRecords, WritesSome};

use crate::fault::CheckpointFault;
use rr_cells::Cell;
use rr_commit::{MAX_RECORD_CELLS, record_of};
use rr_io::Counted;
use rr_journal::{Cursor, JournalFault, RawRecord, Record, encode, write_record};
use std::alloc::{AllocError, Global};
use std::io::Write;

/// How far a checkpoint is written.
#[derive(Clone, Copy)]
pub(crate) struct Progress {
    /// The place after its records so far.
    pub(crate) place: Cursor,
    /// How many cells these have.
    pub(crate) cells: u64,
}

/// A number of cells plus that of some more.
pub(crate) fn with_more(cells: u64, more: usize) -> Result<u64, CheckpointFault>
    ensures { MatchResult result (λ sum. sum ≡ cells + more)
        (λ fault. (fault ≡ CheckpointFault.TooManyCells) × (2 ^ 64 ≤ cells + more)) }
{
    match cells.checked_add(more as u64) {
        Some(sum) => Ok(sum),
        None => Err(CheckpointFault::TooManyCells),
    }
}

/// Writes a record at a place, and moves the place past it.
fn write_raw<W: Write>(
    raw: &RawRecord,
    place: &mut Cursor,
    output: &mut Counted<W>,
) -> Result<(), CheckpointFault>
    requires { length raw.now.body.items ≤ MAX_BODY_LEN }
    ensures written { OnOk result (WritesWhole W.contents output.old output.new
        (records_text place.old.digest (raw_of raw.now ∷ []))) }
    ensures chains { OnOk result (place.new.digest
        ≡ chain place.old.digest (raw_of raw.now ∷ [])) }
    ensures some { WritesSome W.contents output.old output.new (records_text place.old.digest)
        result }
    ensures few { result ≢ Err CheckpointFault.TooManyCells }
{
    write_record(output, place, raw)?;
    Ok(())
}

/// Writes the record of some cells, unless there are none.
pub(crate) fn write_cells<W: Write>(
    alloc: Global,
    cells: &[Cell],
    place: &mut Cursor,
    output: &mut Counted<W>,
) -> Result<(), CheckpointFault>
    requires { length cells.now ≤ MAX_RECORD_CELLS }
    ensures written { OnOk result (WritesRecords W.contents output.old output.new place.old.digest
        place.new.digest (map owned_cell cells.now)) }
    ensures some { WritesSome W.contents output.old output.new (records_text place.old.digest)
        result }
    ensures few { result ≢ Err CheckpointFault.TooManyCells }
{
    if cells.is_empty() {
        return Ok(());
    }
    let raw = record_of(alloc, cells)?;
    write_raw(&raw, place, output)
}

/// The only fault that so short a record can meet.
fn out_of_memory(fault: JournalFault) -> AllocError
    requires { fault ≡ JournalFault.Memory }
{
    let _ = fault;
    AllocError
}

/// The record that ends a checkpoint with this number of cells.
fn end_of(alloc: Global, cells: u64) -> Result<RawRecord, AllocError>
    ensures { IfOk result (IsEndOf cells) }
{
    match encode(alloc, &Record::End(cells)) {
        Ok(raw) => Ok(raw),
        Err(fault) => Err(out_of_memory(fault)),
    }
}

/// Writes the end of a checkpoint, which states how many cells it has.
pub(crate) fn write_end<W: Write>(
    alloc: Global,
    progress: Progress,
    output: &mut Counted<W>,
) -> Result<(), CheckpointFault>
    ensures written { OnOk result (WritesWhole W.contents output.old output.new
        (records_text progress.place.digest (end_text progress.cells ∷ []))) }
    ensures some { WritesSome W.contents output.old output.new
        (records_text progress.place.digest) result }
    ensures few { result ≢ Err CheckpointFault.TooManyCells }
{
    let mut place = progress.place;
    let raw = end_of(alloc, progress.cells)?;
    write_raw(&raw, &mut place, output)
}
