//! The cells that a reader gives, written one record after another.
ghost use Rattle.std.specs.Prelude.{◌≡◌, ◌+◌, ◌^◌, ◌<◌, ◌≤◌, IfOk, IsErrOf, OnOk, length, option_map};
ghost use Rattle.rr_cells.specs.Listing.{owned_cell};
ghost use Rattle.rr_changes.specs.Changes.{name_in};
ghost use Rattle.rr_desk.specs.ReaderState.{HasSeenMore};
ghost use Rattle.rr_journal.specs.Text.{records_text};
ghost use Rattle.rr_checkpoint.specs.Walk.{IsTooLong};
ghost use Rattle.rr_checkpoint.specs.Writing.{IsLastOf, WritesOn, WritesSome, WritesWalk, next_seen};

use crate::fault::CheckpointFault;
use crate::progress::{Progress, with_more, write_cells};
use rr_archive::Cells;
use rr_cells::Cell;
use rr_commit::MAX_RECORD_CELLS;
use rr_desk::Reader;
use rr_io::Counted;
use std::alloc::Global;
use std::io::Write;

/// Writes the record of the next cells that a reader gives after one, and returns the last of
/// these, or none if no more cells follow.
fn write_next<A: Cells, W: Write>(
    alloc: Global,
    reader: &mut Reader<A>,
    after: Option<&Cell>,
    progress: &mut Progress,
    output: &mut Counted<W>,
) -> Result<Option<Cell>, CheckpointFault>
    ensures seen { HasSeenMore reader.old reader.new }
    ensures written { OnOk result (WritesOn W.contents output.old output.new progress.old
        progress.new (next_seen reader.new (name_in after.entry))) }
    ensures fits { OnOk result (progress.new.cells < 2 ^ 64) }
    ensures last { IfOk result (λ last. IsLastOf (name_in after.entry)
        (next_seen reader.new (name_in after.entry)) (option_map (λ c. (owned_cell c).0) last)) }
    ensures some { WritesSome W.contents output.old output.new
        (records_text progress.old.place.digest) result }
    ensures too_many { IsErrOf result CheckpointFault.TooManyCells
        → 2 ^ 64 ≤ progress.old.cells + length (next_seen reader.new (name_in after.entry)) }
{
    let mut cells = reader.cells_after(alloc, after, MAX_RECORD_CELLS)?;
    write_cells(alloc, &cells, &mut progress.place, output)?;
    let sum = with_more(progress.cells, cells.len())?;
    progress.cells = sum;
    if cells.len() < MAX_RECORD_CELLS {
        return Ok(None);
    }
    Ok(cells.pop())
}

/// Writes all cells that a reader gives, a record's at a time: each time the next ones, by what it
/// has seen then, until fewer come.
pub(crate) fn write_walk<A: Cells, W: Write>(
    alloc: Global,
    reader: &mut Reader<A>,
    progress: &mut Progress,
    output: &mut Counted<W>,
) -> Result<(), CheckpointFault>
    requires { progress.old.cells ≡ 0 }
    ensures seen { HasSeenMore reader.old reader.new }
    ensures written { OnOk result (WritesWalk W.contents output.old output.new progress.old
        progress.new reader.old reader.new) }
    ensures some { WritesSome W.contents output.old output.new
        (records_text progress.old.place.digest) result }
    ensures too_many { IsErrOf result CheckpointFault.TooManyCells
        → IsTooLong reader.old reader.new }
{
    let mut after = write_next(alloc, reader, None, progress, output)?;
    while let Some(last) = after {
        after = write_next(alloc, reader, Some(&last), progress, output)?;
    }
    Ok(())
}
