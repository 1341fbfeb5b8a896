//! A checkpoint, written.
ghost use Rattle.std.specs.Prelude.{IfOk, IsErrOf, OnOk};
ghost use Rattle.rr_desk.specs.ReaderState.{HasSeenMore};
ghost use Rattle.rr_checkpoint.specs.Text.{file_text};
ghost use Rattle.rr_checkpoint.specs.Walk.{IsTooLong};
ghost use Rattle.rr_checkpoint.specs.Writing.{WritesCheckpoint, WritesSome};

use crate::fault::CheckpointFault;
use crate::progress::{Progress, write_end};
use crate::walk::write_walk;
use rr_archive::Cells;
use rr_desk::Reader;
use rr_io::Counted;
use rr_io::stream::write_all;
use rr_journal::{Cursor, header_bytes};
use std::alloc::Global;
use std::io::Write;

/// Writes a checkpoint, and returns how many cells it has: the header of a file that begins at
/// `begins`; records of all cells that the reader gives, a record's at a time, each chained to the
/// one before it and the first to the digest at `begins`; and the end with the number of cells.
///
/// Whoever reads it and then the journal from `begins` on holds what the node holds, if the reader
/// had seen all that is written before `begins` when the call began. One record is in memory at a
/// time, of at most [`MAX_RECORD_CELLS`](rr_commit::MAX_RECORD_CELLS) cells, and the keeper waits
/// at most for the reading of one. The caller must flush and sync what is written.
///
/// Refused as `WriteFailed` if the writer fails, as `TooManyCells` if the reader gives 2^64 cells
/// or more, and as `Memory`. Then a prefix of such a file was written, and must be removed. The
/// cost is that of [`Reader::cells_after`] for each record, plus one linear in the bytes.
pub fn write_checkpoint<A: Cells, W: Write>(
    alloc: Global,
    reader: &mut Reader<A>,
    begins: &Cursor,
    output: &mut Counted<W>,
) -> Result<u64, CheckpointFault>
    ensures written { IfOk result (WritesCheckpoint W.contents output.old output.new begins.now
        reader.old reader.new) }
    ensures some { WritesSome W.contents output.old output.new
        (file_text reader.old.schema begins.now) result }
    ensures too_many { IsErrOf result CheckpointFault.TooManyCells
        → IsTooLong reader.old reader.new }
    ensures seen { HasSeenMore reader.old reader.new }
{
    let header = header_bytes(alloc, reader.schema(), begins)?;
    write_all(output, &header)?;
    let mut progress = Progress {
        place: *begins,
        cells: 0,
    };
    write_walk(alloc, reader, &mut progress, output)?;
    write_end(alloc, progress, output)?;
    Ok(progress.cells)
}
