//! Writing a replica's cells as a snapshot.
ghost use Rattle.std.specs.Prelude.{◌≡◌, ◌↔◌, ◌<◌, Err, OnOk};
ghost use Rattle.std.specs.FinMap.{entries, len};
ghost use Rattle.std.specs.Io.KnownBytes.{Keeps};
ghost use Rattle.std.specs.List.{flat_map};
ghost use Rattle.rr_io.specs.Counted.{inner_of};
ghost use Rattle.rr_page.specs.CellText.{cell_text};
ghost use Rattle.rr_page.specs.Version.{latest};
ghost use Rattle.rr_cells.specs.ReplicaState.{IsReplicaState};
ghost use Rattle.rr_replica.specs.ReplicaWithRoom.{replica_state};
ghost use Rattle.rr_snapshot.specs.Saving.{Saves, SavesPart};
ghost use Rattle.rr_snapshot.specs.Snapshot.{snapshot_text};
ghost use Rattle.rr_snapshot.specs.declared.heading.TheConstants.{MAX_SNAPSHOT_CELLS};

use crate::fault::SaveFault;
use crate::heading::{MAX_SNAPSHOT_CELLS, head_bytes};
use crate::writing::{write_cell, write_piece};
use rr_archive::Cells;
use rr_io::Counted;
use rr_io::stream::write_all;
use rr_replica::{CellWalk, Replica};
use sha2::{Digest, Sha256};
use std::alloc::Global;
use std::io::Write;

/// Writes the cells of a replica, in order, and adds their bytes to what is digested. The cost is
/// that of `CellWalk::next_cell` for each cell, and of its bytes.
fn write_cells<A: Cells, W: Write>(
    alloc: Global,
    replica: &Replica<A>,
    count: u32,
    output: &mut Counted<W>,
    hasher: &mut Sha256,
) -> Result<(), SaveFault>
    requires count_given { count ≡ len replica.now.cells }
    ensures { SavesPart W.contents output.old output.new hasher.old hasher.new
        (flat_map (cell_text latest) (entries replica.now.cells)) result }
{
    let mut walk = CellWalk::new(alloc, replica);
    let mut next = replica.cell_at(0);
    for _ in 0..count {
        let Some(cell) = next else {
            return Ok(());
        };
        write_cell(alloc, &cell, output, hasher)?;
        next = walk.next_cell(cell.key, cell.archive, cell.slot, cell.origin);
    }
    Ok(())
}

/// Writes the cells of a replica as a snapshot in the latest version, one after the other. Besides
/// the replica, a run of its cells and one cell's bytes are in memory at a time.
///
/// Refused as `TooManyCells` if there are more than 4,294,967,295 cells, and then nothing is
/// written; as `WriteFailed` if the writer fails; or as `Memory`. After a refusal, a prefix of the
/// snapshot has been written. The cost is linear in the series and in the bytes.
pub fn save<A: Cells, W: Write>(
    alloc: Global,
    replica: &Replica<A>,
    output: &mut Counted<W>,
) -> Result<(), SaveFault>
    ensures saves { Saves W.contents output.old output.new
        (snapshot_text latest replica.now.schema replica.now.origin (entries replica.now.cells))
        result }
    ensures too_many { (result ≡ Err SaveFault.TooManyCells)
        ↔ (MAX_SNAPSHOT_CELLS < len replica.now.cells) }
    ensures nothing_written { result ≡ Err SaveFault.TooManyCells
        → Keeps (W.contents (inner_of output.old)) (W.contents (inner_of output.new)) }
    ensures holds { OnOk result (IsReplicaState (replica_state replica.now)) }
{
    let count = replica.cell_count();
    if count > MAX_SNAPSHOT_CELLS as usize {
        return Err(SaveFault::TooManyCells);
    }
    let count = count as u32;
    let mut hasher = Sha256::new();
    let head = head_bytes(alloc, replica.schema(), replica.origin(), count)?;
    write_piece(output, &mut hasher, &head)?;
    write_cells(alloc, replica, count, output, &mut hasher)?;
    write_all(output, &hasher.finalize())?;
    Ok(())
}
