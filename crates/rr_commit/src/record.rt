//! Cells as a record of a journal.
ghost use Rattle.std.specs.Prelude.{◌≡◌, ◌≤◌, IfOk, length};
ghost use Rattle.rr_commit.specs.Records.{IsRecordOf};

use crate::grouping::groups_of;
use rr_cells::Cell;
use rr_journal::{JournalFault, RawRecord, Record, encode};
use std::alloc::{AllocError, Global};

/// The most cells of a record: whatever they are, they fit into one.
pub const MAX_RECORD_CELLS: usize = 512;

const _: () = prove!(MAX_RECORD_CELLS == 512);

/// The only fault that so few cells can meet.
fn out_of_memory(fault: JournalFault) -> AllocError
    requires { fault ≡ JournalFault.Memory }
{
    let _ = fault;
    AllocError
}

/// Cells as a record, which has them in the same order: at most [`MAX_RECORD_CELLS`], and at least
/// one, or the record means nothing. The cost is linear in the cells.
pub fn record_of(alloc: Global, cells: &[Cell]) -> Result<RawRecord, AllocError>
    requires { length cells.now ≤ MAX_RECORD_CELLS }
    ensures { IfOk result (λ raw. IsRecordOf cells.now raw) }
{
    let groups = groups_of(alloc, cells)?;
    match encode(alloc, &Record::Cells(groups)) {
        Ok(raw) => Ok(raw),
        Err(fault) => Err(out_of_memory(fault)),
    }
}
