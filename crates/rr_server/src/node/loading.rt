//! A new directory that begins with a snapshot.
ghost use Rattle.std.specs.Prelude.{◌≤◌, OnOk, length};
ghost use Rattle.std.specs.List.{AllByRecursion};
ghost use Rattle.rr_journal.specs.declared.raw.TheConstants.{MAX_BODY_LEN};

use rr_archive::Cells;
use rr_cells::Cell;
use rr_changes::next_cells;
use rr_commit::{ChangesFault, MAX_RECORD_CELLS, commit_all, record_of};
use rr_files::JournalFile;
use rr_journal::{Cursor, RawRecord};
use rr_replica::Replica;
use std::alloc::{AllocError, Global};
use std::fs::OpenFile;
use std::io::{Seek, Write};

/// How many records are committed at a time.
const RECORDS: usize = 16;

/// Adds the records of the next cells of a replica, and returns the last of these cells; none if no
/// more follow.
#[tactic(auto, using(crate::proofs::FitLemmas::all_fit_pushed))]
fn push_records<A: Cells>(
    alloc: Global,
    replica: &Replica<A>,
    after: Option<Cell>,
    records: &mut Vec<RawRecord>,
) -> Result<Option<Cell>, AllocError>
    requires fit { AllByRecursion (λ raw. length raw.body.items ≤ MAX_BODY_LEN) records.old.items }
    ensures { OnOk result (AllByRecursion (λ raw. length raw.body.items ≤ MAX_BODY_LEN)
        records.new.items) }
{
    let mut last = after;
    for _ in 0..RECORDS {
        let mut cells = next_cells(alloc, replica, last.as_ref(), MAX_RECORD_CELLS)?;
        let is_last = cells.len() < MAX_RECORD_CELLS;
        if !cells.is_empty() {
            let most = cells.len().min(MAX_RECORD_CELLS);
            records.push(record_of(alloc, &cells[..most])?)?;
        }
        if is_last {
            return Ok(None);
        }
        last = cells.pop();
    }
    Ok(last)
}

/// Commits all cells of a replica to a journal.
pub(crate) fn commit_replica<A: Cells, F: Write + Seek + OpenFile>(
    alloc: Global,
    replica: &Replica<A>,
    journal: &mut JournalFile<F>,
    cursor: &mut Cursor,
) -> Result<(), ChangesFault> {
    let mut after = None;
    for _ in 0..u64::MAX {
        let mut records = Vec::new(alloc);
        after = push_records(alloc, replica, after, &mut records)?;
        commit_all(journal, cursor, &records)?;
        if after.is_none() {
            break;
        }
    }
    Ok(())
}
