//! Recording the origin of a start.

ghost use Rattle.std.specs.Prelude.{◌≡◌, OnOk};
ghost use Rattle.rr_journal.specs.Keeping.{Grows};
ghost use Rattle.rr_batch.specs.Batches.{RecordsOrigin};

use rr_commit::ChangesFault;
use rr_journal::{Cursor, Journal, JournalFault, Record, commit, encode};
use rr_schema::Origin;
use std::alloc::{AllocError, Global};

/// The only fault that so short a record can meet.
pub(crate) fn out_of_memory(fault: JournalFault) -> AllocError
    requires { fault ≡ JournalFault.Memory }
{
    let _ = fault;
    AllocError
}

/// Commits a record of the origin of a node's samples from here on, before the first of them is
/// put, so that no later start takes the same origin, whatever a crash leaves.
///
/// All that was written before must be synced. Refused as `NotWritten`, which leaves the journal as
/// it was; as `NotSynced`, after which it must be opened and read again; and as `Memory`.
pub fn commit_origin<J: Journal>(
    alloc: Global,
    origin: Origin,
    journal: &mut J,
    cursor: &mut Cursor,
) -> Result<(), ChangesFault>
    requires { J.text journal.old ≡ J.synced journal.old }
    ensures recorded { OnOk result (RecordsOrigin origin (J.key journal.old)
        (J.synced journal.old)
        (J.synced journal.new) (J.text journal.new) cursor.old cursor.new) }
    ensures grows { Grows (J.synced journal.old) (J.synced journal.new) }
{
    let raw = match encode(alloc, &Record::Origin(origin)) {
        Ok(raw) => raw,
        Err(fault) => return Err(ChangesFault::from(out_of_memory(fault))),
    };
    commit(journal, cursor, &[raw])?;
    Ok(())
}
