//! A keeper's changes, committed.
ghost use Rattle.std.specs.Prelude.{◌≡◌, ◌≢◌, IfErr, OnOk};
ghost use Rattle.rr_journal.specs.Keeping.{Grows};
ghost use Rattle.rr_replica.specs.Becomes.{Becomes};
ghost use Rattle.rr_desk.specs.KeeperState.{with_all_written};
ghost use Rattle.rr_commit.specs.Committing.{CommitsChanges, CommitsSome};

use crate::changes::change_records;
use crate::committing::commit_all;
use crate::fault::ChangesFault;
use rr_archive::Cells;
use rr_desk::Keeper;
use rr_journal::{Cursor, Journal};
use std::alloc::Global;

/// Commits what a keeper holds and its journal doesn't: whoever has joined what was written before,
/// and then reads on in the journal, holds what the keeper holds, and that survives a crash. So
/// whatever the keeper took may then be acknowledged. `cursor` is the end of the journal, and moves
/// with it.
///
/// All that was written before must be synced. Refused as `NotWritten`, where the changes remain to
/// be committed again; as `NotSynced`, after which the journal must be opened and read again; and
/// as `Memory`. The keeper is then as before, and what was synced stays; unless it is `NotSynced`,
/// some batches may be committed, and the cursor is after them. The cost is that of the series that
/// changed since.
pub fn commit_changes<A: Cells, J: Journal>(
    alloc: Global,
    keeper: &mut Keeper<A>,
    journal: &mut J,
    cursor: &mut Cursor,
) -> Result<(), ChangesFault>
    requires { J.text journal.old ≡ J.synced journal.old }
    ensures keeper { Becomes keeper.old (with_all_written keeper.old) keeper.new result }
    ensures committed { OnOk result (CommitsChanges keeper.old (J.synced journal.old)
        (J.synced journal.new) (J.text journal.new) cursor.old cursor.new) }
    ensures refused { IfErr result (λ fault. fault ≢ ChangesFault.NotSynced
        → CommitsSome (J.synced journal.old) (J.synced journal.new) (J.text journal.new)
        cursor.old cursor.new) }
    ensures grows { Grows (J.synced journal.old) (J.synced journal.new) }
{
    // The proof needs the offset to be one of 64 bits.
    let _offset = cursor.offset;
    let series = keeper.changed_series(alloc)?;
    let records = change_records(alloc, keeper, &series)?;
    commit_all(journal, cursor, &records)?;
    keeper.changes_written();
    Ok(())
}
