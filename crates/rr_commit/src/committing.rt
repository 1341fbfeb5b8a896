//! Records, committed in as many batches as they take.
ghost use Rattle.std.specs.Prelude.{◌≡◌, ◌≤◌, length, map};
ghost use Rattle.std.specs.List.{AllByRecursion};
ghost use Rattle.rr_journal.specs.declared.raw.TheConstants.{MAX_BODY_LEN};
ghost use Rattle.rr_journal.specs.Text.{raw_of};
ghost use Rattle.rr_commit.specs.Committing.{CommitsAll};

use rr_journal::{CommitFault, Cursor, Journal, RawRecord, commit, fits_between_syncs};

/// Commits records, in batches of no more than may be written between two syncs: too many are
/// halved, and each half is committed on its own. `cursor` is the end of the journal, and moves
/// with it. With no records, nothing is done.
///
/// All that was written before must be synced. Refused as [`commit`] refuses a batch; the batches
/// before it stay.
pub fn commit_all<J: Journal>(
    journal: &mut J,
    cursor: &mut Cursor,
    records: &[RawRecord],
) -> Result<(), CommitFault>
    requires fit { AllByRecursion (λ raw. length raw.body.items ≤ MAX_BODY_LEN) records.now }
    requires synced { J.text journal.old ≡ J.synced journal.old }
    ensures { CommitsAll (map raw_of records.now) (J.synced journal.old) (J.synced journal.new)
        (J.text journal.new) cursor.old cursor.new result }
{
    // The proof needs the offset to be one of 64 bits.
    let _offset = cursor.offset;
    if records.is_empty() {
        return Ok(());
    }
    if records.len() < 2 || fits_between_syncs(records) {
        return commit(journal, cursor, records);
    }
    let (first, others) = records.split_at(records.len() / 2);
    commit_all(journal, cursor, first)?;
    commit_all(journal, cursor, others)
}
