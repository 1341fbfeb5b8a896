//! Batches, committed and answered.

ghost use Rattle.std.specs.Prelude.{◌≡◌, IfOk, IsTrue, OnOk, map};
ghost use Rattle.rr_journal.specs.Keeping.{Grows};
ghost use Rattle.rr_desk.specs.KeeperState.{with_all_published};
ghost use Rattle.rr_commit.specs.Committing.{CommitsChanges, CommitsSome};
ghost use Rattle.rr_batch.specs.Answers.{answer_to, answer_view};
ghost use Rattle.rr_batch.specs.Batches.{after_batch};

use crate::answering::answers_of;
use crate::fault::BatchFault;
use crate::pending::Waiting;
use rr_archive::Cells;
use rr_commit::{ChangesFault, commit_changes};
use rr_desk::Keeper;
use rr_journal::{Cursor, Journal};
use rr_reactor::Answer;
use std::alloc::Global;
use std::sync::Wait;

/// The answers to a batch.
#[derive(Debug, Drop)]
pub struct Answers {
    /// An answer for each item, in order.
    pub answers: Vec<Answer>,
    /// Whether all that the keeper holds is in the journal and synced. If not, no answer
    /// acknowledges a line, and the changes remain to be committed with the next batch.
    pub is_saved: bool,
}

/// Publishes what a batch put, commits all changes of the keeper to its journal, and returns the
/// answers to the items of the batch, which acknowledge lines only if the changes are synced.
///
/// `cursor` is the end of the journal, and moves with it. All that was written before must be
/// synced. Refused as `NotSynced`, after which the journal must be opened and read again, and as
/// `Memory`: then nothing is acknowledged, and the node can't go on. The cost is that of
/// [`commit_changes`] plus that of the answers.
pub fn commit_batch<A: Cells, J: Journal, T: Wait>(
    alloc: Global,
    batch: Vec<Waiting>,
    product: &'static str,
    keeper: &mut Keeper<A>,
    journal: &mut J,
    cursor: &mut Cursor,
    rt: &T,
) -> Result<Answers, BatchFault>
    requires { J.text journal.old ≡ J.synced journal.old }
    ensures answers { IfOk result (λ a. map answer_view a.answers.items
        ≡ map (answer_to product.now a.is_saved) batch.items) }
    ensures saved { IfOk result (λ a. IsTrue a.is_saved → CommitsChanges
        (with_all_published keeper.old) (J.synced journal.old) (J.synced journal.new)
        (J.text journal.new) cursor.old cursor.new) }
    ensures unsaved { OnOk result (CommitsSome (J.synced journal.old) (J.synced journal.new)
        (J.text journal.new) cursor.old cursor.new) }
    ensures keeper { IfOk result (λ a. keeper.new ≡ after_batch a.is_saved keeper.old) }
    ensures grows { Grows (J.synced journal.old) (J.synced journal.new) }
{
    keeper.publish(rt)?;
    let is_saved = match commit_changes(alloc, keeper, journal, cursor) {
        Ok(()) => true,
        Err(ChangesFault::NotWritten) => false,
        Err(ChangesFault::NotSynced) => return Err(BatchFault::NotSynced),
        Err(ChangesFault::Memory) => return Err(BatchFault::Memory),
    };
    Ok(Answers {
        answers: answers_of(alloc, batch, is_saved, product)?,
        is_saved,
    })
}
