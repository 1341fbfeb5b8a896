//! What the keeper does with the copies, all under the rule.
ghost use Rattle.std.specs.Prelude.{◌≡◌, true, false, [], ◌∷◌, OnErr, OnOk, MatchResult};
ghost use Rattle.left_right.specs.Sides.{view};
ghost use Rattle.rr_schema.specs.Schema.{IsLayout};
ghost use Rattle.rr_cells.specs.Cells.{IsTrimmed};
ghost use Rattle.rr_cells.specs.Operations.{joins_of, AllAccepted};
ghost use Rattle.rr_replica.specs.ReplicaWithRoom.{replica_state};
ghost use Rattle.rr_desk.specs.Changes.{names_at, ops_in};
ghost use Rattle.rr_desk.specs.Editions.{after, flat, Begins, Reaches};
ghost use Rattle.rr_desk.specs.Rule.{with_news, keeper_of};
ghost use Rattle.rr_desk.specs.Writers.{all_ops, changes, pending_ops, shown_names, HasPublished, IsPublishable, IsSameWriter, IsUnpublished};
ghost use Rattle.rr_desk.specs.declared.change.Change.TheVariants.{Edition};

use crate::book::{Batch, Editions};
use crate::change::Change;
use crate::read_handle::ReadHandle;
use crate::rule::{Introduces, Opens, Published, Publishes, View};
use crate::shown::Shown;
use left_right::writer::Writer;
use rr_archive::Cells;
use std::alloc::AllocError;
use std::marker::Brand;
use std::sync::Wait;

/// The keeper's side of the copies.
pub type DeskWriter<A> = Writer<Shown<A>, Change, View, Published>;

/// The first publication: readers may enter, and see one join for each cell. Only the end of an
/// edition is pending.
pub fn start<A: Cells, R: Wait>(
    rt: &R,
    writer: DeskWriter<A>,
    book: &Editions,
) -> (DeskWriter<A>, Result<(), AllocError>)
    requires layout { IsLayout writer.desk.shown.value.replica.schema }
    requires live { IsTrimmed writer.desk.shown.value.replica.schema
        writer.desk.shown.value.replica.cells }
    requires fresh { writer.desk.shown.value.started ≡ false }
    requires pending { changes writer ≡ Edition book.now ∷ [] }
    requires book { flat book.now.editions ≡ joins_of writer.desk.shown.value.replica.cells }
    ensures { MatchResult result.1
        (λ _. (view result.0.desk.place ≡ keeper_of (replica_state writer.desk.shown.value.replica)
        book.now.desk)
        × (replica_state result.0.desk.shown.value.replica
        ≡ replica_state writer.desk.shown.value.replica)
        × (result.0.desk.shown.value.prefix ≡ book.now)
        × (changes result.0 ≡ [])
        × (result.0.desk.shown.value.replica.keys ≡ writer.desk.shown.value.replica.keys))
        (λ _. IsUnpublished writer result.0) }
{
    writer.publish_as::<Opens, R>(rt)
}

/// `publish`, of the operations picked.
fn publish_batch<A: Cells, K: Batch, R: Wait>(
    rt: &R,
    writer: DeskWriter<A>,
) -> (DeskWriter<A>, Result<(), AllocError>)
    requires batch { K.batch ≡ pending_ops writer }
    requires ready { IsPublishable writer }
    ensures { MatchResult result.1 (λ _. HasPublished writer result.0)
        (λ _. IsUnpublished writer result.0) }
{
    writer.publish_as::<Publishes<K>, R>(rt)
}

/// Shows readers all pending changes in one step. If it is refused, they see what they saw.
pub fn publish<A: Cells, R: Wait>(
    rt: &R,
    writer: DeskWriter<A>,
) -> (DeskWriter<A>, Result<(), AllocError>)
    requires ready { IsPublishable writer }
    ensures { MatchResult result.1 (λ _. HasPublished writer result.0)
        (λ _. IsUnpublished writer result.0) }
{
    publish_batch::<A, Brand, R>(rt, writer)
}

/// Adds to the book an edition of all that it lacks, which are the operations picked: it then has
/// what is published, followed by all that is pending.
fn reach_batch<A: Cells, K: Batch>(
    book: &mut Editions,
    writer: &DeskWriter<A>,
) -> Result<(), AllocError>
    requires batch { K.batch ≡ after (flat book.old.editions) (all_ops writer.now) }
    requires begins { Begins (flat book.old.editions) (all_ops writer.now) }
    ensures { Reaches (all_ops writer.now) book.old book.new result }
{
    let _ = writer;
    book.add::<K>()
}

/// Makes the pending changes ready to be published, unless they already are (`ended`): the book
/// then has all of them, and the last is the end of its edition.
pub fn end_edition<A: Cells>(
    book: &mut Editions,
    writer: &mut DeskWriter<A>,
    ended: bool,
) -> Result<(), AllocError>
    requires writes { (view writer.old.desk.place).writes ≡ true }
    requires joined { (view writer.old.desk.place).joined ≡ true }
    requires desk { book.old.desk ≡ (view writer.old.desk.place).desk }
    requires accepted { AllAccepted (replica_state writer.old.desk.shown.value.replica)
        (pending_ops writer.old) }
    requires begins { Begins (flat book.old.editions) (all_ops writer.old) }
    requires ended { ended ≡ true → IsPublishable writer.old }
    ensures same_copy { writer.new.desk ≡ writer.old.desk }
    ensures same_desk { book.new.desk ≡ book.old.desk }
    ensures pending { ops_in (shown_names writer.old) (changes writer.new)
        ≡ pending_ops writer.old }
    ensures names { names_at (shown_names writer.old) (changes writer.new)
        ≡ names_at (shown_names writer.old) (changes writer.old) }
    ensures unmarked { OnErr result (changes writer.new ≡ changes writer.old) }
    ensures begins { Begins (flat book.new.editions) (all_ops writer.old) }
    ensures ready { OnOk result (IsPublishable writer.new) }
{
    if ended {
        return Ok(());
    }
    reach_batch::<A, Brand>(book, &*writer)?;
    if writer.append(Change::Edition(book.prefix())).is_err() {
        return Err(AllocError);
    }
    Ok(())
}

/// Tells a new reader of the desk and of what is published.
pub fn introduce<A: Cells>(writer: &mut DeskWriter<A>, handle: &mut ReadHandle<A>)
    requires { handle.old.place.table_id ≡ writer.old.desk.place.table_id }
    ensures news { view handle.new.place ≡ with_news (view handle.old.place)
        (view writer.old.desk.place) }
    ensures same { IsSameWriter writer.old writer.new }
{
    handle.learn::<Introduces>(writer.tell::<Introduces>());
}
