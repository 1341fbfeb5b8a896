//! What readers do with the copies, all under the rule.
ghost use Rattle.std.specs.Prelude.{◌≡◌, IfOk, IfSome, map};
ghost use Rattle.std.specs.FinMap.{entries};
ghost use Rattle.left_right.specs.Sides.{view};
ghost use Rattle.rr_cells.specs.Operations.{outcome_of};
ghost use Rattle.rr_replica.specs.Keys.{keys_after, lent_key};
ghost use Rattle.rr_replica.specs.ReplicaWithRoom.{replica_state};
ghost use Rattle.rr_changes.specs.Changes.{name_in, next_of};
ghost use Rattle.rr_delta.specs.Names.{owned_name};
ghost use Rattle.rr_delta.specs.Difference.{IsSummary, newer_cells};
ghost use Rattle.rr_delta.specs.Listed.{ListsCells};
ghost use Rattle.rr_fetch.specs.Answers.{cells_text};
ghost use Rattle.rr_fetch.specs.Requests.{request_view, IsFetchable};
ghost use Rattle.rr_desk.specs.Rule.{Reads};
ghost use Rattle.rr_desk.specs.Gate.{LetsPass};

use crate::fault::FetchFault;
use crate::gate::Gate;
use crate::read_handle::JoinedHandle;
use crate::rule::Enters;
use rr_archive::Cells;
use rr_cells::Cell;
use rr_changes::next_cells;
use rr_delta::{Name, difference};
use rr_fetch::{Request, answer_text};
use rr_key::SeriesKey;
use rr_replica::Replica;
use std::alloc::{AllocError, Global};

/// The answer to a request, from the copy that is shown, if the gate lets it be made.
pub fn answer<A: Cells, G: Gate>(
    handle: JoinedHandle<A>,
    alloc: Global,
    request: &Request,
    gate: &mut G,
) -> (JoinedHandle<A>, Result<Vec<u8>, FetchFault>)
    requires fetchable { IsFetchable (view handle.inner.place).schema (request_view request.now) }
    ensures read { Reads (view handle.inner.place) (view result.0.inner.place)
        (IfOk result.1 (λ text. text.items ≡ cells_text (view handle.inner.place).schema
        (outcome_of (view handle.inner.place).schema (view result.0.inner.place).seen)
        (request_view request.now))) }
    ensures gate { LetsPass result.1 (G.calls gate.old) (G.calls gate.new) }
{
    let guard = match handle.inner.enter_as::<Enters>() {
        Ok(guard) => guard,
        Err(inner) => return (JoinedHandle { inner }, Err(FetchFault::Memory)),
    };
    if !gate.before() {
        let inner = guard.leave();
        return (JoinedHandle { inner }, Err(FetchFault::GateShut));
    }
    match answer_text(alloc, &guard.get().replica, request) {
        Ok(text) => {
            gate.after();
            let inner = guard.leave();
            (JoinedHandle { inner }, Ok(text))
        }
        Err(_) => {
            let inner = guard.leave();
            (JoinedHandle { inner }, Err(FetchFault::Memory))
        }
    }
}

/// How many cells keys must have on average for a replica to be copied before it is compared.
const CELLS_OF_A_KEY: usize = 8;

/// A copy of a replica, if there is memory for it and it takes less time than comparing all cells:
/// packed archives share their finished blocks with it.
fn quick_copy<A: Cells>(alloc: Global, replica: &Replica<A>) -> Option<Replica<A>>
    ensures { IfSome result (λ copy. replica_state copy ≡ replica_state replica.now) }
{
    if replica.cell_count() / CELLS_OF_A_KEY < replica.key_count() {
        return None;
    }
    replica.copy(alloc).ok()
}

/// The cells of the shown copy that a summary lacks. If a further copy of it is cheap, that one is
/// compared, so that the keeper doesn't wait for the comparison.
pub fn lacking<A: Cells>(
    handle: JoinedHandle<A>,
    alloc: Global,
    summary: &[Name],
) -> (JoinedHandle<A>, Result<Vec<Cell>, AllocError>)
    requires summary { IsSummary (map owned_name summary.now) }
    ensures { Reads (view handle.inner.place) (view result.0.inner.place)
        (ListsCells (view handle.inner.place).schema (newer_cells (map owned_name summary.now)
        (entries (outcome_of (view handle.inner.place).schema
        (view result.0.inner.place).seen))) result.1) }
{
    match handle.inner.enter_as::<Enters>() {
        Ok(guard) => match quick_copy(alloc, &guard.get().replica) {
            Some(copy) => {
                let inner = guard.leave();
                (JoinedHandle { inner }, difference(alloc, &copy, summary))
            }
            None => {
                let cells = difference(alloc, &guard.get().replica, summary);
                let inner = guard.leave();
                (JoinedHandle { inner }, cells)
            }
        },
        Err(inner) => (JoinedHandle { inner }, Err(AllocError)),
    }
}

/// The next `limit` cells of the copy that is shown, after one or from the first on.
pub fn walked<A: Cells>(
    handle: JoinedHandle<A>,
    alloc: Global,
    after: Option<&Cell>,
    limit: usize,
) -> (JoinedHandle<A>, Result<Vec<Cell>, AllocError>)
    ensures { Reads (view handle.inner.place) (view result.0.inner.place)
        (ListsCells (view handle.inner.place).schema (next_of limit (name_in after.entry)
        (entries (outcome_of (view handle.inner.place).schema
        (view result.0.inner.place).seen))) result.1) }
{
    match handle.inner.enter_as::<Enters>() {
        Ok(guard) => {
            let cells = next_cells(alloc, &guard.get().replica, after, limit);
            let inner = guard.leave();
            (JoinedHandle { inner }, cells)
        }
        Err(inner) => (JoinedHandle { inner }, Err(AllocError)),
    }
}

/// The next `count` keys after one that have a cell in the copy that is shown.
pub fn listed<A: Cells>(
    handle: JoinedHandle<A>,
    alloc: Global,
    after: Option<&SeriesKey>,
    count: usize,
) -> (JoinedHandle<A>, Result<Vec<SeriesKey>, AllocError>)
    ensures { Reads (view handle.inner.place) (view result.0.inner.place)
        (IfOk result.1 (λ keys. keys.items ≡ keys_after (lent_key after.entry) count
        (entries (outcome_of (view handle.inner.place).schema
        (view result.0.inner.place).seen)))) }
{
    match handle.inner.enter_as::<Enters>() {
        Ok(guard) => {
            let keys = guard.get().replica.keys_after(alloc, after, count);
            let inner = guard.leave();
            (JoinedHandle { inner }, keys)
        }
        Err(inner) => (JoinedHandle { inner }, Err(AllocError)),
    }
}
