//! The pulls of a round, from one peer after the other.

ghost use Rattle.std.specs.Prelude.{◌≡◌, ◌≢◌, IfOk, IfSome, List, OnErr, Some, map, is_ok};
ghost use Rattle.std.specs.String.{string_bytes};
ghost use Rattle.rr_host.specs.Calls.{DialCall, Grows};
ghost use Rattle.rr_node.specs.Shelf.{ShelfCall};
ghost use Rattle.rr_node.specs.Peers.{EndsPull, EndsPulls, fault_in, reported_of_peer};

use crate::fault::NodeFault;
use crate::pull::pull_peer;
use crate::shelf::Shelf;
use rr_archive::Cells;
use rr_desk::Keeper;
use rr_host::Dial;
use std::alloc::{AllocError, Global};
use std::sync::Wait;

/// Pulls from the peer at an address, if it is due.
fn pull_from<A: Cells, D: Dial, T: Wait>(
    alloc: Global,
    address: &str,
    dial: &mut D,
    keeper: &mut Keeper<A>,
    rt: &T,
) -> Result<(), NodeFault>
    ensures { (dialed : List DialCall) × Grows (D.calls dial.old) (D.calls dial.new) dialed
        × EndsPull address.now keeper.old keeper.new dialed (fault_in result) }
{
    if !dial.is_due(address) {
        return Ok(());
    }
    let Some((mut input, mut output)) = dial.open(address) else {
        return Err(NodeFault::BadAddress);
    };
    let pulled = pull_peer(alloc, &mut input, &mut output, keeper, rt);
    dial.take_back(input, output);
    Ok(pulled?)
}

/// The fault that ended a pull, unless it succeeded or memory ran out.
fn skipped(pulled: Result<(), NodeFault>) -> Result<Option<NodeFault>, AllocError>
    ensures skipped { IfOk result (λ fault. (fault ≡ fault_in pulled)
        × IfSome fault (λ why. why ≢ NodeFault.Memory)) }
    ensures memory { OnErr result (fault_in pulled ≡ Some NodeFault.Memory) }
{
    match pulled {
        Ok(()) => Ok(None),
        Err(NodeFault::Memory) => Err(AllocError),
        Err(fault) => Ok(Some(fault)),
    }
}

/// Tells the shelf about a peer that is done with: whether it has cells of the keeper's own origin,
/// and its fault.
fn tell<S: Shelf>(shelf: &mut S, number: usize, has_own: bool, fault: Option<NodeFault>)
    ensures { Grows (S.calls shelf.old) (S.calls shelf.new) (reported_of_peer number has_own fault) }
{
    if has_own {
        shelf.own_origin(number);
    }
    if let Some(fault) = fault {
        shelf.peer_failed(number, fault);
    }
}

/// Pulls from each peer that is due, in order. The shelf is told of a fault other than `Memory`,
/// which ends no other pull, and of a peer that has cells of the keeper's own origin with versions
/// at or past its next number.
pub(crate) fn pull_peers<A: Cells, D: Dial, S: Shelf, T: Wait>(
    alloc: Global,
    peers: &[String],
    dial: &mut D,
    shelf: &mut S,
    keeper: &mut Keeper<A>,
    rt: &T,
) -> Result<(), AllocError>
    ensures { (dialed : List DialCall) × (reported : List ShelfCall)
        × Grows (D.calls dial.old) (D.calls dial.new) dialed
        × Grows (S.calls shelf.old) (S.calls shelf.new) reported
        × EndsPulls (is_ok result) 1 (map string_bytes peers.now) keeper.old keeper.new dialed
        reported }
{
    for (place, address) in peers.iter().enumerate() {
        let next = keeper.next_number();
        let pulled = pull_from(alloc, address, dial, keeper, rt);
        let fault = skipped(pulled)?;
        tell(shelf, place + 1, next < keeper.next_number(), fault);
    }
    Ok(())
}
