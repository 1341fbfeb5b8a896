//! Joining the cells of a page into a target.
ghost use Rattle.std.specs.Prelude.{ℕ, All, OnOk, OnErr, map, take};
ghost use Rattle.rr_cells.specs.CellBounds.{IsCellOf};
ghost use Rattle.rr_cells.specs.Listing.{owned_cell};
ghost use Rattle.rr_text.specs.Results.{NeedsMemoryAfter};
ghost use Rattle.rr_gossip.specs.Puller.{Takes, page_taken};

use crate::fault::GossipFault;
use crate::puller::Stage;
use rr_cells::Cell;
use rr_delta::Target;
use rr_page::decode;
use std::alloc::{AllocError, Global};

/// Joins cells, in order. If memory runs out, a prefix of them is joined.
fn join_all<T: Target>(cells: &[Cell], target: &mut T) -> Result<(), AllocError>
    requires { All (λ c. IsCellOf (T.layout target.old) (owned_cell c)) cells.now }
    ensures joined { OnOk result (T.has_joined target.old target.new (map owned_cell cells.now)) }
    ensures prefix { OnErr result ((n : ℕ)
        × T.has_joined target.old target.new (take n (map owned_cell cells.now))) }
{
    for cell in cells {
        target.join_cell(cell)?;
    }
    Ok(())
}

/// Joins the cells of a page into a target, and returns false: a page isn't the last frame.
#[tactic(auto, unfolding(crate::specs::Puller::page_taken))]
pub(crate) fn take_page<T: Target>(
    alloc: Global,
    body: &[u8],
    target: &mut T,
) -> Result<bool, GossipFault>
    ensures taken { Takes (T.has_joined target.old target.new) Stage.Waiting result
        (page_taken (T.layout target.old) body.now) }
    ensures memory { NeedsMemoryAfter GossipFault.Memory (page_taken (T.layout target.old) body.now)
        result }
{
    let cells = decode(alloc, body, target.schema())?;
    join_all(&cells, target)?;
    Ok(false)
}
