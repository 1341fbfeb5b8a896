//! `delta NAME GIVER TAKER FROM COUNT`: makes a page of what one node has and another lacks.

ghost use Rattle.std.specs.Prelude.{◌≤◌, IfOk};
ghost use Rattle.rr_text.specs.declared.limits.TheConstants.{MAX_PAGE_CELLS};
ghost use Rattle.rr_cells.specs.Cells.{Cells};
ghost use Rattle.rr_cluster.specs.Commands.Delta.{after_delta};
ghost use Rattle.rr_cluster.specs.Meaning.{HasPageText, Leaves, Represents};
ghost use Rattle.rr_cluster.specs.Model.{cell_model, newer_part_of};
ghost use Rattle.rr_cluster.specs.State.{State};

use crate::cluster::Cluster;
use crate::commands::page::place_and_count;
use crate::fault::CommandFault;
use crate::stop::Stop;
use crate::words::is_name;
use rr_archive::Cells;
use rr_delta::{difference, part, summary};
use rr_page::encode;
use rr_replica::Replica;
use std::alloc::{AllocError, Global};

/// Makes a page of the cells that one node has and another lacks or has with a smaller version,
/// from an offset on, up to a count. A page of that name is replaced.
pub(crate) fn add_delta<A: Cells>(
    cluster: &mut Cluster<A>,
    name: &[u8],
    giver: &[u8],
    taker: &[u8],
    from: &[u8],
    count: &[u8],
) -> Result<(), Stop>
    ensures { (m : State Cells) → Represents cluster.old m → Leaves cluster.new m result
        (after_delta cell_model m name.now giver.now taker.now from.now count.now) }
{
    if !is_name(name) {
        return Err(Stop::Refused(CommandFault::BadName));
    }
    let Some(giver) = cluster.nodes.get(giver) else {
        return Err(Stop::Refused(CommandFault::NoNode));
    };
    let Some(taker) = cluster.nodes.get(taker) else {
        return Err(Stop::Refused(CommandFault::NoNode));
    };
    let (from, count) = place_and_count(from, count)?;
    let page = newer_page(cluster.alloc, giver, taker, from, count)?;
    cluster.put_page(name, page)
}

/// The bytes of a page of the cells that one replica has and another lacks or has with a smaller
/// version, from an offset on, up to a count.
fn newer_page<A: Cells>(
    alloc: Global,
    giver: &Replica<A>,
    taker: &Replica<A>,
    from: usize,
    count: usize,
) -> Result<Vec<u8>, AllocError>
    requires { count ≤ MAX_PAGE_CELLS }
    ensures { IfOk result (λ page. HasPageText giver.now.schema
        (newer_part_of giver.now.cells taker.now.cells from count) page.items) }
{
    let known = summary(alloc, taker, 0, usize::MAX)?;
    let newer = difference(alloc, giver, &known)?;
    encode(alloc, giver.schema(), part(&newer, from, count))
}
