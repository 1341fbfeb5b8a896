//! `page NAME NODE FROM COUNT`: makes a page of a node's cells.

ghost use Rattle.std.specs.Prelude.{◌≡◌, ◌≤◌, IfOk};
ghost use Rattle.rr_text.specs.declared.limits.TheConstants.{MAX_PAGE_CELLS};
ghost use Rattle.rr_cells.specs.Cells.{Cells};
ghost use Rattle.rr_cluster.specs.Commands.Page.{after_page, place_and_count};
ghost use Rattle.rr_cluster.specs.Meaning.{HasPageText, Leaves, Represents};
ghost use Rattle.rr_cluster.specs.Model.{cell_model, part_of};
ghost use Rattle.rr_cluster.specs.State.{State};

use crate::cluster::Cluster;
use crate::fault::CommandFault;
use crate::stop::Stop;
use crate::words::{cell_count, is_name, number_u32};
use rr_archive::Cells;
use rr_page::encode;
use rr_replica::Replica;
use std::alloc::{AllocError, Global};

/// Makes a page of a node's cells from an offset on, up to a count. A page of that name is
/// replaced.
pub(crate) fn add_page<A: Cells>(
    cluster: &mut Cluster<A>,
    name: &[u8],
    node: &[u8],
    from: &[u8],
    count: &[u8],
) -> Result<(), Stop>
    ensures { (m : State Cells) → Represents cluster.old m
        → Leaves cluster.new m result (after_page cell_model m name.now node.now from.now
        count.now) }
{
    if !is_name(name) {
        return Err(Stop::Refused(CommandFault::BadName));
    }
    let Some(replica) = cluster.nodes.get(node) else {
        return Err(Stop::Refused(CommandFault::NoNode));
    };
    let (from, count) = place_and_count(from, count)?;
    let page = page_of(cluster.alloc, replica, from, count)?;
    cluster.put_page(name, page)
}

/// The offset of a page's first cell, and the most cells: `BadNumber` unless both are in range.
pub(crate) fn place_and_count(from: &[u8], count: &[u8]) -> Result<(usize, usize), CommandFault>
    ensures value { result ≡ place_and_count from.now count.now }
    ensures fits { IfOk result (λ asked. asked.1 ≤ MAX_PAGE_CELLS) }
{
    let from = number_u32(from).ok_or(CommandFault::BadNumber)?;
    let count = cell_count(count).ok_or(CommandFault::BadNumber)?;
    Ok((from as usize, count))
}

/// The bytes of a page of a replica's cells from an offset on, up to a count.
fn page_of<A: Cells>(
    alloc: Global,
    replica: &Replica<A>,
    from: usize,
    count: usize,
) -> Result<Vec<u8>, AllocError>
    requires { count ≤ MAX_PAGE_CELLS }
    ensures { IfOk result (λ page.
        HasPageText replica.now.schema (part_of replica.now.cells from count) page.items) }
{
    let cells = replica.cells_from(alloc, from, count)?;
    encode(alloc, replica.schema(), &cells)
}
