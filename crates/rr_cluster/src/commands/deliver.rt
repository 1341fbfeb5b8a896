//! `deliver NAME NODE`: joins the cells of a page into a node.

ghost use Rattle.rr_cells.specs.Cells.{Cells};
ghost use Rattle.rr_cluster.specs.Commands.Deliver.{after_deliver};
ghost use Rattle.rr_replica.specs.ReplicaWithRoom.{replica_state};
ghost use Rattle.rr_cluster.specs.Meaning.{HasPageText, Joins, Leaves, Represents};
ghost use Rattle.rr_cluster.specs.Model.{cell_model};
ghost use Rattle.rr_cluster.specs.State.{State};

use crate::cluster::Cluster;
use crate::fault::CommandFault;
use crate::stop::Stop;
use rr_archive::Cells;
use rr_page::{PageFault, decode};
use rr_replica::Replica;
use std::alloc::Global;

/// Joins the cells of a page into a node.
pub(crate) fn deliver<A: Cells>(
    cluster: &mut Cluster<A>,
    name: &[u8],
    node: &[u8],
) -> Result<(), Stop>
    requires { (m : State Cells) × Represents cluster.old m }
    ensures { (m : State Cells) → Represents cluster.old m
        → Leaves cluster.new m result (after_deliver cell_model m name.now node.now) }
{
    let Some(page) = cluster.pages.get(name) else {
        return Err(Stop::Refused(CommandFault::NoPage));
    };
    match cluster.nodes.get_mut(node) {
        Some(replica) => join_page(cluster.alloc, replica, page),
        None => Err(Stop::Refused(CommandFault::NoNode)),
    }
}

/// Joins the cells of the page with these bytes into a replica. A script has only pages that its
/// own nodes made, so the bytes are those of a page of the replica's schema.
fn join_page<A: Cells>(alloc: Global, replica: &mut Replica<A>, page: &[u8]) -> Result<(), Stop>
    requires { (cells : Cells) × HasPageText replica.old.schema cells page.now }
    ensures { (cells : Cells) → HasPageText replica.old.schema cells page.now
        → Joins (replica_state replica.old) (replica_state replica.new) result cells }
{
    let schema = replica.schema();
    let _archives = schema.archives(); // their contract says that the schema is within its limits
    let cells = match decode(alloc, page, schema) {
        Ok(cells) => cells,
        Err(PageFault::Memory) => return Err(Stop::Memory),
        Err(_) => unreachable!(),
    };
    replica.join_cells(&cells)?;
    Ok(())
}
