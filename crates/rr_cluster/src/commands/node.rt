//! `node NAME ORIGIN`: makes an empty replica.

ghost use Rattle.rr_cells.specs.Cells.{Cells};
ghost use Rattle.rr_cluster.specs.Commands.Node.{after_node};
ghost use Rattle.rr_cluster.specs.Meaning.{Leaves, Represents};
ghost use Rattle.rr_cluster.specs.Model.{cell_model};
ghost use Rattle.rr_cluster.specs.State.{State};

use crate::cluster::Cluster;
use crate::fault::CommandFault;
use crate::stop::Stop;
use crate::words::{is_name, unused_origin};
use rr_archive::Cells;
use rr_replica::Replica;

/// Makes a node that holds nothing.
pub(crate) fn add_node<A: Cells>(
    cluster: &mut Cluster<A>,
    name: &[u8],
    origin: &[u8],
) -> Result<(), Stop>
    ensures { (m : State Cells) → Represents cluster.old m
        → Leaves cluster.new m result (after_node cell_model m name.now origin.now) }
{
    if !is_name(name) {
        return Err(Stop::Refused(CommandFault::BadName));
    }
    if cluster.nodes.contains_key(name) {
        return Err(Stop::Refused(CommandFault::NameUsed));
    }
    let origin = unused_origin(&cluster.origins, origin)?;
    let replica = Replica::new(cluster.alloc, &cluster.schema, origin)?;
    cluster.put_node(name, replica)
}
