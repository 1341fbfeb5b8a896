//! `save NAME NODE`: makes a snapshot of a node.

ghost use Rattle.rr_cells.specs.Cells.{Cells};
ghost use Rattle.rr_cluster.specs.Commands.Save.{after_save};
ghost use Rattle.rr_replica.specs.ReplicaWithRoom.{replica_state};
ghost use Rattle.rr_cluster.specs.Meaning.{Leaves, Represents, Saves};
ghost use Rattle.rr_cluster.specs.Model.{cell_model};
ghost use Rattle.rr_cluster.specs.State.{State};

use crate::cluster::Cluster;
use crate::fault::CommandFault;
use crate::stop::Stop;
use crate::words::is_name;
use rr_archive::Cells;
use rr_io::Counted;
use rr_replica::Replica;
use rr_snapshot::save;
use std::alloc::Global;

/// Makes a snapshot of a node. A snapshot of that name is replaced.
pub(crate) fn save_node<A: Cells>(
    cluster: &mut Cluster<A>,
    name: &[u8],
    node: &[u8],
) -> Result<(), Stop>
    ensures { (m : State Cells) → Represents cluster.old m
        → Leaves cluster.new m result (after_save cell_model m name.now node.now) }
{
    if !is_name(name) {
        return Err(Stop::Refused(CommandFault::BadName));
    }
    let Some(replica) = cluster.nodes.get(node) else {
        return Err(Stop::Refused(CommandFault::NoNode));
    };
    let snapshot = snapshot_of(cluster.alloc, replica)?;
    let name = Vec::from_slice(cluster.alloc, name)?;
    cluster.snapshots.insert(name, snapshot)?;
    Ok(())
}

/// The bytes of a snapshot of a replica.
fn snapshot_of<A: Cells>(alloc: Global, replica: &Replica<A>) -> Result<Vec<u8>, Stop>
    ensures { Saves (replica_state replica.now) result }
{
    let mut output = Counted::new(Vec::new(alloc));
    save(alloc, replica, &mut output)?;
    Ok(output.into_inner())
}
