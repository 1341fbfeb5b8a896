//! `load NAME NODE ORIGIN`: makes a node from a snapshot, under a new origin.

ghost use Rattle.rr_cells.specs.Cells.{Cells};
ghost use Rattle.rr_schema.specs.Schema.{IsLayout};
ghost use Rattle.rr_cluster.specs.Commands.Load.{after_load, loaded_node};
ghost use Rattle.rr_cluster.specs.Meaning.{node_in, HasSnapshotText, Leaves, Represents};
ghost use Rattle.rr_cluster.specs.Model.{cell_model};
ghost use Rattle.rr_cluster.specs.State.{Snapshot, State};
ghost use Rattle.rr_cluster.specs.Stop.{Gives};

use crate::cluster::Cluster;
use crate::fault::CommandFault;
use crate::stop::Stop;
use crate::words::{is_name, unused_origin};
use rr_archive::Cells;
use rr_io::Counted;
use rr_replica::Replica;
use rr_schema::{Origin, Schema};
use rr_snapshot::{LoadFault, load};
use std::alloc::Global;

/// Makes a node from a snapshot, under an unused origin. A node of that name is replaced, and its
/// origin stays used.
pub(crate) fn load_node<A: Cells>(
    cluster: &mut Cluster<A>,
    name: &[u8],
    node: &[u8],
    origin: &[u8],
) -> Result<(), Stop>
    requires { (m : State Cells) × Represents cluster.old m }
    ensures { (m : State Cells) → Represents cluster.old m
        → Leaves cluster.new m result (after_load cell_model m name.now node.now origin.now) }
{
    let Some(snapshot) = cluster.snapshots.get(name) else {
        return Err(Stop::Refused(CommandFault::NoSnapshot));
    };
    if !is_name(node) {
        return Err(Stop::Refused(CommandFault::BadName));
    }
    let origin = unused_origin(&cluster.origins, origin)?;
    let replica = loaded(cluster.alloc, snapshot, &cluster.schema, origin)?;
    cluster.put_node(node, replica)
}

/// The replica of the snapshot with these bytes, under a new origin. A script has only snapshots
/// that its own nodes made, of its schema or of one before an upgrade.
fn loaded<A: Cells>(
    alloc: Global,
    snapshot: &[u8],
    schema: &Schema,
    origin: Origin,
) -> Result<Replica<A>, Stop>
    requires layout { IsLayout schema.now }
    requires snapshot { (x : Snapshot Cells) × HasSnapshotText x snapshot.now }
    ensures { (x : Snapshot Cells) → HasSnapshotText x snapshot.now
        → Gives node_in result (loaded_node cell_model schema.now x origin) }
{
    // Bytes in memory can always be read, so no reader fails here.
    match load(alloc, &mut Counted::new(snapshot), schema, origin) {
        Ok(replica) => Ok(replica),
        Err(LoadFault::SchemaDiffers) => Err(Stop::Refused(CommandFault::SchemaDiffers)),
        Err(LoadFault::OriginUsed) => Err(Stop::Refused(CommandFault::OriginUsed)),
        Err(LoadFault::ReadFailed | LoadFault::Memory) => Err(Stop::Memory),
        Err(_) => unreachable!(),
    }
}
