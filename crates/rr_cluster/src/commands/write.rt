//! `write NODE LINE`: hands a line of the line protocol to a node.

ghost use Rattle.rr_text.specs.Bytes.{HasNoLineFeed};
ghost use Rattle.rr_point.specs.Point.{point_view};
ghost use Rattle.rr_cells.specs.Cells.{Cells};
ghost use Rattle.rr_point.specs.Key.{IsWritable};
ghost use Rattle.rr_cluster.specs.Commands.Write.{after_write, samples_of_line, samples_of_point};
ghost use Rattle.rr_replica.specs.ReplicaWithRoom.{replica_state};
ghost use Rattle.rr_cluster.specs.Meaning.{node_in, Leaves, Represents, Writes};
ghost use Rattle.rr_cluster.specs.Model.{cell_model};
ghost use Rattle.rr_cluster.specs.State.{State};

use crate::cluster::Cluster;
use crate::fault::CommandFault;
use crate::stop::Stop;
use rr_archive::Cells;
use rr_line::{Line, Point, Precision, parse_line};
use rr_replica::Replica;
use std::alloc::Global;

/// Writes a line to a node.
pub(crate) fn write_line<A: Cells>(
    cluster: &mut Cluster<A>,
    node: &[u8],
    line: &[u8],
) -> Result<(), Stop>
    requires { HasNoLineFeed line.now }
    ensures { (m : State Cells) → Represents cluster.old m
        → Leaves cluster.new m result (after_write cell_model m node.now line.now) }
{
    match cluster.nodes.get_mut(node) {
        Some(replica) => write_to(cluster.alloc, replica, cluster.clock, cluster.lead, line),
        None => Err(Stop::Refused(CommandFault::NoNode)),
    }
}

/// Writes the samples of a line at a moment, or none: a refused line changes nothing.
fn write_to<A: Cells>(
    alloc: Global,
    replica: &mut Replica<A>,
    clock: i64,
    lead: Option<u64>,
    line: &[u8],
) -> Result<(), Stop>
    requires { HasNoLineFeed line.now }
    ensures { Writes (replica_state replica.old) (replica_state replica.new) result
        (samples_of_line (node_in replica.old) clock lead line.now) }
{
    match parse_line(alloc, line, Precision::Ns)? {
        Line::Nothing => Ok(()),
        Line::Point(point) => write_point(replica, &point, clock, lead),
    }
}

/// Writes the samples of a point, or none.
fn write_point<A: Cells>(
    replica: &mut Replica<A>,
    point: &Point<'_>,
    clock: i64,
    lead: Option<u64>,
) -> Result<(), Stop>
    requires { IsWritable (point_view point.now) }
    ensures { Writes (replica_state replica.old) (replica_state replica.new) result
        (samples_of_point (node_in replica.old) clock lead (point_view point.now)) }
{
    replica.write(point, clock, lead)?;
    Ok(())
}
