//! `now T [LEAD]`: sets the clock, and how far ahead of it a point's own time may be.

ghost use Rattle.rr_cells.specs.Cells.{Cells};
ghost use Rattle.rr_cluster.specs.Command.{word_of};
ghost use Rattle.rr_cluster.specs.Commands.Now.{after_now};
ghost use Rattle.rr_cluster.specs.Meaning.{Leaves, Represents};
ghost use Rattle.rr_cluster.specs.State.{State};

use crate::cluster::Cluster;
use crate::stop::Stop;
use crate::words::{lead_of, moment_of};
use rr_archive::Cells;

/// Sets the clock, and the lead if one is given.
pub(crate) fn set_clock<A: Cells>(
    cluster: &mut Cluster<A>,
    time: &[u8],
    lead: Option<&[u8]>,
) -> Result<(), Stop>
    ensures { (m : State Cells) → Represents cluster.old m
        → Leaves cluster.new m result (after_now m time.now (word_of lead.entry)) }
{
    let clock = moment_of(time)?;
    let lead = lead_of(cluster.lead, lead)?;
    cluster.clock = clock;
    cluster.lead = lead;
    Ok(())
}
