//! `fetch NODE CF RESOLUTION START END KEY`: prints rows of a series.

ghost use Rattle.rr_fetch.specs.Words.{parts};
ghost use Rattle.rr_cells.specs.Cells.{Cells};
ghost use Rattle.rr_cluster.specs.Commands.Fetch.{answer_to};
ghost use Rattle.rr_cluster.specs.Meaning.{Represents};
ghost use Rattle.rr_cluster.specs.Model.{cell_model};
ghost use Rattle.rr_cluster.specs.State.{State};
ghost use Rattle.rr_cluster.specs.Stop.{Gives};

use crate::cluster::Cluster;
use crate::fault::CommandFault;
use crate::stop::Stop;
use rr_archive::Cells;
use rr_fetch::{RequestWords, answer_text, read_request};

/// The answer of a node to a request.
pub(crate) fn answer_to<A: Cells>(
    cluster: &Cluster<A>,
    node: &[u8],
    request: &RequestWords<'_>,
) -> Result<Vec<u8>, Stop>
    ensures { (m : State Cells) → Represents cluster.now m
        → Gives (λ text. text.items) result (answer_to cell_model m node.now (parts request.now)) }
{
    let Some(replica) = cluster.nodes.get(node) else {
        return Err(Stop::Refused(CommandFault::NoNode));
    };
    let request = read_request(cluster.alloc, request, replica.schema())?;
    Ok(answer_text(cluster.alloc, replica, &request)?)
}
