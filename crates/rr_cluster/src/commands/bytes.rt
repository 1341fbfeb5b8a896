//! `bytes NAME`: prints the bytes of a page.

ghost use Rattle.rr_cells.specs.Cells.{Cells};
ghost use Rattle.rr_cluster.specs.Commands.Bytes.{hex_of_page};
ghost use Rattle.rr_cluster.specs.Meaning.{Represents};
ghost use Rattle.rr_cluster.specs.Model.{cell_model};
ghost use Rattle.rr_cluster.specs.State.{State};
ghost use Rattle.rr_cluster.specs.Stop.{Gives};

use crate::cluster::Cluster;
use crate::fault::CommandFault;
use crate::stop::Stop;
use rr_archive::Cells;
use rr_text::bytes::LINE_FEED;

/// The bytes of a page in lower-case hexadecimal, as a line.
pub(crate) fn hex_of_page<A: Cells>(cluster: &Cluster<A>, name: &[u8]) -> Result<Vec<u8>, Stop>
    ensures { (m : State Cells) → Represents cluster.now m
        → Gives (λ text. text.items) result (hex_of_page cell_model m name.now) }
{
    let Some(page) = cluster.pages.get(name) else {
        return Err(Stop::Refused(CommandFault::NoPage));
    };
    let mut line = hex::encode(cluster.alloc, page)?.into_bytes();
    line.push(LINE_FEED)?;
    Ok(line)
}
