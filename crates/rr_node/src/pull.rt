//! A pull from a peer, published.

ghost use Rattle.std.specs.Prelude.{◌≡◌, Err, IfErr, OnOk};
ghost use Rattle.rr_io.specs.Counted.{inner_of};
ghost use Rattle.rr_io.specs.Stream.{HasFailed, IsReadOut};
ghost use Rattle.rr_node.specs.Pull.{HasPulledAll, HasStoppedPulling};

use rr_archive::Cells;
use rr_desk::Keeper;
use rr_gossip::{GossipFault, pull};
use rr_io::Counted;
use std::alloc::Global;
use std::io::{Read, Write};
use std::sync::Wait;

/// Pulls cells from a peer and publishes them: see [`rr_gossip::pull`].
///
/// It publishes what was pending, and then a join of each cell that the peer answered, in order.
/// The cost is that of `pull` and of [`Keeper::publish`].
///
/// The faults are those of `pull`. After one of them the joins of the cells so far stay pending, in
/// order, to be published with what comes later; likewise if memory runs out for the publication,
/// which is `Memory` too. It waits for readers as [`Keeper::publish`] does.
pub fn pull_peer<A: Cells, R: Read, W: Write, T: Wait>(
    alloc: Global,
    input: &mut Counted<R>,
    output: &mut Counted<W>,
    keeper: &mut Keeper<A>,
    rt: &T,
) -> Result<(), GossipFault>
    ensures pulled { OnOk result (HasPulledAll keeper.old keeper.new
        (R.remaining (inner_of input.old)) (R.remaining (inner_of input.new))
        (W.contents (inner_of output.old)) (W.contents (inner_of output.new))) }
    ensures stopped { IfErr result (HasStoppedPulling keeper.old keeper.new
        (R.remaining (inner_of input.old)) (R.remaining (inner_of input.new))
        (W.contents (inner_of output.old)) (W.contents (inner_of output.new))) }
    ensures same_desk { keeper.new.desk ≡ keeper.old.desk }

    // When a stream is to blame.
    ensures ended { result ≡ Err GossipFault.Ended → IsReadOut R.remaining input.new }
    ensures read_failed { result ≡ Err GossipFault.ReadFailed → HasFailed input.old input.new }
    ensures write_failed { result ≡ Err GossipFault.WriteFailed → HasFailed output.old output.new }
{
    pull(alloc, input, output, keeper)?;
    keeper.publish(rt)?;
    Ok(())
}
