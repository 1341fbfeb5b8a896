//! A pull over streams.
ghost use Rattle.std.specs.Prelude.{◌≡◌, List, IfErr, OnOk, length};
ghost use Rattle.rr_cells.specs.CellBounds.{NamedCell};
ghost use Rattle.rr_io.specs.Counted.{inner_of};
ghost use Rattle.rr_gossip.specs.declared.frame.TheConstants.{MAX_FRAMES};
ghost use Rattle.rr_gossip.specs.Puller.{first_puller};
ghost use Rattle.rr_gossip.specs.Calls.{Pulls, SendsFrames, TakesFrames};
ghost use Rattle.rr_gossip.specs.Session.{CannotSend, HasPulled, HasStoppedPulling, sent_by};
ghost use Rattle.rr_gossip.specs.Transcript.{waiting};

use crate::fault::GossipFault;
use crate::frame::MAX_FRAMES;
use crate::puller::Puller;
use crate::stream::{content, read_frame};
use rr_delta::Target;
use rr_io::Counted;
use rr_io::stream::{flush, write_all};
use std::alloc::Global;
use std::io::{Read, Write};

/// Writes the frames of a puller, each before the next is made, and flushes the writer.
fn send_names<T: Target, W: Write>(
    alloc: Global,
    puller: &mut Puller,
    output: &mut Counted<W>,
    target: &T,
) -> Result<(), GossipFault>
    requires { puller.old ≡ first_puller puller.old.limit }
    ensures sent { SendsFrames W.contents output.old output.new puller.old.limit
        (sent_by (T.layout target.now) (T.cells target.now)) result }
    ensures waits { OnOk result (puller.new
        ≡ waiting (length (sent_by (T.layout target.now) (T.cells target.now))) 0
        puller.old.limit) }
    ensures refused { IfErr result (CannotSend puller.old.limit
        (sent_by (T.layout target.now) (T.cells target.now))) }
{
    while let Some(frame) = puller.next_frame(alloc, target)? {
        write_all(output, &frame)?;
    }
    flush(output)?;
    Ok(())
}

/// Takes the frames of the other side up to its last one, and joins each page as it comes. One
/// frame is in memory at a time.
fn take_pages<T: Target, R: Read>(
    alloc: Global,
    puller: &mut Puller,
    input: &mut Counted<R>,
    target: &mut T,
) -> Result<(), GossipFault>
    ensures pulled { OnOk result ((cells : List NamedCell)
        × T.has_joined target.old target.new cells
        × HasPulled (T.layout target.old) puller.old
        (R.remaining (inner_of input.old)) (R.remaining (inner_of input.new)) cells) }
    ensures stopped { IfErr result (λ fault. (cells : List NamedCell)
        × T.has_joined target.old target.new cells
        × HasStoppedPulling (T.layout target.old) puller.old
        (R.remaining (inner_of input.old)) (R.remaining (inner_of input.new)) fault cells) }
    ensures stream { TakesFrames R.remaining input.old input.new result }
{
    let mut frame = Vec::new(alloc);
    loop {
        read_frame(input, &mut frame)?;
        if puller.take(alloc, content(&frame), target)? {
            return Ok(());
        }
        frame.clear();
    }
}

/// Pulls cells from the other side of a stream: sends the schema of a target and the names and
/// versions of all its cells, and joins the cells of the reply, page by page, each page in order.
///
/// The target is asked for 256 names at a time, and each frame is written before the next is made;
/// of the reply, one frame is in memory at a time. No byte after the end of the pages is read.
///
/// Refused as `WriteFailed`; as `ReadFailed`; as `Ended` if the input ends before the end of the
/// pages; by a frame as [`Puller::take`] refuses it, and as `FrameTooLong` on its length alone,
/// before more is read; as `TooManyFrames` if a frame would exceed 16,777,216, either way; and as
/// `Memory`. The pages before the refused frame are then joined, and if memory ran out, perhaps a
/// prefix of the cells of its page. A prefix of the frames is written wherever the call ends.
///
/// The cost is that of `Target::names_after` and `Target::join_cell`, plus one linear in the bytes.
pub fn pull<T: Target, R: Read, W: Write>(
    alloc: Global,
    input: &mut Counted<R>,
    output: &mut Counted<W>,
    target: &mut T,
) -> Result<(), GossipFault>
    ensures session { Pulls R.remaining W.contents MAX_FRAMES
        (T.layout target.old) (T.cells target.old) (T.has_joined target.old target.new)
        input.old input.new output.old output.new result }
{
    pull_within(alloc, input, output, target, MAX_FRAMES)
}

/// Pulls as [`pull`] does, in a session of at most `frames` frames each way.
pub fn pull_within<T: Target, R: Read, W: Write>(
    alloc: Global,
    input: &mut Counted<R>,
    output: &mut Counted<W>,
    target: &mut T,
    frames: u32,
) -> Result<(), GossipFault>
    ensures session { Pulls R.remaining W.contents frames
        (T.layout target.old) (T.cells target.old) (T.has_joined target.old target.new)
        input.old input.new output.old output.new result }
{
    let mut puller = Puller::with_limit(frames);
    send_names(alloc, &mut puller, output, target)?;
    take_pages(alloc, &mut puller, input, target)
}
