//! The answer to a pull, over streams.
ghost use Rattle.std.specs.Prelude.{◌≡◌, ◌≤◌, ◌∷◌, [], IfErr, IsTrue, length};
ghost use Rattle.rr_gossip.specs.declared.frame.TheConstants.{MAX_FRAMES};
ghost use Rattle.rr_gossip.specs.Calls.{Gives, HearsNames, SendsFrames};
ghost use Rattle.rr_gossip.specs.Session.{CannotSend, is_giving, reply_left};

use crate::fault::GossipFault;
use crate::frame::MAX_FRAMES;
use crate::giver::Giver;
use crate::stream::{content, read_frame};
use rr_delta::Source;
use rr_io::Counted;
use rr_io::stream::{flush, write_all};
use std::alloc::Global;
use std::io::{Read, Write};

/// Takes the frames of the other side up to its last one. `before` is what has already been read of
/// the first frame's length. One frame is in memory at a time.
fn take_names<S: Source, R: Read>(
    alloc: Global,
    giver: &mut Giver,
    before: &[u8],
    input: &mut Counted<R>,
    source: &mut S,
) -> Result<(), GossipFault>
    requires { length before.now ≤ 4 }
    ensures { HearsNames S.layout S.cells S.may_become source.old source.new giver.old giver.new
        before.now R.remaining input.old input.new result }
{
    let mut frame = Vec::from_slice(alloc, before)?;
    loop {
        read_frame(input, &mut frame)?;
        if giver.take(alloc, content(&frame), source)? {
            return Ok(());
        }
        frame.clear();
    }
}

/// Writes the frames that a giver still has to send, each before the next is made, and flushes the
/// writer.
fn send_pages<S: Source, W: Write>(
    alloc: Global,
    giver: &mut Giver,
    output: &mut Counted<W>,
    source: &mut S,
) -> Result<(), GossipFault>
    requires giving { IsTrue (is_giving giver.old.stage) }
    requires fresh { giver.old.sent ≡ 0 }
    ensures sent { SendsFrames W.contents output.old output.new giver.old.limit
        (reply_left giver.old.stage) result }
    ensures refused { IfErr result (CannotSend giver.old.limit (reply_left giver.old.stage)) }
    ensures unchanged { source.new ≡ source.old }
{
    while let Some(frame) = giver.next_frame(alloc, source)? {
        write_all(output, &frame)?;
    }
    flush(output)?;
    Ok(())
}

/// Answers a pull by the other side of a stream: takes its schema and the names and versions of its
/// cells, and sends the cells of a source that these lack, 256 to a page.
///
/// The whole answer is of one state of the source, that at the last frame, and is in memory as one
/// list; each page is written before the next is made. No byte after the end of the names is read.
///
/// Refused as `ReadFailed`; as `Ended` if the input ends before the end of the names; by a frame as
/// [`Giver::take`] refuses it, and as `FrameTooLong` on its length alone, before more is read; as
/// `TooManyFrames` if a frame would exceed 16,777,216, either way; as `WriteFailed`; and as
/// `Memory`. Nothing is written before the end of the names is taken, and wherever the call ends, a
/// prefix of the answer is written.
///
/// The cost is that of `Source::difference`, plus one linear in the bytes.
pub fn give<S: Source, R: Read, W: Write>(
    alloc: Global,
    input: &mut Counted<R>,
    output: &mut Counted<W>,
    source: &mut S,
) -> Result<(), GossipFault>
    ensures session { Gives R.remaining W.contents MAX_FRAMES S.layout S.cells S.may_become
        [] source.old source.new input.old input.new output.old output.new result }
{
    give_within(alloc, &[], input, output, source, MAX_FRAMES)
}

/// Gives as [`give`] does, at its cost, when the first byte of the session has already been read.
pub fn give_after<S: Source, R: Read, W: Write>(
    alloc: Global,
    first: u8,
    input: &mut Counted<R>,
    output: &mut Counted<W>,
    source: &mut S,
) -> Result<(), GossipFault>
    ensures session { Gives R.remaining W.contents MAX_FRAMES S.layout S.cells S.may_become
        (first ∷ []) source.old source.new input.old input.new output.old output.new result }
{
    give_within(alloc, &[first], input, output, source, MAX_FRAMES)
}

/// Gives as [`give`] does, at its cost, in a session of at most `frames` frames each way. `before`
/// is what has already been read, at most the four bytes of the first frame's length.
pub fn give_within<S: Source, R: Read, W: Write>(
    alloc: Global,
    before: &[u8],
    input: &mut Counted<R>,
    output: &mut Counted<W>,
    source: &mut S,
    frames: u32,
) -> Result<(), GossipFault>
    requires { length before.now ≤ 4 }
    ensures session { Gives R.remaining W.contents frames S.layout S.cells S.may_become
        before.now source.old source.new input.old input.new output.old output.new result }
{
    let mut giver = Giver::with_limit(frames);
    take_names(alloc, &mut giver, before, input, source)?;
    send_pages(alloc, &mut giver, output, source)
}
