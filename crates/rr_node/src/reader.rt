//! The connections of a reader: fetches, or one session in which a peer pulls.

ghost use Rattle.std.specs.Prelude.{◌≡◌, ◌∷◌, ◌++◌, [], false, true, Err, IfErr, IfSome, OnErr, OnOk};
ghost use Rattle.rr_io.specs.Counted.{ends_of, inner_of, is_flushed};
ghost use Rattle.rr_io.specs.Stream.{HasFailed, HasFewReads, HasReads};
ghost use Rattle.rr_text.specs.declared.limits.TheConstants.{MAX_READS};
ghost use Rattle.rr_feed.specs.Feed.{items_left};
ghost use Rattle.rr_desk.specs.ReaderState.{HasSeenMore};
ghost use Rattle.rr_node.specs.Answering.{HasWritten, HasWrittenSome};
ghost use Rattle.rr_node.specs.Blame.{ReadsFirst, ReadsWithin, StaysFlushed, WritesOut};
ghost use Rattle.rr_node.specs.Fault.{IsOfLines, IsOfReader, IsInputFault, is_of_session};
ghost use Rattle.rr_node.specs.Fetches.{sight, is_pull, GivesSession, HasAnswered, HasAnsweredSome, HasAnsweredTaken, IsServed};

use crate::answering::next_answer;
use crate::fault::NodeFault;
use rr_archive::Cells;
use rr_desk::{Gate, Reader};
use rr_feed::{Feed, FeedFault, PIECE};
use rr_gossip::{GossipFault, give_after};
use rr_io::Counted;
use rr_io::stream::{flush, read_once, write_all};
use rr_text::limits::MAX_READS;
use std::alloc::{AllocError, Global};
use std::io::{Read, Write};

/// The first byte of an input, none at its end, and how many reads it took.
fn read_first<R: Read>(input: &mut Counted<R>) -> Result<(Option<u8>, u32), NodeFault>
    ensures { ReadsFirst R.remaining input.old input.new result }
{
    let mut byte = [0u8; 1];
    for used in 0..MAX_READS {
        if let Some(given) = read_once(input, &mut byte)? {
            let first = if given == 0 { None } else { Some(byte[0]) };
            return Ok((first, used + 1));
        }
    }
    Err(NodeFault::TooManyReads)
}

/// Pushes a piece into a feed that isn't at its end.
fn push(feed: &mut Feed, piece: &[u8]) -> Result<(), AllocError>
    requires { feed.old.ended ≡ false }
    ensures { OnOk result (feed.new ≡ record feed.old { left = feed.old.left ++ piece.now }) }
{
    feed.push(piece).map_err(|_| AllocError)
}

/// Writes the answers to the items that can be handed out, each before the next is made, and
/// flushes them.
fn answer_items<A: Cells, W: Write, G: Gate>(
    alloc: Global,
    feed: &mut Feed,
    output: &mut Counted<W>,
    reader: &mut Reader<A>,
    gate: &mut G,
) -> Result<(), NodeFault>
    ensures answered { OnOk result (HasWritten feed.old feed.new
        (sight reader.old (G.calls gate.old)) (sight reader.new (G.calls gate.new))
        (W.contents (inner_of output.old)) (W.contents (inner_of output.new))) }
    ensures all_taken { OnOk result (items_left feed.new ≡ []) }
    ensures part_written { OnErr result (HasWrittenSome feed.old feed.new
        (sight reader.old (G.calls gate.old)) reader.new
        (W.contents (inner_of output.old)) (W.contents (inner_of output.new))) }
    ensures flushed { OnOk result (is_flushed output.new ≡ true) }
    ensures writes { WritesOut output.old output.new result }
{
    while let Some(text) = next_answer(alloc, feed, reader, gate)? {
        write_all(output, &text)?;
    }
    flush(output)?;
    Ok(())
}

/// Answers lines whose first byte is already read, within a number of reads.
fn answer_lines<A: Cells, R: Read, W: Write, G: Gate>(
    alloc: Global,
    first: u8,
    input: &mut Counted<R>,
    output: &mut Counted<W>,
    reader: &mut Reader<A>,
    gate: &mut G,
    reads: u32,
) -> Result<(), NodeFault>
    ensures answered { OnOk result (IfSome (R.remaining (inner_of input.old)) (λ rest.
        HasAnswered true (first ∷ rest) (sight reader.old (G.calls gate.old))
        (sight reader.new (G.calls gate.new))
        (W.contents (inner_of output.old)) (W.contents (inner_of output.new)))) }
    ensures part_written { OnErr result (IfSome (R.remaining (inner_of input.old)) (λ rest.
        HasAnsweredSome (first ∷ rest) (sight reader.old (G.calls gate.old)) reader.new
        (W.contents (inner_of output.old)) (W.contents (inner_of output.new)))) }
    ensures at_once { IfErr result (λ fault. IsInputFault fault
        → HasAnsweredTaken (first ∷ []) (R.remaining (inner_of input.old))
        (R.remaining (inner_of input.new)) (sight reader.old (G.calls gate.old))
        (sight reader.new (G.calls gate.new))
        (W.contents (inner_of output.old)) (W.contents (inner_of output.new))) }
    ensures flushed { OnOk result (is_flushed output.new ≡ true) }
    ensures stays_flushed { IfErr result (λ fault. IsInputFault fault
        → is_flushed output.new ≡ true) }
    ensures seen { HasSeenMore reader.old reader.new }
    ensures reads { ReadsWithin reads input.old input.new result }
    ensures write_failed { result ≡ Err NodeFault.WriteFailed → HasFailed output.old output.new }
    ensures faults { IfErr result IsOfLines }
    ensures no_session { IfErr result (λ fault. is_of_session fault ≡ false) }
{
    let mut feed = Feed::new(alloc);
    push(&mut feed, &[first])?;
    answer_items(alloc, &mut feed, output, reader, gate)?;
    let mut piece = [0u8; PIECE];
    for _ in 0..reads {
        let Some(given) = read_once(input, &mut piece)? else {
            continue;
        };
        if given == 0 {
            feed.end();
            return answer_items(alloc, &mut feed, output, reader, gate);
        }
        push(&mut feed, &piece[..given])?;
        answer_items(alloc, &mut feed, output, reader, gate)?;
    }
    Err(NodeFault::TooManyReads)
}

/// Answers a session in which the other side pulls, after its first byte, which is 0.
fn give_session<A: Cells, R: Read, W: Write>(
    alloc: Global,
    input: &mut Counted<R>,
    output: &mut Counted<W>,
    reader: &mut Reader<A>,
) -> Result<(), NodeFault>
    ensures { GivesSession R.remaining W.contents reader.old reader.new input.old input.new
        output.old output.new result }
{
    give_after(alloc, 0, input, output, reader)?;
    Ok(())
}

/// Serves a connection: answers fetches, or one session in which a peer pulls.
///
/// A first byte of 0 begins a session, which is answered as [`give_after`](rr_gossip::give_after)
/// does; a fault of it is `Session`. Otherwise each line `fetch CF RESOLUTION START END KEY` is
/// answered with records of CSV, and a refused line with `error NAME`; an empty line follows each
/// answer. The names are those of [`parse_request`](rr_fetch::parse_request), and `LineTooLong`,
/// `BadCommand` for a line that doesn't begin with `fetch` and a space, and `GateShut` if the gate
/// lets no answer pass. A last line may lack its line feed. Each answer is written before the next
/// is made, and all are flushed before more is read.
///
/// The connection ends as `ReadFailed`, as `WriteFailed`, as `TooManyReads` after 4,294,967,295
/// reads that didn't reach the end, and as `Memory`; a prefix of the answers is then written. The
/// cost is that of the fetches, and linear in the bytes; a line, a piece of the input and one
/// answer are held.
pub fn serve_reader<A: Cells, R: Read, W: Write, G: Gate>(
    alloc: Global,
    input: &mut Counted<R>,
    output: &mut Counted<W>,
    reader: &mut Reader<A>,
    gate: &mut G,
) -> Result<(), NodeFault>
    ensures served { IsServed result
        (R.remaining (inner_of input.old)) (R.remaining (inner_of input.new))
        (W.contents (inner_of output.old)) (W.contents (inner_of output.new))
        (sight reader.old (G.calls gate.old)) (sight reader.new (G.calls gate.new)) }

    // What is flushed.
    ensures flushed { OnOk result (StaysFlushed output.old output.new) }
    ensures stays_flushed { IfErr result (λ fault. IsInputFault fault
        → StaysFlushed output.old output.new) }

    // Within how many reads lines are answered.
    ensures limit { IfSome (R.remaining (inner_of input.old)) (λ bytes. is_pull bytes ≡ false
        → HasFewReads MAX_READS input.old input.new) }

    // When a stream is to blame.
    ensures faults { IfErr result IsOfReader }
    ensures read_failed { result ≡ Err NodeFault.ReadFailed → HasFailed input.old input.new }
    ensures too_many { result ≡ Err NodeFault.TooManyReads
        → HasReads MAX_READS input.old input.new }
    ensures no_end { result ≡ Err NodeFault.TooManyReads
        → ends_of input.new ≡ ends_of input.old }
    ensures write_failed { result ≡ Err NodeFault.WriteFailed → HasFailed output.old output.new }
    ensures session_read_failed { result ≡ Err (NodeFault.Session GossipFault.ReadFailed)
        → HasFailed input.old input.new }
    ensures session_write_failed { result ≡ Err (NodeFault.Session GossipFault.WriteFailed)
        → HasFailed output.old output.new }
{
    let (first, used) = read_first(input)?;
    match first {
        None => Ok(()),
        Some(0) => give_session(alloc, input, output, reader),
        Some(first) => answer_lines(alloc, first, input, output, reader, gate, MAX_READS - used),
    }
}
