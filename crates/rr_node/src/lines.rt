//! Lines from a reader, handed to the keeper of a desk.

ghost use Rattle.std.specs.Prelude.{OnOk};
ghost use Rattle.rr_io.specs.Counted.{inner_of, HasRisen};
ghost use Rattle.rr_text.specs.declared.limits.TheConstants.{MAX_READS};
ghost use Rattle.rr_node.specs.Lines.{rules_of, ServesWithin};

use crate::connection::Connection;
use crate::fault::NodeFault;
use crate::report::Report;
use crate::rules::Rules;
use rr_archive::Cells;
use rr_desk::Keeper;
use rr_feed::PIECE;
use rr_host::Clock;
use rr_io::Counted;
use rr_io::stream::read_once;
use rr_line::Precision;
use rr_text::limits::MAX_READS;
use std::alloc::Global;
use std::io::{Read, Write};
use std::sync::Wait;

/// Hands the lines left in `input` to a keeper, answers to `output`, and reports what became of
/// them.
///
/// Each line is one [`Keeper::write`], with a sample for each field of its point, at its own time,
/// or else at the moment that the clock gives. The clock is asked once for each point, even one
/// with a time of its own, and is renewed for each piece of the input. A refused line is answered
/// at once with `line N: NAME`, where N counts all lines from 1 and NAME is its fault,
/// `LineTooLong`, `AheadOfClock` or `NumbersSpent`. After every 1,000 lines and at the end
/// everything is published; then `points P samples S refused R` is written.
///
/// However a call ends, what was put stays, published or pending, and what is written is a prefix
/// of the whole answer. The cost is that of reading and writing each line; a piece of the input,
/// one line and the answers to the lines of that piece are held.
pub fn serve_lines<A: Cells, R: Read, W: Write, C: Clock, T: Wait>(
    alloc: Global,
    input: &mut Counted<R>,
    output: &mut Counted<W>,
    keeper: &mut Keeper<A>,
    clock: &mut C,
    precision: Precision,
    lead: Option<u64>,
    rt: &T,
) -> Result<Report, NodeFault>
    ensures serves { ServesWithin MAX_READS (rules_of precision lead) (record {
      old = keeper.old;
      new = keeper.new;
      given = C.given clock.old;
      given_since = C.given clock.new;
      input = R.remaining (inner_of input.old);
      left = R.remaining (inner_of input.new);
      written = W.contents (inner_of output.old);
      written_since = W.contents (inner_of output.new);
    }) input.old input.new output.old output.new result }
    ensures renewed { OnOk result (HasRisen (C.renewals clock.old) (C.renewals clock.new)) }
{
    serve_lines_within(
        alloc, input, output, keeper, clock, precision, lead, rt, MAX_READS,
    )
}

/// Serves lines as [`serve_lines`] does, within a limit of reads.
///
/// Each call of the reader is a read, including one that a signal interrupted, and the one that
/// gives no byte, which is the end. After `reads` of them without the end, it returns
/// `TooManyReads`, and no further call is made.
pub fn serve_lines_within<A: Cells, R: Read, W: Write, C: Clock, T: Wait>(
    alloc: Global,
    input: &mut Counted<R>,
    output: &mut Counted<W>,
    keeper: &mut Keeper<A>,
    clock: &mut C,
    precision: Precision,
    lead: Option<u64>,
    rt: &T,
    reads: u32,
) -> Result<Report, NodeFault>
    ensures serves { ServesWithin reads (rules_of precision lead) (record {
      old = keeper.old;
      new = keeper.new;
      given = C.given clock.old;
      given_since = C.given clock.new;
      input = R.remaining (inner_of input.old);
      left = R.remaining (inner_of input.new);
      written = W.contents (inner_of output.old);
      written_since = W.contents (inner_of output.new);
    }) input.old input.new output.old output.new result }
    ensures renewed { OnOk result (HasRisen (C.renewals clock.old) (C.renewals clock.new)) }
{
    let mut connection = Connection::new(alloc, Rules { precision, lead });
    let mut piece = [0u8; PIECE];
    for _ in 0..reads {
        let Some(given) = read_once(input, &mut piece)? else {
            continue;
        };
        if given == 0 {
            return connection.finish(output, keeper, clock, rt);
        }
        connection.push(&piece[..given])?;
        connection.answer_lines(output, keeper, clock, rt)?;
    }
    Err(NodeFault::TooManyReads)
}
