//! Lines from a reader, reported to a writer.

ghost use Rattle.rr_text.specs.declared.limits.TheConstants.{MAX_READS};
ghost use Rattle.rr_process.specs.Streams.{ReportsLines};

use crate::checker::Checker;
use crate::fault::ToolFault;
use rr_feed::PIECE;
use rr_io::Counted;
use rr_io::stream::read_once;
use rr_line::Precision;
use rr_text::limits::MAX_READS;
use std::alloc::Global;
use std::io::{Read, Write};

/// Writes the report of the lines left in `input`, and returns how many of them are refused.
///
/// For each field of a point it writes `KEY TEXT,VALUE,TIME` to `output`, with the time in
/// nanoseconds, or `now` if the line has none; for a refused line `line N: NAME`, where N counts
/// all lines from 1. An empty line and a comment produce no output.
///
/// What is written is a prefix of the report, wherever a call ends. The cost is that of reading
/// each line and making the key of each of its fields; a piece of the input, one line and their
/// report are held.
pub fn check_lines<R: Read, W: Write>(
    alloc: Global,
    input: &mut Counted<R>,
    output: &mut Counted<W>,
    precision: Precision,
    now: i64,
) -> Result<u64, ToolFault>
    ensures { ReportsLines R.remaining W.contents MAX_READS precision now input.old input.new
        output.old output.new result }
{
    check_lines_within(alloc, input, output, precision, now, MAX_READS)
}

/// Checks lines as [`check_lines`] does, within a limit of reads.
///
/// Each call of the reader is a read, including one that a signal interrupted, and the one that
/// gives no byte, which is the end. After `reads` of them without the end, it returns
/// `TooManyReads`, and no further call is made.
pub fn check_lines_within<R: Read, W: Write>(
    alloc: Global,
    input: &mut Counted<R>,
    output: &mut Counted<W>,
    precision: Precision,
    now: i64,
    reads: u32,
) -> Result<u64, ToolFault>
    ensures { ReportsLines R.remaining W.contents reads precision now input.old input.new
        output.old output.new result }
{
    let mut checker = Checker::new(alloc, precision, now);
    let mut piece = [0u8; PIECE];
    for _ in 0..reads {
        let Some(given) = read_once(input, &mut piece)? else {
            continue;
        };
        if given == 0 {
            return checker.finish(output);
        }
        checker.push(&piece[..given])?;
        checker.write_items(output)?;
    }
    Err(ToolFault::TooManyReads)
}
