//! An order, obeyed over two streams.

ghost use Rattle.std.specs.Prelude.{◌≡◌, IfSome, IfOk};
ghost use Rattle.rr_io.specs.Counted.{inner_of};
ghost use Rattle.rr_text.specs.declared.limits.TheConstants.{MAX_READS};
ghost use Rattle.rr_process.specs.Orders.{ending_of, printed_for};
ghost use Rattle.rr_process.specs.Streams.{Prints};
ghost use Rattle.rr_words.specs.Words.{asked_by};

use crate::check::check_lines;
use crate::ending::Ending;
use crate::fault::ToolFault;
use crate::script::run_script;
use rr_io::Counted;
use rr_words::Order;
use std::alloc::Global;
use std::io::{Read, Write};

/// Obeys an order over two streams: its script or its lines are what is left in `input`, and what
/// they print is written to `output`. An order to serve, or to read a directory, has no such
/// streams: nothing is read or written.
///
/// Wherever a run ends, what is written is a prefix of that.
pub fn obey_order<R: Read, W: Write>(
    alloc: Global,
    order: &Order,
    input: &mut Counted<R>,
    output: &mut Counted<W>,
) -> Result<Ending, ToolFault>
    ensures printed { Prints R.remaining W.contents MAX_READS (printed_for (asked_by order.now))
        input.old input.new output.old output.new result }
    ensures ending { IfOk result (λ ending. IfSome (R.remaining (inner_of input.old))
        (λ bytes. ending ≡ ending_of (asked_by order.now) bytes)) }
{
    match order {
        Order::Sim { file: _ } => {
            run_script(alloc, input, output)?;
            Ok(Ending::Done)
        }
        Order::CheckLines { precision, now } => {
            let refused = check_lines(alloc, input, output, *precision, *now)?;
            Ok(Ending::of_lines(refused))
        }
        Order::Serve { .. } | Order::Node { .. } | Order::Journal { .. } => Ok(Ending::Done),
    }
}
