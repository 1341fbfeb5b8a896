//! A script, from a reader's bytes to a writer's.

ghost use Rattle.std.specs.Prelude.{◌≡◌, ◌≢◌, true, OnOk, IfErr};
ghost use Rattle.rr_io.specs.Counted.{is_flushed};
ghost use Rattle.rr_cluster.specs.Model.{sample_model};
ghost use Rattle.rr_cluster.specs.Output.{output_of};
ghost use Rattle.rr_text.specs.declared.limits.TheConstants.{MAX_READS};
ghost use Rattle.rr_process.specs.Streams.{Prints};

use crate::fault::ToolFault;
use crate::streams::{read_script, write_text};
use rr_cluster::run;
use rr_io::Counted;
use std::alloc::Global;
use std::io::{Read, Write};

/// Runs the script left in `input`, read to its end, and writes what it prints to `output`.
///
/// Nothing is written before the script is done. After `WriteFailed` a prefix of its output
/// has been.
pub fn run_script<R: Read, W: Write>(
    alloc: Global,
    input: &mut Counted<R>,
    output: &mut Counted<W>,
) -> Result<(), ToolFault>
    ensures printed { Prints R.remaining W.contents MAX_READS (output_of sample_model) input.old
        input.new output.old output.new result }
    ensures flushed { OnOk result (is_flushed output.new ≡ true) }
    ensures unwritten { IfErr result (λ fault. fault ≢ ToolFault.WriteFailed
        → output.new ≡ output.old) }
{
    let script = read_script(alloc, input)?;
    let text = run(alloc, &script)?;
    write_text(output, text.as_slice())
}
