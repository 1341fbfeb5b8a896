//! A whole input, and a whole output.

ghost use Rattle.std.specs.Prelude.{◌≡◌, ◌≢◌, IfSome, IfOk, IfErr};
ghost use Rattle.rr_io.specs.Counted.{inner_of};
ghost use Rattle.rr_text.specs.declared.limits.TheConstants.{MAX_READS};
ghost use Rattle.rr_process.specs.Streams.{ReadsWithin, WritesText};

use crate::fault::ToolFault;
use rr_io::Counted;
use rr_io::stream::{flush, read_to_end, write_all};
use std::alloc::Global;
use std::io::{Read, Write};

/// All that is left in `input`.
pub fn read_script<R: Read>(alloc: Global, input: &mut Counted<R>) -> Result<Vec<u8>, ToolFault>
    ensures read { IfOk result (λ script. IfSome (R.remaining (inner_of input.old))
        (λ bytes. script.items ≡ bytes)) }
    ensures reads { ReadsWithin MAX_READS input.old input.new result }
    ensures failed { IfErr result (λ fault. fault ≢ ToolFault.WriteFailed) }
{
    let mut script = Vec::new(alloc);
    read_to_end(input, &mut script)?;
    Ok(script)
}

/// Writes the whole text, and flushes the writer.
pub fn write_text<W: Write>(output: &mut Counted<W>, text: &[u8]) -> Result<(), ToolFault>
    ensures { WritesText W.contents output.old output.new text.now result }
{
    write_all(output, text)?;
    flush(output)?;
    Ok(())
}
