//! Reads and writes of counted streams.
//!
//! A call interrupted by a signal is made again, so that a signal ends no connection, but no more
//! than [`MAX_INTERRUPTS`] calls in a row or, if the reads of an input are limited, that many.
//! A stream whose calls are interrupted every time then ends with its fault. Each interrupted call
//! counts as failed, and each read counts as a read.
//!
//! Whoever reads an input to its end in pieces of its own calls [`read_once`] in a loop, at most as
//! many times as the input may take reads, as [`read_to_end_within`] does.

ghost use Rattle.std.specs.Prelude.{◌≡◌, ◌<◌, ◌≤◌, Ok, None, length, take, IfOk, if◌then◌else◌};
ghost use Rattle.std.specs.Io.KnownBytes.{Consumes};
ghost use Rattle.rr_io.specs.Counted.{inner_of, reads_of, ends_of, one_more};
ghost use Rattle.rr_text.specs.declared.limits.TheConstants.{MAX_READS};
ghost use Rattle.rr_io.specs.Stream.{CountsFailures, Flushes, HasFailed, IsReadOut, ReadsInto, ReadsOn, ReadsOnce, Writes, WritesFrom, tells_end};
ghost use Rattle.rr_io.specs.ReadsToEnd.{ReadsToEnd};

use crate::counted::Counted;
use rr_text::limits::MAX_READS;
use std::alloc::AllocError;
use std::fmt;
use std::io::{ErrorKind, Read, Write};
use thiserror::Error;

/// How many times in a row a call that signals interrupt is made.
pub const MAX_INTERRUPTS: u32 = 16;

/// How many bytes one read asks for when an input is read to a length or to its end.
pub const PIECE: usize = 4_096;

/// A reader failed.
#[derive(Clone, Copy, Debug, PartialEq, Eq, Error)]
#[error("the input could not be read")]
pub struct ReadFailed;

/// A writer failed, or took nothing.
#[derive(Clone, Copy, Debug, PartialEq, Eq, Error)]
#[error("the output could not be written")]
pub struct WriteFailed;

/// Makes one read into the beginning of `buf`, and returns how many bytes it gave: none only at the
/// end of the input, or if `buf` is empty. `None` is a read that a signal interrupted, which should
/// be made again. Such a read, or one that failed, took no byte of the input.
pub fn read_once<R: Read>(
    input: &mut Counted<R>,
    buf: &mut [u8],
) -> Result<Option<usize>, ReadFailed>
    ensures bytes { ReadsOnce (R.remaining (inner_of input.old))
        (R.remaining (inner_of input.new)) result buf.new }
    ensures reads { reads_of input.new ≡ one_more (reads_of input.old) }
    ensures ends { ends_of input.new ≡ (if tells_end result (length buf.new)
        then one_more (ends_of input.old) else ends_of input.old) }
    ensures failures { CountsFailures input.old input.new result }
    ensures interrupted { result ≡ Ok None → HasFailed input.old input.new }
{
    match input.read(buf) {
        Ok(given) => Ok(Some(given)),
        Err(error) => {
            if error.kind() != ErrorKind::Interrupted {
                return Err(ReadFailed);
            }
            Ok(None)
        }
    }
}

/// Reads some bytes into the beginning of `buf`, and returns how many: none only at the end of the
/// input, or if `buf` is empty. A read that failed took no byte of the input.
pub fn read_some<R: Read>(input: &mut Counted<R>, buf: &mut [u8]) -> Result<usize, ReadFailed>
    ensures read { ReadsInto (R.remaining (inner_of input.old))
        (R.remaining (inner_of input.new)) result buf.new }
    ensures failures { CountsFailures input.old input.new result }
{
    for _ in 0..MAX_INTERRUPTS {
        if let Some(given) = read_once(input, buf)? {
            return Ok(given);
        }
    }
    Err(ReadFailed)
}

/// Reads until `buf` is full or the input ends, and returns how many bytes it put at the beginning
/// of `buf`. After a failure some bytes may have been taken from the input, but no more than `buf`
/// holds.
pub fn fill<R: Read>(input: &mut Counted<R>, buf: &mut [u8]) -> Result<usize, ReadFailed>
    ensures bound { IfOk result (λ filled. filled ≤ length buf.new) }
    ensures bytes { IfOk result (λ filled. Consumes (R.remaining (inner_of input.old))
        (R.remaining (inner_of input.new)) (take filled buf.new)) }
    ensures end { IfOk result (λ filled. filled < length buf.new
        → IsReadOut R.remaining input.new) }
    ensures stream { ReadsOn (length buf.new) R.remaining input.old input.new result }
{
    let mut filled = 0;
    while filled < buf.len() {
        let given = read_some(input, &mut buf[filled..])?;
        if given == 0 {
            return Ok(filled);
        }
        filled += given;
    }
    Ok(filled)
}

/// Why an input can't be read to its end.
#[derive(Clone, Copy, Debug, PartialEq, Eq, Error)]
pub enum ReadFault {
    /// The reader failed.
    ReadFailed,
    /// The input didn't end within the reads that it may take.
    TooManyReads,
    /// Memory ran out.
    Memory,
}

impl ReadFault {
    ghost use Rattle.rr_io.specs.Fault.{read_fault_name};

    /// The printed name.
    pub fn name(&self) -> &'static str
        ensures { result.now ≡ read_fault_name self.now }
    {
        match self {
            ReadFault::ReadFailed => "ReadFailed",
            ReadFault::TooManyReads => "TooManyReads",
            ReadFault::Memory => "Memory",
        }
    }

    fn sentence(&self) -> &'static str {
        match self {
            ReadFault::ReadFailed => "the input could not be read",
            ReadFault::TooManyReads => "the input did not end within the reads that it may take",
            ReadFault::Memory => "out of memory",
        }
    }
}

impl fmt::Display for ReadFault {
    fn fmt<W: fmt::Write>(&self, f: &mut fmt::Formatter<W>) -> fmt::Result {
        f.write_str(self.sentence())
    }
}

impl From<ReadFailed> for ReadFault {
    ghost use Rattle.rr_io.specs.declared.stream.ReadFault.TheVariants.{ReadFailed};

    ghost from_gives = { λ _ e. e ≡ ReadFailed };

    fn from(_e: ReadFailed) -> ReadFault {
        ReadFault::ReadFailed
    }
}

impl From<AllocError> for ReadFault {
    ghost use Rattle.rr_io.specs.declared.stream.ReadFault.TheVariants.{Memory};

    ghost from_gives = { λ _ e. e ≡ Memory };

    fn from(_e: AllocError) -> ReadFault {
        ReadFault::Memory
    }
}

/// Adds the rest of the input to `bytes`, as [`read_to_end_within`] does within the most reads that
/// an input may take, [`MAX_READS`].
pub fn read_to_end<R: Read>(input: &mut Counted<R>, bytes: &mut Vec<u8>) -> Result<(), ReadFault>
    ensures { ReadsToEnd R.remaining MAX_READS input.old input.new bytes.old.items bytes.new.items
        result }
{
    read_to_end_within(input, bytes, MAX_READS)
}

/// Adds the rest of the input to `bytes`, within a limit of reads.
///
/// Each call of the reader is a read, including one that a signal interrupted, and the one that
/// gives no byte, which is the end. `TooManyReads` is returned after `reads` calls that did not
/// reach the end, and no further call is made. After a refusal a prefix of the input was added.
pub fn read_to_end_within<R: Read>(
    input: &mut Counted<R>,
    bytes: &mut Vec<u8>,
    reads: u32,
) -> Result<(), ReadFault>
    ensures { ReadsToEnd R.remaining reads input.old input.new bytes.old.items bytes.new.items
        result }
{
    let mut buffer = [0u8; PIECE];
    for _ in 0..reads {
        let Some(given) = read_once(input, &mut buffer)? else {
            continue;
        };
        if given == 0 {
            return Ok(());
        }
        bytes.extend_from_slice(&buffer[..given])?;
    }
    Err(ReadFault::TooManyReads)
}

/// Writes some bytes from the beginning of a piece that isn't empty, and returns how many.
fn write_some<W: Write>(output: &mut Counted<W>, piece: &[u8]) -> Result<usize, WriteFailed>
    requires { 0 < length piece.now }
    ensures some_taken { IfOk result (λ taken. 0 < taken) }
    ensures written { WritesFrom (W.contents (inner_of output.old))
        (W.contents (inner_of output.new)) result piece.now }
    ensures failures { CountsFailures output.old output.new result }
{
    for _ in 0..MAX_INTERRUPTS {
        match output.write(piece) {
            Ok(0) => return Err(WriteFailed),
            Ok(taken) => return Ok(taken),
            Err(error) => {
                if error.kind() != ErrorKind::Interrupted {
                    return Err(WriteFailed);
                }
            }
        }
    }
    Err(WriteFailed)
}

/// Writes the whole text. If that fails, a prefix of it was written.
pub fn write_all<W: Write>(output: &mut Counted<W>, text: &[u8]) -> Result<(), WriteFailed>
    ensures { Writes W.contents output.old output.new text.now result }
{
    let mut rest = text;
    while !rest.is_empty() {
        let taken = write_some(output, rest)?;
        rest = &rest[taken..];
    }
    Ok(())
}

/// Flushes the writer.
pub fn flush<W: Write>(output: &mut Counted<W>) -> Result<(), WriteFailed>
    ensures { Flushes W.contents output.old output.new result }
{
    for _ in 0..MAX_INTERRUPTS {
        match output.flush() {
            Ok(()) => return Ok(()),
            Err(error) => {
                if error.kind() != ErrorKind::Interrupted {
                    return Err(WriteFailed);
                }
            }
        }
    }
    Err(WriteFailed)
}
