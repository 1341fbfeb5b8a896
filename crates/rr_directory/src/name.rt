//! The names of the files of a directory.
ghost use Rattle.std.specs.Prelude.{◌≡◌, ◌++◌, ◌^◌, ◌<◌, OnOk, IfOk, option_map};
ghost use Rattle.rr_directory.specs.Names.{IsAfter, IsName, IsOffsetText, beginning_of, digits_of, name_text, offset_of};

use rr_text::text::number;
use std::alloc::{AllocError, Global};

/// What the name of a file of the journal begins with.
const JOURNAL: &[u8] = b"journal-";

/// What the name of a checkpoint begins with.
const CHECKPOINT: &[u8] = b"checkpoint-";

/// What both end with.
const ENDING: &[u8] = b".rrj";

/// How many digits an offset has in a name: with this many, names sort as offsets do.
const DIGITS: usize = 20;

const _: () = prove!(DIGITS == 20);

/// The name of a file that a node reads when it starts.
#[derive(Clone, Copy, Debug, PartialEq, Eq)]
pub enum FileName {
    /// A file of the journal, which begins at this offset of it.
    Journal(u64),
    /// A checkpoint, after which the journal is read from this offset on.
    Checkpoint(u64),
}

/// Adds the last `count` decimal digits of a number, with leading zeros.
pub(crate) fn push_digits(bytes: &mut Vec<u8>, count: usize, number: u64) -> Result<(), AllocError>
    ensures { OnOk result (bytes.new.items ≡ bytes.old.items ++ digits_of count number) }
{
    if count == 0 {
        return Ok(());
    }
    push_digits(bytes, count - 1, number / 10)?;
    bytes.push(b'0' + (number % 10) as u8)?;
    Ok(())
}

/// What follows a piece, if the bytes begin with it.
pub(crate) fn after<'a>(piece: &[u8], bytes: &'a [u8]) -> Option<&'a [u8]>
    ensures { IsAfter piece.now bytes.now (option_map (λ rest. rest.now) result) }
{
    bytes.strip_prefix(piece)
}

/// The offset that a text gives in digits, if these and the ending are all of it.
fn offset_of(text: &[u8]) -> Option<u64>
    ensures { IsOffsetText text.now result }
{
    if text.len() != DIGITS + ENDING.len() {
        return None;
    }
    let (digits, ending) = text.split_at(DIGITS);
    if ending != ENDING {
        return None;
    }
    number(digits)
}

impl FileName {
    /// The name with these bytes, if they are one: any other file isn't a node's.
    pub fn parse(bytes: &[u8]) -> Option<FileName>
        ensures { IsName bytes.now result }
    {
        if let Some(rest) = after(JOURNAL, bytes) {
            return offset_of(rest).map(FileName::Journal);
        }
        let rest = after(CHECKPOINT, bytes)?;
        offset_of(rest).map(FileName::Checkpoint)
    }

    /// The offset of the journal at which the file begins, or from which the journal is read after
    /// it.
    pub fn offset(&self) -> u64
        ensures { result ≡ offset_of self.now }
    {
        match self {
            FileName::Journal(offset) | FileName::Checkpoint(offset) => *offset,
        }
    }

    /// The name's bytes.
    pub fn bytes(&self, alloc: Global) -> Result<Vec<u8>, AllocError>
        ensures { IfOk result (λ bytes. bytes.items ≡ name_text self.now) }
    {
        let mut bytes = Vec::new(alloc);
        bytes.extend_from_slice(self.beginning())?;
        push_digits(&mut bytes, DIGITS, self.offset())?;
        bytes.extend_from_slice(ENDING)?;
        Ok(bytes)
    }

    /// What the name begins with.
    fn beginning(&self) -> &'static [u8]
        ensures { result.now ≡ beginning_of self.now }
    {
        match self {
            FileName::Journal(_) => JOURNAL,
            FileName::Checkpoint(_) => CHECKPOINT,
        }
    }
}
