//! The report on a directory: a line for each file, and whether the files join.
ghost use Rattle.std.specs.Prelude.{◌≡◌, ◌++◌, OnOk, option_map};
ghost use Rattle.std.specs.Fmt.{decimal};
ghost use Rattle.rr_directory.specs.Report.{ending_of, ending_text, report_text, verdict_text};

use crate::fault::{FileFault, Refusal};
use crate::name::FileName;
use itoa::Buffer;
use rr_journal::Stop;
use std::alloc::{AllocError, Global};

/// How a file ends, if it is read by itself.
#[derive(Clone, Copy, Debug, PartialEq, Eq)]
pub enum FileEnding {
    /// With its last record.
    End,
    /// With a torn tail of this many bytes.
    Torn(u64),
    /// It is damaged from this byte on.
    Damaged(u64),
    /// A record of it, its header, or all of it is refused.
    Refused(FileFault),
}

impl FileEnding {
    /// The ending of a file of `len` bytes whose reading stopped like this at the byte `at`.
    pub fn of_stop(stop: Stop, len: u64, at: u64) -> FileEnding
        ensures { result ≡ ending_of stop len at }
    {
        match stop {
            Stop::End => FileEnding::End,
            Stop::Torn => FileEnding::Torn(len.saturating_sub(at)),
            Stop::Damaged(_) => FileEnding::Damaged(at),
        }
    }
}

/// The report on a file that is read by itself.
#[derive(Clone, Copy, Debug, PartialEq, Eq)]
pub struct FileReport {
    /// Its name.
    pub name: FileName,
    /// How many records are whole.
    pub records: u64,
    /// How many cells these have.
    pub cells: u64,
    /// How it ends.
    pub ending: FileEnding,
}

/// Adds a word and a number.
fn push_number(text: &mut Vec<u8>, word: &[u8], number: u64) -> Result<(), AllocError>
    ensures { OnOk result (text.new.items ≡ text.old.items ++ word.now ++ decimal number) }
{
    let mut buffer = Buffer::new();
    text.extend_from_slice(word)?;
    text.extend_from_slice(buffer.format(number).as_bytes())
}

/// Adds how a file ends.
fn push_ending(text: &mut Vec<u8>, ending: &FileEnding) -> Result<(), AllocError>
    ensures { OnOk result (text.new.items ≡ text.old.items ++ ending_text ending.now) }
{
    match ending {
        FileEnding::End => text.extend_from_slice(b"end"),
        FileEnding::Torn(len) => push_number(text, b"torn ", *len),
        FileEnding::Damaged(at) => push_number(text, b"damaged at ", *at),
        FileEnding::Refused(fault) => text.extend_from_slice(fault.name().as_bytes()),
    }
}

/// Adds the line of a file: its name, how many records and cells it has, and how it ends.
pub fn push_report(alloc: Global, text: &mut Vec<u8>, report: &FileReport) -> Result<(), AllocError>
    ensures { OnOk result (text.new.items ≡ text.old.items ++ report_text report.now) }
{
    let name = report.name.bytes(alloc)?;
    text.extend_from_slice(&name)?;
    push_number(text, b" records ", report.records)?;
    push_number(text, b" cells ", report.cells)?;
    text.extend_from_slice(b" ")?;
    push_ending(text, &report.ending)?;
    text.extend_from_slice(b"\n")
}

/// Adds the last line: whether a node starts from the files, and if not, the first of them that it
/// doesn't start from, and why.
pub fn push_verdict(
    alloc: Global,
    text: &mut Vec<u8>,
    refusal: Option<&Refusal>,
) -> Result<(), AllocError>
    ensures { OnOk result (text.new.items ≡ text.old.items
        ++ verdict_text (option_map (λ r. r.now) refusal.entry)) }
{
    let Some(refusal) = refusal else {
        return text.extend_from_slice(b"joined\n");
    };
    let name = refusal.file.bytes(alloc)?;
    text.extend_from_slice(b"refused ")?;
    text.extend_from_slice(&name)?;
    text.extend_from_slice(b" ")?;
    text.extend_from_slice(refusal.fault.name().as_bytes())?;
    text.extend_from_slice(b"\n")
}
