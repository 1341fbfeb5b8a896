//! What became of the lines of a connection, as numbers.

ghost use Rattle.std.specs.Prelude.{◌≡◌, ◌++◌, OnOk};
ghost use Rattle.rr_node.specs.Lines.{count_text, report_line, report_text};

use itoa::Buffer;
use std::alloc::AllocError;

/// What became of the lines of a connection. Comments and empty lines are not counted.
#[derive(Clone, Copy, Debug, PartialEq, Eq)]
pub struct Report {
    /// The points that were written whole.
    pub points: u64,
    /// The samples that were put.
    pub samples: u64,
    /// The lines that were refused.
    pub refused: u64,
}

/// Adds a word and a number.
fn push_count(text: &mut Vec<u8>, word: &[u8], count: u64) -> Result<(), AllocError>
    ensures { OnOk result (text.new.items ≡ text.old.items ++ count_text word.now count) }
{
    let mut buffer = Buffer::new();
    text.extend_from_slice(word)?;
    text.extend_from_slice(buffer.format(count).as_bytes())
}

/// Adds `points P samples S refused R`, without a line feed. After an `Err` part of it may be
/// there.
pub fn push_report_line(text: &mut Vec<u8>, report: &Report) -> Result<(), AllocError>
    ensures { OnOk result (text.new.items ≡ text.old.items ++ report_line report.now) }
{
    push_count(text, b"points ", report.points)?;
    push_count(text, b" samples ", report.samples)?;
    push_count(text, b" refused ", report.refused)
}

/// Adds the line `points P samples S refused R`. After an `Err` part of it may be there.
pub fn push_report(text: &mut Vec<u8>, report: &Report) -> Result<(), AllocError>
    ensures { OnOk result (text.new.items ≡ text.old.items ++ report_text report.now) }
{
    push_report_line(text, report)?;
    text.extend_from_slice(b"\n")
}
