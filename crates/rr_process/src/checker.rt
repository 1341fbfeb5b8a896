//! Lines as they come in pieces, and how many of them were refused.

ghost use Rattle.std.specs.Prelude.{◌≡◌, ◌+◌, ◌*◌, ◌<◌, ◌≤◌, ◌^◌, ◌++◌, ℕ, List, [], length, IfOk, OnOk};
ghost use Rattle.rr_feed.specs.Feed.{items_left};
ghost use Rattle.rr_feed.specs.declared.piece.TheConstants.{PIECE};

use crate::fault::ToolFault;
use crate::records::{report_writer, text_of};
use crate::report::push_item;
use csv::Writer;
use rr_feed::Feed;
use rr_io::Counted;
use rr_io::stream::{flush, write_all};
use rr_line::Precision;
use std::alloc::{AllocError, Global};
use std::io::Write;

/// Checks lines that come in pieces, and counts them.
#[derive(Drop)]
pub(crate) struct Checker {
    alloc: Global,
    feed: Feed,
    precision: Precision,
    /// The time of a line without one.
    now: i64,
    /// How many pieces came. They bound the number of lines, which therefore fits.
    pieces: u32,
    lines: u64,
    refused: u64,

    ghost few: { refused ≤ lines },
    ghost room: { lines + length feed.left ≤ pieces * PIECE },
}

impl Checker {
    ghost use Rattle.rr_process.specs.Checker.{CheckerMayTake, CheckerTakesPiece, IsNew, Reports, ReportsAll, WritesItems, WritesReport};
    ghost use Rattle.rr_process.specs.Writing.{written, IsBetween};

    /// A checker to which no line came yet.
    pub(crate) fn new(alloc: Global, precision: Precision, now: i64) -> Checker
        ensures { IsNew precision now result }
    {
        Checker {
            alloc,
            feed: Feed::new(alloc),
            precision,
            now,
            pieces: 0,
            lines: 0,
            refused: 0,
        }
    }

    /// Takes a piece.
    pub(crate) fn push(&mut self, piece: &[u8]) -> Result<(), AllocError>
        requires { CheckerMayTake self.old piece.now }
        ensures { OnOk result (CheckerTakesPiece self.old self.new piece.now) }
    {
        let Ok(()) = self.feed.push(piece) else {
            return Err(AllocError);
        };
        self.pieces += 1;
        Ok(())
    }

    /// Reports and counts the items that can be handed out.
    fn push_items(&mut self, report: &mut Writer<Vec<u8>>) -> Result<(), AllocError>
        requires { IsBetween report.old }
        ensures reported { OnOk result ((text : List ℕ)
            × (written report.new ≡ written report.old ++ text) × Reports self.old self.new text) }
        ensures all_taken { OnOk result (items_left self.new.feed ≡ []) }
    {
        let mut field = Vec::new(self.alloc);
        while let Some(item) = self.feed.next_line() {
            let refused = push_item(
                self.alloc,
                report,
                &mut field,
                item,
                self.lines + 1,
                self.precision,
                self.now,
            )?;
            self.lines += 1;
            self.refused += u64::from(refused);
        }
        Ok(())
    }

    /// The report of the items that can be handed out, which are counted.
    fn report(&mut self) -> Result<Vec<u8>, AllocError>
        ensures { IfOk result (λ text. ReportsAll self.old self.new text.items) }
    {
        let mut report = report_writer(self.alloc);
        self.push_items(&mut report)?;
        text_of(report)
    }

    /// Writes the report of the items that can be handed out.
    pub(crate) fn write_items<W: Write>(&mut self, output: &mut Counted<W>) -> Result<(), ToolFault>
        ensures { WritesItems W.contents self.old self.new output.old output.new result }
    {
        let text = self.report()?;
        write_all(output, text.as_slice())?;
        Ok(())
    }

    /// Writes what is left to report at the end of the input, flushes the writer, and returns how
    /// many lines were refused.
    pub(crate) fn finish<W: Write>(&mut self, output: &mut Counted<W>) -> Result<u64, ToolFault>
        ensures { WritesReport W.contents self.old output.old output.new result }
    {
        self.feed.end();
        self.write_items(output)?;
        flush(output)?;
        Ok(self.refused)
    }
}
