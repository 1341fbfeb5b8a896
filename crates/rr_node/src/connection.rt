//! Lines of a connection as they come in pieces, handed to the keeper.

ghost use Rattle.std.specs.Prelude.{◌≡◌, ◌≢◌, ℕ, ◌+◌, ◌*◌, ◌<◌, ◌≤◌, ◌^◌, ℤ, false, true, List, [], ◌++◌, length, OnOk, OnErr};
ghost use Rattle.rr_text.specs.declared.limits.TheConstants.{MAX_FIELDS};
ghost use Rattle.rr_feed.specs.declared.piece.TheConstants.{PIECE};
ghost use Rattle.rr_feed.specs.Items.{Item};
ghost use Rattle.rr_host.specs.Clock.{HasGiven};
ghost use Rattle.rr_io.specs.Stream.{Writes};
ghost use Rattle.rr_io.specs.Counted.{is_flushed};
ghost use Rattle.rr_node.specs.Blame.{Sends, StaysFlushed};
ghost use Rattle.rr_node.specs.Lines.{published_after, report_text};

use crate::answer::{Answer, write_item};
use crate::fault::NodeFault;
use crate::report::{Report, push_report};
use crate::rules::{LINES_TO_PUBLISH, Rules};
use rr_archive::Cells;
use rr_desk::Keeper;
use rr_feed::Feed;
use rr_host::Clock;
use rr_io::Counted;
use rr_io::stream::{WriteFailed, flush, write_all};
use rr_line::LastTime;
use rr_text::refusal::push_refusal;
use std::alloc::{AllocError, Global};
use std::io::Write;
use std::sync::Wait;

/// A connection whose lines come in pieces.
#[derive(Drop)]
pub(crate) struct Connection {
    alloc: Global,
    feed: Feed,
    rules: Rules,
    /// How many pieces came. They bound the number of lines, which therefore fits.
    pieces: u32,
    lines: u64,
    report: Report,
    /// The time of the last line that had one; most lines of a connection repeat the time of the
    /// one before.
    last: LastTime,

    ghost few: { report.points + report.refused ≤ lines },
    ghost few_samples: { report.samples ≤ lines * MAX_FIELDS },
    ghost room: { lines + length feed.left ≤ pieces * PIECE },
}

impl Connection {
    ghost use Rattle.rr_node.specs.Connection.{AnswersLines, Finishes, IsFew, IsNew, ConnectionMayTake, ConnectionTakesPiece, ServedAllItems, ServesAllAmong, StoppedByMemory, counted_in, text_to};
    ghost use Rattle.rr_feed.specs.Feed.{state};

    /// A connection on which no line came yet.
    pub(crate) fn new(alloc: Global, rules: Rules) -> Connection
        ensures { IsNew rules result }
    {
        Connection {
            alloc,
            feed: Feed::new(alloc),
            rules,
            pieces: 0,
            lines: 0,
            report: Report {
                points: 0,
                samples: 0,
                refused: 0,
            },
            last: LastTime::new(),
        }
    }

    /// Whether it takes no further piece, since their number wouldn't fit.
    pub(crate) fn is_closed(&self) -> bool
        ensures { result ≡ false → self.now.pieces + 1 < 2 ^ 32 }
    {
        self.pieces == u32::MAX
    }

    /// What became of the lines so far.
    pub(crate) fn report(&self) -> Report
        ensures { result ≡ self.now.report }
    {
        self.report
    }

    /// Ends the input: a last line without a line feed is then whole.
    pub(crate) fn end(&mut self)
        ensures feed { self.new.feed ≡ state self.old.feed.left self.old.feed.skipping true }
        ensures lines { self.new.lines ≡ self.old.lines }
        ensures report { self.new.report ≡ self.old.report }
        ensures rules { self.new.rules ≡ self.old.rules }
    {
        self.feed.end();
    }

    /// Takes a piece, which is refused once the input has ended, or if memory runs out.
    pub(crate) fn push(&mut self, piece: &[u8]) -> Result<(), AllocError>
        requires { ConnectionMayTake self.old piece.now }
        ensures { OnOk result (ConnectionTakesPiece self.old self.new piece.now) }
    {
        let Ok(()) = self.feed.push(piece) else {
            return Err(AllocError);
        };
        self.pieces += 1;
        Ok(())
    }

    /// Counts a line, and adds the answer to it.
    fn count(&mut self, answers: &mut Vec<u8>, answer: Answer) -> Result<(), AllocError>
        requires room { self.old.lines + length self.old.feed.left < self.old.pieces * PIECE }
        requires answer_fits { IsFew answer }
        ensures lines { OnOk result (self.new.lines ≡ self.old.lines + 1) }
        ensures report { OnOk result (self.new.report ≡ counted_in self.old.report answer) }
        ensures answered { OnOk result (answers.new.items ≡ answers.old.items
            ++ text_to (self.old.lines + 1) answer) }
        ensures feed { self.new.feed ≡ self.old.feed }
        ensures pieces { self.new.pieces ≡ self.old.pieces }
        ensures rules { self.new.rules ≡ self.old.rules }
    {
        self.lines += 1;
        match answer {
            Answer::Nothing => {}
            Answer::Put(samples) => {
                self.report.points += 1;
                self.report.samples += u64::from(samples);
            }
            Answer::Refused(name) => {
                self.report.refused += 1;
                push_refusal(answers, self.lines, name)?;
            }
        }
        Ok(())
    }

    /// Publishes what is pending after every 1,000 lines.
    fn publish_in_turn<A: Cells, T: Wait>(
        &self,
        keeper: &mut Keeper<A>,
        rt: &T,
    ) -> Result<(), AllocError>
        ensures published { OnOk result (keeper.new ≡ published_after self.now.lines keeper.old) }
        ensures unchanged { OnErr result (keeper.new ≡ keeper.old) }
    {
        if self.lines % LINES_TO_PUBLISH == 0 {
            return keeper.publish(rt);
        }
        Ok(())
    }

    /// Hands the keeper the lines that came, and adds the answers to them.
    pub(crate) fn write_lines<A: Cells, C: Clock, T: Wait>(
        &mut self,
        answers: &mut Vec<u8>,
        keeper: &mut Keeper<A>,
        clock: &mut C,
        rt: &T,
    ) -> Result<(), AllocError>
        ensures renewals { C.renewals clock.new ≡ C.renewals clock.old }
        ensures served { OnOk result ((moments : List ℤ) × (text : List ℕ)
            × HasGiven (C.given clock.old) (C.given clock.new) moments
            × (answers.new.items ≡ answers.old.items ++ text)
            × ServedAllItems self.old self.new keeper.old keeper.new moments text) }
        ensures among { OnOk result ((handed : List Item) × (moments : List ℤ) × (text : List ℕ)
            × HasGiven (C.given clock.old) (C.given clock.new) moments
            × (answers.new.items ≡ answers.old.items ++ text)
            × ServesAllAmong self.old self.new keeper.old keeper.new handed moments text) }
        ensures ended { OnErr result ((moments : List ℤ)
            × HasGiven (C.given clock.old) (C.given clock.new) moments
            × StoppedByMemory self.old keeper.old keeper.new moments) }
    {
        while let Some(item) = self.feed.next_line() {
            let answer = write_item(self.alloc, keeper, clock, self.rules, &mut self.last, item)?;
            self.count(answers, answer)?;
            self.publish_in_turn(keeper, rt)?;
        }
        Ok(())
    }

    /// Hands the keeper the lines that came, and writes the answers to them. Lines that came
    /// together may share one moment.
    pub(crate) fn answer_lines<A: Cells, C: Clock, W: Write, T: Wait>(
        &mut self,
        output: &mut Counted<W>,
        keeper: &mut Keeper<A>,
        clock: &mut C,
        rt: &T,
    ) -> Result<(), NodeFault>
        ensures { AnswersLines C.given C.renewals W.contents self.old self.new keeper.old keeper.new
            clock.old clock.new output.old output.new result }
    {
        let mut answers = Vec::new(self.alloc);
        clock.renew();
        self.write_lines(&mut answers, keeper, clock, rt)?;
        send(output, answers.as_slice())?;
        Ok(())
    }

    /// Serves what is left at the end of the input, publishes everything, and writes the report.
    pub(crate) fn finish<A: Cells, C: Clock, W: Write, T: Wait>(
        &mut self,
        output: &mut Counted<W>,
        keeper: &mut Keeper<A>,
        clock: &mut C,
        rt: &T,
    ) -> Result<Report, NodeFault>
        ensures { Finishes C.given C.renewals W.contents self.old keeper.old keeper.new clock.old
            clock.new output.old output.new result }
    {
        self.feed.end();
        self.answer_lines(output, keeper, clock, rt)?;
        keeper.publish(rt)?;
        send_report(self.alloc, output, &self.report)?;
        Ok(self.report)
    }
}

/// Writes bytes and flushes the writer; does nothing if there are none.
fn send<W: Write>(output: &mut Counted<W>, bytes: &[u8]) -> Result<(), WriteFailed>
    ensures writes { Writes W.contents output.old output.new bytes.now result }
    ensures flushed { OnOk result (bytes.now ≢ [] → is_flushed output.new ≡ true) }
    ensures stays_flushed { OnOk result (StaysFlushed output.old output.new) }
{
    if bytes.is_empty() {
        return Ok(());
    }
    write_all(output, bytes)?;
    flush(output)
}

/// Writes the report.
fn send_report<W: Write>(
    alloc: Global,
    output: &mut Counted<W>,
    report: &Report,
) -> Result<(), NodeFault>
    ensures sends { Sends W.contents output.old output.new (report_text report.now) result }
    ensures flushed { OnOk result (is_flushed output.new ≡ true) }
{
    let mut text = Vec::new(alloc);
    push_report(&mut text, report)?;
    send(output, text.as_slice())?;
    Ok(())
}
