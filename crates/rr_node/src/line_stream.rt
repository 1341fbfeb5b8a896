//! The lines of one stream, handed to a keeper as their bytes come, and answered into memory.

ghost use Rattle.std.specs.Prelude.{◌≡◌, ◌≤◌, ℕ, ℤ, List, [], ◌++◌, take, length, OnErr, OnOk, IfOk};
ghost use Rattle.rr_feed.specs.declared.piece.TheConstants.{PIECE};
ghost use Rattle.rr_feed.specs.Items.{Item};
ghost use Rattle.rr_host.specs.Clock.{HasGiven};
ghost use Rattle.rr_io.specs.Counted.{one_more};
ghost use Rattle.rr_desk.specs.KeeperState.{KeeperState};
ghost use Rattle.rr_node.specs.LineStream.{AreTaken};
ghost use Rattle.rr_node.specs.Lines.{rules_of};

use crate::connection::Connection;
use crate::fault::NodeFault;
use crate::report::Report;
use crate::rules::Rules;
use rr_archive::Cells;
use rr_desk::Keeper;
use rr_feed::PIECE;
use rr_host::Clock;
use rr_line::Precision;
use std::alloc::Global;
use std::sync::Wait;

/// The lines of one stream, such as a connection or the body of a request, whose bytes come piece
/// by piece. They are taken as [`serve_lines`](crate::serve_lines) takes them, except that their
/// answers are kept in memory, and that whoever ends the stream publishes the last lines.
#[derive(Drop)]
pub struct LineStream {
    connection: Connection,
}

impl LineStream {
    ghost use Rattle.rr_node.specs.LineStream.{Ends, EndsAmong, HasTaken, IsFresh, Stops, Takes};
    ghost use Rattle.rr_node.specs.LineStream.{TakesAmong, report_of, rules_by};

    /// A stream of which nothing has come yet. The times of its lines have this precision, and may
    /// be ahead of the clock by `lead` nanoseconds, or by any amount if that is absent.
    pub fn new(alloc: Global, precision: Precision, lead: Option<u64>) -> LineStream
        ensures rules { rules_by result ≡ rules_of precision lead }
        ensures nothing { (start : KeeperState) → HasTaken result start [] [] start [] }
        ensures fresh { IsFresh result }
    {
        LineStream {
            connection: Connection::new(alloc, Rules { precision, lead }),
        }
    }

    /// What became of the lines so far.
    pub fn report(&self) -> Report
        ensures { result ≡ report_of self.now }
    {
        self.connection.report()
    }

    /// Takes one piece.
    fn take_piece<A: Cells, C: Clock, T: Wait>(
        &mut self,
        piece: &[u8],
        answers: &mut Vec<u8>,
        keeper: &mut Keeper<A>,
        clock: &mut C,
        rt: &T,
    ) -> Result<(), NodeFault>
        requires { length piece.now ≤ PIECE }
        ensures renewals { C.renewals clock.new ≡ C.renewals clock.old }
        ensures taken { OnOk result ((moments : List ℤ) × (text : List ℕ)
            × HasGiven (C.given clock.old) (C.given clock.new) moments
            × (answers.new.items ≡ answers.old.items ++ text)
            × Takes self.old self.new keeper.old keeper.new piece.now moments text) }
        ensures among { OnOk result ((handed : List Item) × (moments : List ℤ) × (text : List ℕ)
            × HasGiven (C.given clock.old) (C.given clock.new) moments
            × (answers.new.items ≡ answers.old.items ++ text)
            × TakesAmong self.old self.new keeper.old keeper.new piece.now handed moments text) }
        ensures stopped { OnErr result ((moments : List ℤ)
            × HasGiven (C.given clock.old) (C.given clock.new) moments
            × Stops self.old keeper.old keeper.new piece.now moments) }
    {
        if self.connection.is_closed() {
            return Err(NodeFault::TooManyReads);
        }
        self.connection.push(piece)?;
        self.connection.write_lines(answers, keeper, clock, rt)?;
        Ok(())
    }

    /// Takes the next bytes: hands each line that is now whole to the keeper, and adds its answer
    /// to `answers`, but no more than `limit` bytes in all. Points without a time share one moment,
    /// since the clock is renewed once.
    ///
    /// Refused as `TooManyReads` once 4,294,967,295 pieces of at most [`PIECE`] bytes have come,
    /// and as `Memory`. Some of the lines are then taken, and the stream is of no further use. The
    /// cost is that of writing each line.
    pub fn take<A: Cells, C: Clock, T: Wait>(
        &mut self,
        bytes: &[u8],
        limit: usize,
        answers: &mut Vec<u8>,
        keeper: &mut Keeper<A>,
        clock: &mut C,
        rt: &T,
    ) -> Result<(), NodeFault>
        ensures renewed { C.renewals clock.new ≡ one_more (C.renewals clock.old) }
        ensures taken { OnOk result ((moments : List ℤ) × (text : List ℕ)
            × HasGiven (C.given clock.old) (C.given clock.new) moments
            × (answers.new.items ≡ take limit (answers.old.items ++ text))
            × Takes self.old self.new keeper.old keeper.new bytes.now moments text) }
        ensures among { OnOk result ((handed : List Item) × (moments : List ℤ) × (text : List ℕ)
            × HasGiven (C.given clock.old) (C.given clock.new) moments
            × (answers.new.items ≡ take limit (answers.old.items ++ text))
            × TakesAmong self.old self.new keeper.old keeper.new bytes.now handed moments text) }
        ensures stopped { OnErr result ((moments : List ℤ)
            × HasGiven (C.given clock.old) (C.given clock.new) moments
            × Stops self.old keeper.old keeper.new bytes.now moments) }
    {
        clock.renew();
        answers.truncate(limit);
        let mut left = bytes;
        while !left.is_empty() {
            let (piece, others) = left.split_at(left.len().min(PIECE));
            self.take_piece(piece, answers, keeper, clock, rt)?;
            answers.truncate(limit);
            left = others;
        }
        Ok(())
    }

    /// Ends the stream: what is left of it is a line, which is taken as [`LineStream::take`] takes
    /// one. Returns what became of all lines. They are published up to the last multiple of 1,000.
    pub fn end<A: Cells, C: Clock, T: Wait>(
        self,
        limit: usize,
        answers: &mut Vec<u8>,
        keeper: &mut Keeper<A>,
        clock: &mut C,
        rt: &T,
    ) -> Result<Report, NodeFault>
        ensures renewals { C.renewals clock.new ≡ C.renewals clock.old }
        ensures ended { IfOk result (λ report. (moments : List ℤ) × (text : List ℕ)
            × HasGiven (C.given clock.old) (C.given clock.new) moments
            × (answers.new.items ≡ take limit (answers.old.items ++ text))
            × Ends self keeper.old keeper.new moments text report) }
        ensures among { IfOk result (λ report. (handed : List Item) × (moments : List ℤ)
            × (text : List ℕ) × HasGiven (C.given clock.old) (C.given clock.new) moments
            × (answers.new.items ≡ take limit (answers.old.items ++ text))
            × EndsAmong self keeper.old keeper.new handed moments text report) }
    {
        let mut connection = self.connection;
        connection.end();
        connection.write_lines(answers, keeper, clock, rt)?;
        answers.truncate(limit);
        Ok(connection.report())
    }
}

/// What became of the lines of a whole text.
#[derive(Debug, Drop)]
pub struct TakenText {
    /// The answers to them: a line for each that was refused.
    pub refusals: Vec<u8>,
    /// How many there were of each kind.
    pub report: Report,
}

/// Takes all lines of a text, as [`LineStream::take`] and [`LineStream::end`] take those of a
/// stream; at most `limit` bytes of their answers are kept.
pub fn take_text<A: Cells, C: Clock, T: Wait>(
    alloc: Global,
    text: &[u8],
    limit: usize,
    keeper: &mut Keeper<A>,
    clock: &mut C,
    precision: Precision,
    lead: Option<u64>,
    rt: &T,
) -> Result<TakenText, NodeFault>
    ensures renewed { C.renewals clock.new ≡ one_more (C.renewals clock.old) }
    ensures taken { IfOk result (λ taken. (moments : List ℤ) × (answers : List ℕ)
        × HasGiven (C.given clock.old) (C.given clock.new) moments
        × (taken.refusals.items ≡ take limit answers)
        × AreTaken (rules_of precision lead) keeper.old keeper.new text.now moments answers
        taken.report) }
{
    let mut stream = LineStream::new(alloc, precision, lead);
    let mut refusals = Vec::new(alloc);
    stream.take(text, limit, &mut refusals, keeper, clock, rt)?;
    let report = stream.end(limit, &mut refusals, keeper, clock, rt)?;
    Ok(TakenText { refusals, report })
}
