//! Calls of a replica of origin 1, one a line. The first line says how many archives it has: one of
//! three rows of one step, or also one of two rows of five steps; or how many steps the rows of
//! each have, of 1, 65 and 128, with three rows each. A step is a minute.
//!
//! | Call | Answer |
//! |---|---|
//! | `put TIME VALUE` | the number of the sample, which is of `m v` |
//! | `write NOW LEAD LINE` | how many fields are put; the lead `-` is none |
//! | `join ORIGIN NUMBER SLOT VALUE` | `joined`: a cell of one sample of `m v` |
//! | `join-cells PAGE` | `joined`: the cells of a page in hexadecimal |
//! | `apply ORIGIN NUMBER TIME VALUE` | `taken` or `not taken`: a sample of `m v` |
//! | `apply-cell ARCHIVE ORIGIN NUMBER SLOT TIME VALUE` | the same for a cell of one sample |
//! | `ready CALL` | `ready`: room is made for the operation of an `apply` or `apply-cell` |
//! | `next` | the number of the next sample |
//! | `cells` | a line for each cell: key, archive, slot, origin, version, count, last value |
//! | `pull`, `give`, `give-after` and words | what a session over streams does |
//! | `puller`, `giver` and words | what a side of a session answers ([`crate::sides`]) |
//! | `answer SIZE WRITES REQUEST` | the answer to a request, written as `save` writes |
//! | `after ARCHIVE SLOT ORIGIN KEY` | the first cell after a name, or `none` |
//! | `keys COUNT KEY` | a line for each key that has a cell, after KEY or, if that is absent, all |
//! | `keeps TIME KEY` | `kept` or `past the horizon`, for a sample at that time |
//! | `save SIZE WRITES` | the bytes of a snapshot that are written, in hexadecimal |
//! | `load ORIGIN SIZE READS BYTES` | how a snapshot is loaded in place of the replica |
//! | `copy CALL` | what the call of a copy answers, and then a line for each cell of the copy |
//! | `refuse N CALL` | what the call answers if the growth after N others is refused |
//!
//! The sample of a `join` is at the start of a slot of the first archive; that of an `apply-cell`
//! is at TIME, whatever its slot. A session over streams ([`crate::sessions`]) answers what it
//! wrote and left, and how it ended; a side of one answers frame by frame. `answer`, and `save` and
//! `load` ([`crate::stored`]), also answer how they ended. If memory runs out, a call answers
//! `Memory`; `write` and `join-cells` add how many fields or cells were done.

ghost use Rattle.std.specs.Prelude.{IfOk};
ghost use Rattle.rr_cells.specs.CellBounds.{IsCellOf};
ghost use Rattle.rr_cells.specs.Listing.{owned_cell};

use crate::archives::replica_of;
use crate::growths::{begin, end};
use crate::operations::op_of;
use crate::printed::push_line;
use crate::series::{behind_of, key_lines};
use crate::sessions::{Session, push_session};
use crate::settings::{sink_of, written};
use crate::sides::{Side, giver, puller, push_steps};
use crate::stored::{loaded, push_saved};
use crate::words::Words;
use anyhow::{Context, Result, bail};
use rr_archive::Cells;
use rr_base::Schema;
use rr_cells::{Cell, CellRef};
use rr_contrib::Contribution;
use rr_fetch::{AnswerFault, answer, parse_request};
use rr_key::SeriesKey;
use rr_line::{LINE_FEED, Line, Precision, parse_line};
use rr_page::{LATEST, cell_bytes, decode, read_cell};
use rr_replica::{JoinFault, Replica, WriteFault};
use rr_text::limits::MAX_NUMBER;
use std::alloc::{AllocError, Global};
use std::fmt::Display;

/// The nanoseconds of a step.
const MINUTE: i64 = 60_000_000_000;

/// What the calls answer.
pub(crate) fn answers<A: Cells>(alloc: Global, input: &[u8]) -> Result<Vec<u8>> {
    let mut lines = str::from_utf8(input)?.lines();
    let count = lines.next().context("an empty file")?;
    let mut calls: Calls<A> = Calls::new(alloc, replica_of(alloc, count)?);
    for line in lines {
        calls.push_answer(line)?;
    }
    Ok(calls.output.into_bytes())
}

/// A replica, and what its calls have answered.
#[derive(Drop)]
struct Calls<A: Cells> {
    alloc: Global,
    replica: Replica<A>,
    output: String,
}

impl<A: Cells> Calls<A> {
    fn new(alloc: Global, replica: Replica<A>) -> Calls<A> {
        Calls {
            alloc,
            replica,
            output: String::new(alloc),
        }
    }

    /// Makes the call of a line.
    fn push_answer(&mut self, line: &str) -> Result<()> {
        match line.split_once(' ') {
            Some(("copy", call)) => self.push_of_copy(call),
            Some(("refuse", call)) => self.push_call(Words::refusing(call)?),
            _ => self.push_call(Words::of(line)),
        }
    }

    /// Makes a call of a copy.
    fn push_of_copy(&mut self, call: &str) -> Result<()> {
        let mut copy = Calls::new(self.alloc, self.replica.copy(self.alloc)?);
        copy.push_call(Words::of(call))?;
        copy.push_cells()?;
        Ok(self.output.push_str(&copy.output)?)
    }

    /// Makes a call other than `copy`.
    fn push_call(&mut self, call: Words<'_>) -> Result<()> {
        let mut words = call;
        match words.word() {
            "put" => self.put(words),
            "write" => self.write_line(words),
            "join" => self.join(words),
            "join-cells" => self.join_cells(words),
            "ready" => self.ready(words),
            "apply" | "apply-cell" => self.apply(call),
            name => self.push_other(name, words),
        }
    }

    /// Makes a call by another name, with the words after it.
    fn push_other(&mut self, name: &str, words: Words<'_>) -> Result<()> {
        match name {
            "pull" => self.hold(Session::Pull, words),
            "give" => self.hold(Session::Give, words),
            "give-after" => self.hold(Session::GiveAfter, words),
            "puller" | "giver" => self.take_steps(name, words),
            "after" => self.push_after(words),
            "keys" => self.push_keys(words),
            "keeps" => self.push_kept(words),
            "answer" => self.answer(words),
            "save" => push_saved(self.alloc, &self.replica, words, &mut self.output),
            "load" => self.load(words),
            "next" => self.push_next(),
            "cells" => Ok(self.push_cells()?),
            _ => bail!("an unknown call"),
        }
    }

    /// Adds a line.
    fn push_line<D: Display + Drop>(&mut self, line: D) -> Result<()> {
        Ok(push_line(&mut self.output, line)?)
    }

    /// Adds a line that says after how many fields or cells memory ran out.
    fn push_memory<D: Display + Drop>(&mut self, done: D) -> Result<()> {
        self.output.push_str("Memory ")?;
        self.push_line(done)
    }

    /// Adds the word that a call answers, or that memory ran out.
    fn push_word(&mut self, word: Result<&str, AllocError>) -> Result<()> {
        self.push_line(word.unwrap_or("Memory"))
    }

    fn put(&mut self, mut words: Words<'_>) -> Result<()> {
        let (time, value) = (words.number()?, words.number()?);
        let key = SeriesKey::parse_text(self.alloc, b"m v")?;
        begin(self.alloc, words.growths);
        let put = self.replica.put(&key, time, value);
        end(self.alloc, words.growths);
        match put {
            Ok(number) => self.push_line(number),
            Err(fault) => self.push_line(fault.name()),
        }
    }

    fn write_line(&mut self, mut words: Words<'_>) -> Result<()> {
        let now = words.number()?;
        let lead = words.limit()?;
        match self.write_point(words, now, lead)? {
            Ok(fields) => self.push_line(fields),
            Err(WriteFault::Memory { put }) => self.push_memory(put),
            Err(fault) => self.push_line(fault.name()),
        }
    }

    /// Writes the point of the line that the words make.
    fn write_point(
        &mut self,
        words: Words<'_>,
        now: i64,
        lead: Option<u64>,
    ) -> Result<Result<u32, WriteFault>> {
        let line = words.rest().as_bytes();
        if line.contains(&LINE_FEED) {
            bail!("more than a line");
        }
        let Line::Point(point) = parse_line(self.alloc, line, Precision::Ns)? else {
            bail!("a line without a point");
        };
        begin(self.alloc, words.growths);
        let written = self.replica.write(&point, now, lead);
        end(self.alloc, words.growths);
        Ok(written)
    }

    fn join(&mut self, words: Words<'_>) -> Result<()> {
        let cell = cell_of(self.alloc, self.replica.schema(), words)?;
        begin(self.alloc, words.growths);
        let joined = self.replica.join_cell(&cell);
        end(self.alloc, words.growths);
        self.push_word(joined.map(|_| "joined"))
    }

    fn join_cells(&mut self, mut words: Words<'_>) -> Result<()> {
        let page = hex::decode(self.alloc, words.word())?;
        let cells = decode(self.alloc, &page, self.replica.schema())?;
        begin(self.alloc, words.growths);
        let joined = self.replica.join_cells(&cells);
        end(self.alloc, words.growths);
        match joined {
            Ok(()) => self.push_line("joined"),
            Err(JoinFault::Memory { joined }) => self.push_memory(joined),
        }
    }

    /// Makes room for the operation of a call.
    fn ready(&mut self, words: Words<'_>) -> Result<()> {
        let op = op_of(self.alloc, words)?;
        begin(self.alloc, words.growths);
        let done = self.replica.ready(&op);
        end(self.alloc, words.growths);
        self.push_word(done.map(|_| "ready"))
    }

    /// Applies a copy of an operation.
    fn apply(&mut self, words: Words<'_>) -> Result<()> {
        let op = op_of(self.alloc, words)?.copy()?;
        begin(self.alloc, words.growths);
        let taken = self.replica.apply(&op);
        end(self.alloc, words.growths);
        self.push_word(taken.map(|taken| if taken { "taken" } else { "not taken" }))
    }

    fn answer(&mut self, mut words: Words<'_>) -> Result<()> {
        let mut output = sink_of(self.alloc, &mut words)?;
        let request = parse_request(self.alloc, words.rest().as_bytes(), self.replica.schema())?;
        begin(self.alloc, words.growths);
        let answered = answer(self.alloc, &self.replica, &request, &mut output);
        end(self.alloc, words.growths);
        self.push_answered(answered, &written(output))
    }

    /// Adds what was written of an answer, and how that ended.
    fn push_answered(&mut self, answered: Result<(), AnswerFault>, text: &[u8]) -> Result<()> {
        self.output.push_str(str::from_utf8(text)?)?;
        self.output.push_str("== ")?;
        match answered {
            Ok(()) => self.push_line("done"),
            Err(fault) => self.push_line(fault.name()),
        }
    }

    fn load(&mut self, words: Words<'_>) -> Result<()> {
        let schema = self.replica.schema();
        if let Some(replica) = loaded(self.alloc, schema, words, &mut self.output)? {
            self.replica = replica;
        }
        Ok(())
    }

    /// Takes the steps of a side of a session.
    fn take_steps(&mut self, name: &str, mut words: Words<'_>) -> Result<()> {
        let frames = words.limit()?;
        let side = if name == "giver" {
            giver(frames)
        } else {
            puller(frames)
        };
        push_steps(self.alloc, side, &mut self.replica, words, &mut self.output)
    }

    fn hold(&mut self, session: Session, words: Words<'_>) -> Result<()> {
        push_session(
            self.alloc,
            session,
            &mut self.replica,
            words,
            &mut self.output,
        )
    }

    /// Adds the first cell after a name.
    fn push_after(&mut self, mut words: Words<'_>) -> Result<()> {
        let (archive, slot) = (words.number()?, words.number()?);
        let origin = words.origin()?;
        let key = SeriesKey::parse_text(self.alloc, words.rest().as_bytes())?;
        match self.replica.next_cell(&key, archive, slot, origin) {
            Some(cell) => Ok(push_cell(&mut self.output, cell)?),
            None => Ok(self.output.push_str("none\n")?),
        }
    }

    /// Adds the keys after one.
    fn push_keys(&mut self, words: Words<'_>) -> Result<()> {
        let (count, after) = behind_of(self.alloc, words)?;
        begin(self.alloc, words.growths);
        let keys = self.replica.keys_after(self.alloc, after.as_ref(), count);
        end(self.alloc, words.growths);
        match keys {
            Ok(keys) => Ok(self.output.push_str(&key_lines(self.alloc, &keys)?)?),
            Err(AllocError) => Ok(self.output.push_str("Memory\n")?),
        }
    }

    /// Adds the number of the next sample.
    fn push_next(&mut self) -> Result<()> {
        let number = self.replica.next_number();
        self.push_line(number)
    }

    /// Adds whether a sample would be kept.
    fn push_kept(&mut self, mut words: Words<'_>) -> Result<()> {
        let time = words.number()?;
        let key = SeriesKey::parse_text(self.alloc, words.rest().as_bytes())?;
        let is_kept = self.replica.keeps(&key, time);
        self.push_word(Ok(if is_kept { "kept" } else { "past the horizon" }))
    }

    fn push_cells(&mut self) -> Result<(), AllocError> {
        for i in 0..self.replica.cell_count() {
            let Some(cell) = self.replica.cell_at(i) else {
                return Ok(());
            };
            push_cell(&mut self.output, cell)?;
        }
        Ok(())
    }
}

/// The cell of a `join`, as it is read from its bytes.
pub(crate) fn cell_of(alloc: Global, schema: &Schema, mut words: Words<'_>) -> Result<Cell>
    ensures { IfOk result (λ cell. IsCellOf schema.now (owned_cell cell)) }
{
    let origin = words.origin()?;
    let number = words.number::<u64>()?.clamp(1, MAX_NUMBER);
    let slot = words.number::<i64>()?.clamp(-9, 9);
    let key = SeriesKey::parse_text(alloc, b"m v")?;
    let cell = CellRef {
        key: &key,
        archive: 0,
        slot,
        origin,
        contribution: Contribution::first(number, 0, slot * MINUTE, words.number()?),
    };
    let bytes = cell_bytes(alloc, cell)?;
    let (cell, _) = read_cell(alloc, &bytes, schema, LATEST)?;
    Ok(cell)
}

/// Adds a line for a cell.
pub(crate) fn push_cell(output: &mut String, cell: CellRef<'_>) -> Result<(), AllocError> {
    let key = str::from_utf8(cell.key.text()).unwrap_or("");
    let (archive, slot, origin) = (cell.archive, cell.slot, cell.origin.get());
    write!(output, "{key} {archive} {slot} {origin} ")?;
    let summary = cell.contribution;
    let (version, count, value) = (summary.version, summary.count, summary.last_value);
    write!(output, "{version} {count} {value}\n")
}
