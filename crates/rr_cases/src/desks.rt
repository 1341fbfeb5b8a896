//! Calls of a desk of origin 2 with three one-minute rows and one reader, over streams in memory,
//! with a line `---` between two calls.
//!
//! The first line of a call has its words, and what follows is its input, in which lines and texts
//! may be repeated ([`crate::repeats`]). The words after the first limit the streams and the
//! memory, and set the clock ([`crate::settings`]).
//!
//! | Call | Answer |
//! |---|---|
//! | `lines` | what is written while the keeper is served the input |
//! | `fetches` | what is written while the reader serves the input |
//! | `session` | the same, both in hexadecimal |
//! | `pull` | what is written while the keeper pulls from the input, both in hexadecimal |
//! | `put` | nothing: the keeper puts a sample of `m v`, whose time and value are the input |
//! | `join` | nothing: it joins a cell; the input is as for a `join` of [`crate::replicas`] |
//! | `publish` | nothing |
//! | `save` | what is written of a snapshot of the keeper, in hexadecimal |
//! | `names` | how many cells the keeper has, up to 256 |
//! | `cells` | a line for each cell that the reader gives to a side that has none |
//! | `keys` | a line for each key the reader sees; the input is `COUNT KEY`, as for a replica |
//! | `past` | how many samples the keeper put that no archive kept |
//!
//! An answer ends with a line that says how the call ended.

use crate::cells::as_ref;
use crate::documents::texts;
use crate::growths::{begin, end};
use crate::repeats::expanded;
use crate::replicas::{cell_of, push_cell};
use crate::series::{behind_of, key_lines};
use crate::settings::{Settings, written};
use crate::words::Words;
use anyhow::{Context, Result, bail};
use rr_archive::Cells;
use rr_desk::{Keeper, Reader, open};
use rr_fakes::clock::Moments;
use rr_fakes::replicas::minutes;
use rr_key::SeriesKey;
use rr_line::Precision;
use rr_node::{OpenGate, Report, pull_peer, serve_lines, serve_lines_within, serve_reader};
use std::alloc::{AllocError, Global};
use std::sync::Wait;

/// What the calls answer.
pub(crate) fn answers<A: Cells, T: Wait>(alloc: Global, rt: &T, input: &[u8]) -> Result<Vec<u8>> {
    let calls = texts(alloc, input)?;
    let Ok((mut keeper, mut readers)) = open(alloc, rt, minutes::<A>(alloc, 2, 3)?, 1) else {
        bail!("no desk");
    };
    let output = match readers.pop() {
        Some(mut reader) => answers_at(alloc, rt, &mut keeper, &mut reader, &calls),
        None => Ok(Vec::new(alloc)),
    };
    keeper.close(rt);
    output
}

/// What the calls answer at a desk.
fn answers_at<A: Cells, T: Wait>(
    alloc: Global,
    rt: &T,
    keeper: &mut Keeper<A>,
    reader: &mut Reader<A>,
    calls: &[Vec<u8>],
) -> Result<Vec<u8>> {
    let mut output = Vec::new(alloc);
    for call in calls {
        push_answer(&mut output, &answer(alloc, rt, keeper, reader, call)?)?;
    }
    Ok(output)
}

/// Adds what a call wrote, and a line with how it ended.
fn push_answer(output: &mut Vec<u8>, (ending, written): &Answer) -> Result<(), AllocError> {
    output.extend_from_slice(written)?;
    output.extend_from_slice(b"== ")?;
    output.extend_from_slice(ending.as_bytes())?;
    Ok(output.push(b'\n')?)
}

/// How a call ended, and what it wrote.
type Answer = (String, Vec<u8>);

/// Makes a call.
fn answer<A: Cells, T: Wait>(
    alloc: Global,
    rt: &T,
    keeper: &mut Keeper<A>,
    reader: &mut Reader<A>,
    call: &[u8],
) -> Result<Answer> {
    let (line, input) = first_line(call)?;
    let (name, words) = line.split_once(' ').unwrap_or((line, ""));
    let settings = Settings::of(alloc, words)?;
    match name {
        "lines" => lines(alloc, rt, keeper, settings, &expanded(alloc, input)?),
        "fetches" => fetches(alloc, reader, &settings, &expanded(alloc, input)?),
        "session" => session(alloc, reader, &settings, input),
        "pull" => pull(alloc, rt, keeper, &settings, input),
        "publish" => publish(alloc, rt, keeper, &settings),
        "names" => names(alloc, keeper),
        "cells" => cells(alloc, reader),
        "keys" => keys(alloc, reader, &settings, input),
        _ => answer_of_keeper(alloc, keeper, name, &settings, input),
    }
}

/// Makes one of the calls that the keeper answers by itself.
fn answer_of_keeper<A: Cells>(
    alloc: Global,
    keeper: &mut Keeper<A>,
    name: &str,
    settings: &Settings,
    input: &[u8],
) -> Result<Answer> {
    let words = Words::of(str::from_utf8(input)?.trim_end());
    match name {
        "put" => put(alloc, keeper, settings, words),
        "join" => join(alloc, keeper, settings, words),
        "save" => save(alloc, keeper, settings),
        "past" => Ok((
            format!(in alloc; "{}", keeper.past_horizon())?,
            Vec::new(alloc),
        )),
        _ => bail!("an unknown call"),
    }
}

/// The first line of a text, and what follows it.
fn first_line(text: &[u8]) -> Result<(&str, &[u8])> {
    let end = text
        .iter()
        .position(|byte| *byte == b'\n')
        .context("a call without a line")?;
    let line = text.get(..end).context("no line")?;
    let rest = text.get(end..).context("nothing after it")?;
    Ok((str::from_utf8(line)?, rest.get(1..).unwrap_or(b"")))
}

/// How a call that writes nothing ended, as a text.
fn ending(alloc: Global, done: Result<(), AllocError>) -> Result<Answer> {
    let word = match done {
        Ok(()) => "done",
        Err(AllocError) => "Memory",
    };
    Ok((text_of(alloc, word)?, Vec::new(alloc)))
}

/// The name of a fault as a text.
fn text_of(alloc: Global, name: &str) -> Result<String> {
    Ok(String::from_str(alloc, name)?)
}

/// What became of lines, as a text.
fn counts_of(alloc: Global, report: &Report) -> Result<String> {
    let (points, samples, refused) = (report.points, report.samples, report.refused);
    Ok(format!(in alloc; "{points} points, {samples} samples, {refused} refused")?)
}

fn lines<A: Cells, T: Wait>(
    alloc: Global,
    rt: &T,
    keeper: &mut Keeper<A>,
    settings: Settings,
    input: &[u8],
) -> Result<Answer> {
    let mut source = settings.source(input);
    let mut sink = settings.sink(alloc)?;
    let (reads, lead, growths) = (settings.reads, settings.lead, settings.growths);
    let mut clock = Moments::new(settings.moments);
    let unit = Precision::Ns;
    begin(alloc, growths);
    let served = match reads {
        None => serve_lines(
            alloc,
            &mut source,
            &mut sink,
            keeper,
            &mut clock,
            unit,
            lead,
            rt,
        ),
        Some(reads) => serve_lines_within(
            alloc,
            &mut source,
            &mut sink,
            keeper,
            &mut clock,
            unit,
            lead,
            rt,
            reads,
        ),
    };
    end(alloc, growths);
    let ending = match served {
        Ok(report) => counts_of(alloc, &report)?,
        Err(fault) => text_of(alloc, fault.name())?,
    };
    Ok((ending, written(sink)))
}

fn fetches<A: Cells>(
    alloc: Global,
    reader: &mut Reader<A>,
    settings: &Settings,
    input: &[u8],
) -> Result<Answer> {
    let mut source = settings.source(input);
    let mut sink = settings.sink(alloc)?;
    let mut gate = OpenGate::new();
    begin(alloc, settings.growths);
    let served = serve_reader(alloc, &mut source, &mut sink, reader, &mut gate);
    end(alloc, settings.growths);
    let ending = match served {
        Ok(()) => "done",
        Err(fault) => fault.name(),
    };
    Ok((text_of(alloc, ending)?, written(sink)))
}

/// The bytes that a line has in hexadecimal.
fn bytes_of(alloc: Global, input: &[u8]) -> Result<Vec<u8>> {
    Ok(hex::decode(alloc, str::from_utf8(input)?.trim_end())?)
}

/// Bytes in hexadecimal, as a line.
fn hex_line(alloc: Global, bytes: &[u8]) -> Result<Vec<u8>> {
    let mut text = hex::encode(alloc, bytes)?;
    text.push('\n')?;
    Ok(text.into_bytes())
}

fn session<A: Cells>(
    alloc: Global,
    reader: &mut Reader<A>,
    settings: &Settings,
    input: &[u8],
) -> Result<Answer> {
    let (ending, written) = fetches(alloc, reader, settings, &bytes_of(alloc, input)?)?;
    Ok((ending, hex_line(alloc, &written)?))
}

fn pull<A: Cells, T: Wait>(
    alloc: Global,
    rt: &T,
    keeper: &mut Keeper<A>,
    settings: &Settings,
    input: &[u8],
) -> Result<Answer> {
    let bytes = bytes_of(alloc, input)?;
    let mut source = settings.source(&bytes);
    let mut sink = settings.sink(alloc)?;
    begin(alloc, settings.growths);
    let pulled = pull_peer(alloc, &mut source, &mut sink, keeper, rt);
    end(alloc, settings.growths);
    let ending = match pulled {
        Ok(()) => "done",
        Err(fault) => fault.name(),
    };
    let written = hex_line(alloc, &written(sink))?;
    Ok((text_of(alloc, ending)?, written))
}

fn publish<A: Cells, T: Wait>(
    alloc: Global,
    rt: &T,
    keeper: &mut Keeper<A>,
    settings: &Settings,
) -> Result<Answer> {
    begin(alloc, settings.growths);
    let published = keeper.publish(rt);
    end(alloc, settings.growths);
    ending(alloc, published)
}

fn put<A: Cells>(
    alloc: Global,
    keeper: &mut Keeper<A>,
    settings: &Settings,
    mut words: Words<'_>,
) -> Result<Answer> {
    let (time, value) = (words.number()?, words.number()?);
    let key = SeriesKey::parse_text(alloc, b"m v")?;
    begin(alloc, settings.growths);
    let put = keeper.put(&key, time, value);
    end(alloc, settings.growths);
    let ending = match put {
        Ok(number) => format!(in alloc; "{number}")?,
        Err(fault) => text_of(alloc, fault.name())?,
    };
    Ok((ending, Vec::new(alloc)))
}

fn join<A: Cells>(
    alloc: Global,
    keeper: &mut Keeper<A>,
    settings: &Settings,
    words: Words<'_>,
) -> Result<Answer> {
    let cell = cell_of(alloc, keeper.schema(), words)?;
    begin(alloc, settings.growths);
    let joined = keeper.join_cell(&cell);
    end(alloc, settings.growths);
    ending(alloc, joined)
}

fn save<A: Cells>(alloc: Global, keeper: &Keeper<A>, settings: &Settings) -> Result<Answer> {
    let mut sink = settings.sink(alloc)?;
    begin(alloc, settings.growths);
    let saved = keeper.save(alloc, &mut sink);
    end(alloc, settings.growths);
    let ending = match saved {
        Ok(()) => "done",
        Err(fault) => fault.name(),
    };
    Ok((text_of(alloc, ending)?, hex_line(alloc, &written(sink))?))
}

fn names<A: Cells>(alloc: Global, keeper: &Keeper<A>) -> Result<Answer> {
    let count = keeper.names(alloc, 0, 256)?.len();
    Ok((format!(in alloc; "{count}")?, Vec::new(alloc)))
}

fn cells<A: Cells>(alloc: Global, reader: &mut Reader<A>) -> Result<Answer> {
    let Ok(cells) = reader.difference(alloc, &[]) else {
        bail!("out of memory");
    };
    let mut listed = String::new(alloc);
    for cell in &cells {
        push_cell(&mut listed, as_ref(cell))?;
    }
    Ok((text_of(alloc, "done")?, listed.into_bytes()))
}

fn keys<A: Cells>(
    alloc: Global,
    reader: &mut Reader<A>,
    settings: &Settings,
    input: &[u8],
) -> Result<Answer> {
    let words = Words::of(str::from_utf8(input)?.trim_end());
    let (count, after) = behind_of(alloc, words)?;
    begin(alloc, settings.growths);
    let keys = reader.keys_after(alloc, after.as_ref(), count);
    end(alloc, settings.growths);
    match keys {
        Ok(keys) => Ok((
            text_of(alloc, "done")?,
            key_lines(alloc, &keys)?.into_bytes(),
        )),
        Err(AllocError) => ending(alloc, Err(AllocError)),
    }
}
