//! Lines of the line protocol. A first line `# check-lines ..` has the words of the command line;
//! what follows a `;` in it limits the streams ([`crate::settings`]), and lines and texts may then
//! be repeated ([`crate::repeats`]).

use crate::growths::{begin, end};
use crate::repeats::expanded;
use crate::settings::{Settings, written};
use anyhow::{Result, bail};
use rr_line::Precision;
use rr_process::{ToolFault, check_lines, check_lines_within};
use rr_words::{Order, read_words};
use std::alloc::Global;

/// The words of a file whose first line has none.
const NO_OPTIONS: &str = "check-lines";

/// The report of the lines, and why not all are checked.
pub(crate) fn answers(alloc: Global, input: &[u8]) -> Result<Vec<u8>> {
    let words = words_of(input);
    match words.split_once("; ") {
        Some((words, limits)) => report(
            alloc,
            words,
            &Settings::of(alloc, limits)?,
            &expanded(alloc, input)?,
        ),
        None => report(alloc, words, &Settings::of(alloc, "")?, input),
    }
}

/// The precision and the moment that words ask for.
fn options(alloc: Global, words: &str) -> Result<(Precision, i64)> {
    let words: Vec<&str> = words.split(' ').collect(alloc)?;
    match read_words(alloc, &words)? {
        Order::CheckLines { precision, now } => Ok((precision, now)),
        _ => bail!("the words of the first line aren't those of check-lines"),
    }
}

/// The report of the lines, over streams with these limits.
fn report(alloc: Global, words: &str, settings: &Settings, lines: &[u8]) -> Result<Vec<u8>> {
    let (precision, now) = options(alloc, words)?;
    let mut source = settings.source(lines);
    let mut sink = settings.sink(alloc)?;
    begin(alloc, settings.growths);
    let checked = match settings.reads {
        None => check_lines(alloc, &mut source, &mut sink, precision, now),
        Some(reads) => check_lines_within(alloc, &mut source, &mut sink, precision, now, reads),
    };
    end(alloc, settings.growths);
    ended(written(sink), checked)
}

/// What was written, and after it the fault that the check ended with, if there is one.
fn ended(mut output: Vec<u8>, checked: Result<u64, ToolFault>) -> Result<Vec<u8>> {
    if let Err(fault) = checked {
        for text in ["== ", fault.name(), "\n"] {
            output.extend_from_slice(text.as_bytes())?;
        }
    }
    Ok(output)
}

/// The words of the first line, if it has any.
fn words_of(input: &[u8]) -> &str {
    match input.split(|byte| *byte == b'\n').next() {
        Some([b'#', b' ', words @ ..]) if words.starts_with(NO_OPTIONS.as_bytes()) => {
            str::from_utf8(words).unwrap_or(NO_OPTIONS)
        }
        _ => NO_OPTIONS,
    }
}
