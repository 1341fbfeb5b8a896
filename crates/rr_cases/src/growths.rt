//! Cases in which each growth of a call is refused in turn.
//!
//! Their input has `{m}` for the number of growths before the one that is refused, and is run with
//! 0, 1, 2 and so on there, until none is refused. How many growths a call makes, and what it does
//! before each, is its own affair. So the expected output has the answers that may come, in order,
//! with a line `---` between two: those that come must be some of them, in that order. The last is
//! that of a run in which nothing is refused. It must come at the end, and may come earlier, if a
//! call does without what was refused.
//!
//! If nothing refuses growths ([`rr_fakes::refusing`]), the last comes at once.

use crate::case::Case;
use crate::documents::texts;
use crate::kind::LAST;
use anyhow::{Result, bail};
use rr_archive::Cells;
use rr_fakes::refusing::{has_refused, refuse_after, refuse_none};
use std::alloc::Global;
use std::sync::Wait;

/// What stands in an input for the number of growths before the one that is refused.
const MARK: &str = "{m}";

/// Has the growth after `growths` others refused, from here to [`end`]; with `None` none is.
pub(crate) fn begin(alloc: Global, growths: Option<u32>) {
    if let Some(growths) = growths {
        refuse_after(alloc, growths);
    }
}

/// Ends what [`begin`] asked for, so that no growth is refused any more.
pub(crate) fn end(alloc: Global, growths: Option<u32>) {
    if growths.is_some() {
        refuse_none(alloc);
    }
}

/// The text of an input in which growths are refused.
pub(crate) fn text_of(input: &[u8]) -> Option<&str> {
    match str::from_utf8(input) {
        Ok(text) if text.contains(MARK) => Some(text),
        _ => None,
    }
}

/// The answers that may come.
#[derive(Drop)]
struct Expected {
    answers: Vec<Vec<u8>>,
    /// The number of the first that may still come.
    from: usize,
}

impl Expected {
    /// Whether an answer is the last.
    fn is_last(&self, answer: &[u8]) -> bool {
        match self.answers.last() {
            Some(last) => last.as_slice() == answer,
            None => false,
        }
    }

    /// The number of an answer, if it may still come.
    fn number_of(&self, answer: &[u8]) -> Option<usize> {
        for number in self.from..self.answers.len() {
            if self.answers[number].as_slice() == answer {
                return Some(number);
            }
        }
        None
    }

    /// Whether an answer may come after those before it, if a growth was refused.
    fn takes(&mut self, answer: &[u8]) -> bool {
        if self.is_last(answer) {
            return true;
        }
        match self.number_of(answer) {
            Some(number) => {
                self.from = number;
                true
            }
            None => false,
        }
    }
}

/// The first answer of a case over a kind of archive that isn't allowed, if there is one. Counts
/// the growths that are refused.
pub(crate) fn unexpected<A: Cells, T: Wait>(
    alloc: Global,
    rt: &T,
    case: &Case,
    text: &str,
    refused: &mut u32,
) -> Result<Option<Vec<u8>>> {
    let mut expected = Expected {
        answers: texts(alloc, &case.expected)?,
        from: 0,
    };
    for growths in 0..LAST {
        let answer = case.kind.output_at::<A, T>(alloc, rt, text, MARK, growths)?;
        if !has_refused(alloc) {
            return Ok((!expected.is_last(&answer)).then_some(answer));
        }
        *refused = refused.saturating_add(1);
        if !expected.takes(&answer) {
            return Ok(Some(answer));
        }
    }
    bail!("the growths go on")
}
