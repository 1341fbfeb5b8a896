//! Where a key stands in the text of a configuration.

use crate::named_key::NamedKey;
use std::fmt;

/// What begins the table of an archive.
const ARCHIVE: &str = "[[archive]]";

/// A key, and the line that gives it its value, if that was found.
#[derive(Clone, Copy)]
pub(crate) struct Placed<'a> {
    named: NamedKey<'a>,
    line: Option<usize>,
}

/// Whether a line gives a key its value.
fn gives(line: &str, key: &str) -> bool {
    match line.trim_start().strip_prefix(key) {
        Some(rest) => rest.trim_start().starts_with('='),
        None => false,
    }
}

/// The line, from 1, that gives a key its value. It is looked for as keys are usually written: each
/// on a line of its own, and those of an archive below its `[[archive]]`.
fn line_of(text: &str, named: NamedKey<'_>) -> Option<usize> {
    let archive = named.archive.unwrap_or(0);
    let mut archives = 0usize;
    let mut number = 0usize;
    for line in text.lines() {
        number = number.saturating_add(1);
        if line.trim_start().starts_with(ARCHIVE) {
            archives = archives.saturating_add(1);
        }
        if archives == archive && gives(line, named.key) {
            return Some(number);
        }
    }
    None
}

impl<'a> Placed<'a> {
    /// A key of a text.
    pub(crate) fn new(text: &str, named: NamedKey<'a>) -> Placed<'a> {
        Placed {
            named,
            line: line_of(text, named),
        }
    }
}

impl fmt::Display for Placed<'_> {
    fn fmt<W: fmt::Write>(&self, f: &mut fmt::Formatter<W>) -> fmt::Result {
        if let Some(line) = self.line {
            write!(f, "line {line}: ")?;
        }
        self.named.fmt(f)
    }
}
