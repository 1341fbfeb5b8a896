//! Refused lines, counted by the names of their faults.

ghost use Rattle.std.specs.Prelude.{◌≡◌, ◌+◌, ◌-◌, ◌^◌, ◌<◌, Some, IfOk, OnOk, length, map, min, option_map};
ghost use Rattle.rr_batch.specs.Refusals.{count_view, name_in};

use rr_text::bytes::{LINE_FEED, SPACE, strip};
use rr_text::text::cut;
use rr_web::RefusedLines;
use std::alloc::{AllocError, Global};
use std::collections::BTreeMap;

/// How many names are counted separately; the lines of any further one are counted as `other`.
pub const MAX_NAMES: usize = 64;

/// Precedes the name of a fault.
const COLON: u8 = b':';

const _: () = prove!(MAX_NAMES == 64);

const _: () = prove!(COLON == 58);

/// How many lines were refused, by the names of their faults. Counts saturate.
#[derive(Drop)]
pub struct RefusalCounts {
    alloc: Global,
    /// The lines of each name.
    named: BTreeMap<Vec<u8>, u64>,
    /// Those whose name isn't known, or isn't counted separately.
    other: u64,
}

/// The name in a line `line N: NAME`.
fn name_in(line: &[u8]) -> Option<&[u8]>
    ensures { option_map (λ name. name.now) result ≡ name_in line.now }
{
    let (_, rest) = cut(COLON, line)?;
    strip(SPACE, rest)
}

/// The lines of a name.
fn refused_lines(alloc: Global, name: &[u8], lines: u64) -> Result<RefusedLines, AllocError>
    ensures { IfOk result (λ counted. count_view counted ≡ (name.now, lines)) }
{
    Ok(RefusedLines {
        fault: Vec::from_slice(alloc, name)?,
        lines,
    })
}

impl RefusalCounts {
    ghost use Rattle.rr_batch.specs.Refusals.{Counts, CountsRefused, HasRoom, all_lines, counts_of, lines_named};
    ghost use Rattle.rr_batch.specs.Refusals.{one_if, whole_lines};

    /// Counts of no lines, which take no memory yet.
    pub fn new(alloc: Global) -> RefusalCounts
        ensures nothing { all_lines result ≡ 0 }
        ensures room { HasRoom result }
    {
        RefusalCounts {
            alloc,
            named: BTreeMap::new(alloc),
            other: 0,
        }
    }

    /// Counts lines that have no name of their own.
    fn add_other(&mut self, lines: u64)
        ensures named { self.new.named ≡ self.old.named }
        ensures other { self.new.other ≡ min (self.old.other + lines) (2 ^ 64 - 1) }
    {
        self.other = self.other.saturating_add(lines);
    }

    /// Counts a line of a name. Only a new name takes memory.
    fn add_name(&mut self, name: &[u8]) -> Result<(), AllocError>
        ensures { all_lines self.old + 1 < 2 ^ 64
            → OnOk result (Counts self.old self.new 1 (λ own. one_if own (Some name.now))) }
    {
        match self.named.get_mut(name) {
            Some(lines) => {
                *lines = lines.saturating_add(1);
                return Ok(());
            }
            None => {}
        }
        if self.named.len() >= MAX_NAMES {
            self.add_other(1);
            return Ok(());
        }
        let name = Vec::from_slice(self.alloc, name)?;
        self.named.insert(name, 1)?;
        Ok(())
    }

    /// Counts a line.
    fn add_line(&mut self, line: &[u8]) -> Result<(), AllocError>
        ensures { all_lines self.old + 1 < 2 ^ 64
            → OnOk result (Counts self.old self.new 1 (λ own. one_if own (name_in line.now))) }
    {
        match name_in(line) {
            Some(name) => self.add_name(name),
            None => {
                self.add_other(1);
                Ok(())
            }
        }
    }

    /// Counts the lines of a text, and returns how many there are.
    fn add_lines(&mut self, text: &[u8]) -> Result<u64, AllocError>
        ensures lines { IfOk result (λ lines. lines ≡ length (whole_lines text.now)) }
        ensures counts { all_lines self.old + length (whole_lines text.now) < 2 ^ 64
            → OnOk result (Counts self.old self.new (length (whole_lines text.now))
            (λ name. lines_named name text.now)) }
    {
        let mut lines = 0;
        let mut left = text;
        while let Some((line, rest)) = cut(LINE_FEED, left) {
            self.add_line(line)?;
            lines += 1;
            left = rest;
        }
        Ok(lines)
    }

    /// Counts refused lines, given their number and the text that names some of them: each line
    /// `line N: NAME` that ends in a line feed counts under its name, and the remaining refused
    /// lines count as `other`. If a text has more lines than were refused, all its lines count.
    ///
    /// If memory runs out, some of the lines are counted. The cost is linear in the text; finding
    /// the count of a name is logarithmic in the at most [`MAX_NAMES`] names.
    pub fn add(&mut self, text: &[u8], refused: u64) -> Result<(), AllocError>
        ensures { OnOk result (CountsRefused self.old self.new text.now refused) }
    {
        let lines = self.add_lines(text)?;
        self.add_other(refused.saturating_sub(lines));
        Ok(())
    }

    /// The lines of each name, in byte order of the names, and last those of `other`. The cost is
    /// linear in the names.
    pub fn to_lines(&self) -> Result<Vec<RefusedLines>, AllocError>
        ensures { IfOk result (λ lines. map count_view lines.items ≡ counts_of self.now) }
    {
        let mut counts = Vec::new(self.alloc);
        for (name, lines) in &self.named {
            counts.push(refused_lines(self.alloc, name, *lines)?)?;
        }
        counts.push(refused_lines(self.alloc, b"other", self.other)?)?;
        Ok(counts)
    }
}
