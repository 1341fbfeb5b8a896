//! What the words of a call set, each `NAME=VALUE`.
//!
//! | Name | Value |
//! |---|---|
//! | `size` | how many bytes a read gives and a write takes |
//! | `read-fails`, `write-fails` | how many reads or writes there are before one fails |
//! | `reads` | how many reads there may be |
//! | `room` | how many bytes can be written |
//! | `lead` | how far ahead of the clock a point may be, in nanoseconds |
//! | `now` | what the clock gives, in order, with a comma between two |
//! | `growths` | how many growths of the call there are before one is refused |

use crate::words::{Words, number_of};
use anyhow::{Context, Result, bail};
use rr_base::{Counted, Failing};
use rr_fakes::pieces::{Pieces, failing_after};
use rr_fakes::room::{Room, failing_room};
use std::alloc::{AllocError, Global};
use std::str::FromStr;

/// A writer within limits.
pub(crate) type Sink = Counted<Failing<Room>>;

/// The limits of a call's streams and of its memory, and its clock.
#[derive(Drop)]
pub(crate) struct Settings {
    /// How many bytes a read gives and a write takes at most.
    size: usize,
    /// How many reads there are before one fails.
    read_fails: u64,
    /// How many writes there are before one fails.
    write_fails: u64,
    /// How many bytes can be written.
    room: usize,
    /// How many reads there may be.
    pub(crate) reads: Option<u32>,
    /// How far ahead of the clock a point may be.
    pub(crate) lead: Option<u64>,
    /// What the clock gives, in order.
    pub(crate) moments: Vec<i64>,
    /// How many growths there are before one is refused, if one is.
    pub(crate) growths: Option<u32>,
}

impl Settings {
    /// The settings of some words; what they don't set has no limit.
    pub(crate) fn of(alloc: Global, words: &str) -> Result<Settings> {
        let mut settings = Settings {
            size: usize::MAX,
            read_fails: u64::MAX,
            write_fails: u64::MAX,
            room: usize::MAX,
            reads: None,
            lead: None,
            moments: Vec::new(alloc),
            growths: None,
        };
        for word in words.split(' ') {
            if !word.is_empty() {
                settings.set(word)?;
            }
        }
        Ok(settings)
    }

    fn set(&mut self, word: &str) -> Result<()> {
        let (name, value) = word.split_once('=').context("a word without a value")?;
        match name {
            "size" => set(&mut self.size, value),
            "read-fails" => set(&mut self.read_fails, value),
            "write-fails" => set(&mut self.write_fails, value),
            "room" => set(&mut self.room, value),
            "reads" => set_some(&mut self.reads, value),
            "lead" => set_some(&mut self.lead, value),
            "growths" => set_some(&mut self.growths, value),
            "now" => push_moments(&mut self.moments, value),
            _ => bail!("an unknown word"),
        }
    }

    /// A reader of an input, within these limits.
    pub(crate) fn source<'a>(&self, input: &'a [u8]) -> Counted<Failing<Pieces<'a>>> {
        failing_after(input, self.size, self.read_fails)
    }

    /// A writer within these limits.
    pub(crate) fn sink(&self, alloc: Global) -> Result<Sink, AllocError> {
        failing_room(alloc, self.size, self.room, self.write_fails)
    }
}

/// Sets a number to what a text says.
fn set<N: FromStr + Drop>(number: &mut N, text: &str) -> Result<()>
where
    N::Err: Drop,
{
    *number = number_of(text)?;
    Ok(())
}

/// Sets a number that may be absent to what a text says.
fn set_some<N: FromStr + Drop>(number: &mut Option<N>, text: &str) -> Result<()>
where
    N::Err: Drop,
{
    *number = Some(number_of(text)?);
    Ok(())
}

/// Adds the moments of a text, with a comma between two.
fn push_moments(moments: &mut Vec<i64>, text: &str) -> Result<()> {
    for moment in text.split(',') {
        moments.push(number_of(moment)?)?;
    }
    Ok(())
}

/// A writer with the limits of two words: how many bytes a write takes, and how many writes there
/// are before one fails.
pub(crate) fn sink_of(alloc: Global, words: &mut Words<'_>) -> Result<Sink> {
    let size = words.limit()?.unwrap_or(usize::MAX);
    let writes = words.limit()?.unwrap_or(u64::MAX);
    Ok(failing_room(alloc, size, usize::MAX, writes)?)
}

/// What a writer took.
pub(crate) fn written(sink: Sink) -> Vec<u8> {
    sink.into_inner().into_inner().into_written()
}
