//! Sessions of a replica over streams, as calls of it ([`crate::replicas`]).
//!
//! The words of a call are how many bytes a read gives and a write takes, how many reads there are
//! before one fails, how many frames the session may have, each `-` if it has no limit; the input
//! in hexadecimal; and, if that has a limit, how many writes there are before one fails.

use crate::growths::{begin, end};
use crate::settings::written;
use crate::words::Words;
use anyhow::{Context, Result};
use rr_archive::Cells;
use rr_base::{Counted, Failing};
use rr_fakes::pieces::{Pieces, failing_after};
use rr_fakes::room::{Room, failing_room};
use rr_gossip::{GossipFault, give, give_after, give_within, pull, pull_within};
use rr_replica::Replica;
use std::alloc::{AllocError, Global};

type Input<'a> = Counted<Failing<Pieces<'a>>>;

type Output = Counted<Failing<Room>>;

/// What a session is given: its input, and its limits.
#[derive(Drop)]
struct Given {
    size: usize,
    reads: u64,
    /// A session may have any 16-bit number of frames.
    frames: Option<u16>,
    bytes: Vec<u8>,
    writes: u64,
}

impl Given {
    fn of(alloc: Global, mut words: Words<'_>) -> Result<Given> {
        Ok(Given {
            size: words.limit()?.unwrap_or(usize::MAX),
            reads: words.limit()?.unwrap_or(u64::MAX),
            frames: words.limit()?,
            bytes: hex::decode(alloc, words.word())?,
            writes: words.limit()?.unwrap_or(u64::MAX),
        })
    }

    /// The first byte of the input.
    fn first(&self) -> u8 {
        self.bytes.first().copied().unwrap_or(0)
    }

    /// The input, without its first byte if that is handed over separately.
    fn input(&self, session: Session) -> Result<Input<'_>> {
        let apart = usize::from(session == Session::GiveAfter);
        let bytes = self.bytes.get(apart..).context("no first byte")?;
        Ok(failing_after(bytes, self.size, self.reads))
    }

    fn output(&self, alloc: Global) -> Result<Output, AllocError> {
        failing_room(alloc, self.size, usize::MAX, self.writes)
    }
}

/// A session.
#[derive(Clone, Copy, PartialEq)]
pub(crate) enum Session {
    /// Pulls from an answer.
    Pull,
    /// Gives what the input asks for.
    Give,
    /// Gives what the input asks for, whose first byte is handed over separately.
    GiveAfter,
}

/// Pulls, within a limit of frames if there is one.
fn pull_some<A: Cells>(
    alloc: Global,
    frames: Option<u16>,
    input: &mut Input<'_>,
    output: &mut Output,
    replica: &mut Replica<A>,
) -> Result<(), GossipFault> {
    match frames {
        None => pull(alloc, input, output, replica),
        Some(most) => pull_within(alloc, input, output, replica, u32::from(most)),
    }
}

/// Gives, after a first byte if one is handed over, within a limit of frames if there is one.
fn give_some<A: Cells>(
    alloc: Global,
    first: Option<u8>,
    frames: Option<u16>,
    input: &mut Input<'_>,
    output: &mut Output,
    replica: &mut Replica<A>,
) -> Result<(), GossipFault> {
    match (first, frames) {
        (None, None) => give(alloc, input, output, replica),
        (None, Some(most)) => give_within(alloc, &[], input, output, replica, u32::from(most)),
        (Some(first), None) => give_after(alloc, first, input, output, replica),
        (Some(first), Some(most)) => {
            give_within(alloc, &[first], input, output, replica, u32::from(most))
        }
    }
}

/// Holds a session over the input that the words have, and adds its ending.
pub(crate) fn push_session<A: Cells>(
    alloc: Global,
    session: Session,
    replica: &mut Replica<A>,
    words: Words<'_>,
    answer: &mut String,
) -> Result<()> {
    let given = Given::of(alloc, words)?;
    let mut input = given.input(session)?;
    let mut output = given.output(alloc)?;
    let frames = given.frames;
    begin(alloc, words.growths);
    let ended = match session {
        Session::Pull => pull_some(alloc, frames, &mut input, &mut output, replica),
        Session::Give => give_some(alloc, None, frames, &mut input, &mut output, replica),
        Session::GiveAfter => {
            let first = Some(given.first());
            give_some(alloc, first, frames, &mut input, &mut output, replica)
        }
    };
    end(alloc, words.growths);
    push_ending(alloc, answer, &written(output), input, ended)
}

/// Adds what was written, how many bytes of the input were left, how many of its calls failed, and
/// how the session ended.
fn push_ending(
    alloc: Global,
    answer: &mut String,
    written: &[u8],
    input: Input<'_>,
    ended: Result<(), GossipFault>,
) -> Result<()> {
    let failures = input.failures();
    let left = input.into_inner().into_inner().left();
    let written = hex::encode(alloc, written)?;
    let ending = match &ended {
        Ok(()) => "done",
        Err(fault) => fault.name(),
    };
    let written = written.as_str();
    Ok(write!(
        answer,
        "[{written}] {left} left, {failures} failed: {ending}\n"
    )?)
}
