//! A side of a session, frame by frame, as a call of a replica ([`crate::replicas`]).
//!
//! The words of the call are how many frames the session may have each way, `-` if it has no limit,
//! and then what is done, with an answer for each:
//!
//! | Word | Answer |
//! |---|---|
//! | `next` | the next frame in hexadecimal, or `none` |
//! | a frame without its length, in hexadecimal | it is taken: `last`, or `more` if it isn't |
//!
//! A frame `-` is the empty one, and `N*BYTES` has the bytes N times.

use crate::growths::{begin, end};
use crate::printed::push_line;
use crate::words::Words;
use anyhow::Result;
use rr_archive::Cells;
use rr_gossip::{Giver, GossipFault, Puller};
use rr_replica::Replica;
use std::alloc::Global;

/// A side of a session.
#[derive(Drop)]
pub(crate) enum Side {
    Gives(Giver),
    Pulls(Puller),
}

/// The side that gives. A session may have any 16-bit number of frames.
pub(crate) fn giver(frames: Option<u16>) -> Side {
    match frames {
        Some(most) => Side::Gives(Giver::with_limit(u32::from(most))),
        None => Side::Gives(Giver::new()),
    }
}

/// The side that pulls.
pub(crate) fn puller(frames: Option<u16>) -> Side {
    match frames {
        Some(most) => Side::Pulls(Puller::with_limit(u32::from(most))),
        None => Side::Pulls(Puller::new()),
    }
}

impl Side {
    fn next_frame<A: Cells>(
        &mut self,
        alloc: Global,
        replica: &mut Replica<A>,
    ) -> Result<Option<Vec<u8>>, GossipFault> {
        match self {
            Side::Gives(giver) => giver.next_frame(alloc, replica),
            Side::Pulls(puller) => puller.next_frame(alloc, replica),
        }
    }

    fn take<A: Cells>(
        &mut self,
        alloc: Global,
        frame: &[u8],
        replica: &mut Replica<A>,
    ) -> Result<bool, GossipFault> {
        match self {
            Side::Gives(giver) => giver.take(alloc, frame, replica),
            Side::Pulls(puller) => puller.take(alloc, frame, replica),
        }
    }
}

/// Does what the words say, one after another, and adds a line for each.
pub(crate) fn push_steps<A: Cells>(
    alloc: Global,
    mut side: Side,
    replica: &mut Replica<A>,
    words: Words<'_>,
    answer: &mut String,
) -> Result<()> {
    for word in words.rest().split(' ') {
        if word == "next" {
            begin(alloc, words.growths);
            let next = side.next_frame(alloc, replica);
            end(alloc, words.growths);
            push_next(alloc, next, answer)?;
        } else {
            let frame = frame_of(alloc, word)?;
            begin(alloc, words.growths);
            let taken = side.take(alloc, &frame, replica);
            end(alloc, words.growths);
            push_taken(taken, answer)?;
        }
    }
    Ok(())
}

/// The frame of a word.
fn frame_of(alloc: Global, word: &str) -> Result<Vec<u8>> {
    if word == "-" {
        return Ok(Vec::new(alloc));
    }
    let Some((count, bytes)) = word.split_once('*') else {
        return Ok(hex::decode(alloc, word)?);
    };
    let bytes = hex::decode(alloc, bytes)?;
    let mut frame = Vec::new(alloc);
    for _ in 0..count.parse::<u32>()? {
        frame.extend_from_slice(&bytes)?;
    }
    Ok(frame)
}

fn push_next(
    alloc: Global,
    next: Result<Option<Vec<u8>>, GossipFault>,
    answer: &mut String,
) -> Result<()> {
    match next {
        Ok(Some(frame)) => Ok(push_line(answer, hex::encode(alloc, &frame)?)?),
        Ok(None) => Ok(push_line(answer, "none")?),
        Err(fault) => Ok(push_line(answer, fault.name())?),
    }
}

fn push_taken(taken: Result<bool, GossipFault>, answer: &mut String) -> Result<()> {
    let word = match taken {
        Ok(true) => "last",
        Ok(false) => "more",
        Err(fault) => fault.name(),
    };
    Ok(push_line(answer, word)?)
}
