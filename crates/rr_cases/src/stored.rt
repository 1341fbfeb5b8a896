//! Snapshots of a replica, as calls of it ([`crate::replicas`]).

use crate::growths::{begin, end};
use crate::printed::push_line;
use crate::settings::{sink_of, written};
use crate::words::Words;
use anyhow::Result;
use rr_archive::Cells;
use rr_base::Schema;
use rr_fakes::pieces::failing_after;
use rr_replica::Replica;
use rr_snapshot::{LoadFault, SaveFault, load, save};
use std::alloc::{AllocError, Global};

/// Adds the bytes that were written when a replica was saved, in hexadecimal, and how that ended.
/// The words are how many bytes a write takes, and how many writes there are before one fails.
pub(crate) fn push_saved<A: Cells>(
    alloc: Global,
    replica: &Replica<A>,
    mut words: Words<'_>,
    answer: &mut String,
) -> Result<()> {
    let mut output = sink_of(alloc, &mut words)?;
    begin(alloc, words.growths);
    let saved = save(alloc, replica, &mut output);
    end(alloc, words.growths);
    answer.push_str(&hex::encode(alloc, &written(output))?)?;
    push_fault(answer, saved)
}

/// Ends a line, and adds one with the fault that a save ended with, if there is one.
fn push_fault(answer: &mut String, saved: Result<(), SaveFault>) -> Result<()> {
    match saved {
        Ok(()) => Ok(answer.push('\n')?),
        Err(fault) => {
            answer.push('\n')?;
            Ok(push_line(answer, fault.name())?)
        }
    }
}

/// Returns the replica that the bytes of some words load as, if they do, and adds how that ended.
/// The words are its origin, how many bytes a read gives, how many reads there are before one
/// fails, and the bytes.
pub(crate) fn loaded<A: Cells>(
    alloc: Global,
    schema: &Schema,
    mut words: Words<'_>,
    answer: &mut String,
) -> Result<Option<Replica<A>>> {
    let origin = words.origin()?;
    let size = words.limit()?.unwrap_or(usize::MAX);
    let reads = words.limit()?.unwrap_or(u64::MAX);
    let bytes = hex::decode(alloc, words.word())?;
    let mut input = failing_after(&bytes, size, reads);
    begin(alloc, words.growths);
    let replica = load(alloc, &mut input, schema, origin);
    end(alloc, words.growths);
    push_loaded(&replica, input.failures(), answer)?;
    Ok(replica.ok())
}

/// Adds how a replica was loaded, with how many reads failed if it wasn't.
fn push_loaded<A: Cells>(
    loaded: &Result<Replica<A>, LoadFault>,
    failures: u64,
    answer: &mut String,
) -> Result<(), AllocError> {
    match loaded {
        Ok(replica) => {
            let (origin, next) = (replica.origin().get(), replica.next_number());
            write!(answer, "loaded as {origin}, next {next}\n")
        }
        Err(fault) => {
            let name = fault.name();
            write!(answer, "{name}, {failures} failed\n")
        }
    }
}
