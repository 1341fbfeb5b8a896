//! A file of a journal as bytes in hexadecimal, and changes of them ([`crate::changes`]). It is of
//! three one-minute rows, and replayed under origin 65535, or, if a first line is `# origin N`,
//! under that one. A line `---` stands between the answers to two variants of the bytes.

use crate::cells::{minutes, push_fields};
use crate::changes;
use crate::printed::push_line;
use anyhow::Result;
use rr_archive::Cells;
use rr_base::{Counted, Origin, Schema};
use rr_journal::{
    Cursor, JournalFault, RawRecord, Record, Step, Stop, decode, header_from, read_record,
};
use rr_recovery::{Found, RecoveryFault, replay};
use rr_replica::Replica;
use std::alloc::{AllocError, Global};

/// The origin of a replay if a text gives none.
const OWN: u16 = 65_535;

/// What is added to the kind of a record that is the first after a sync.
const FIRST: u8 = 128;

/// What is read from each variant of the bytes, why reading stopped, and the cells that a replay
/// makes; or the fault that refuses the header, a record, or the replay.
pub(crate) fn answers<A: Cells>(alloc: Global, input: &[u8]) -> Result<Vec<u8>> {
    let schema = minutes(alloc)?;
    let (number, text) = number_of(str::from_utf8(input)?)?;
    let origin = Origin::new(number)?;
    let mut output = String::new(alloc);
    for bytes in &changes::variants(alloc, text)? {
        if !output.is_empty() {
            push_line(&mut output, "---")?;
        }
        push_file::<A>(alloc, &mut output, bytes, &schema, origin)?;
    }
    Ok(output.into_bytes())
}

/// The origin that a text is replayed under, and its lines.
fn number_of(text: &str) -> Result<(u16, &str)> {
    match changes::setting(text, "origin") {
        Some((number, lines)) => Ok((number.parse()?, lines)),
        None => Ok((OWN, text)),
    }
}

fn push_file<A: Cells>(
    alloc: Global,
    output: &mut String,
    bytes: &[u8],
    schema: &Schema,
    origin: Origin,
) -> Result<()> {
    let mut input = Counted::new(bytes);
    match header_from(alloc, &mut input, schema) {
        Ok(mut place) => {
            push_records(alloc, output, &mut input, &mut place, schema)?;
            push_replayed::<A>(alloc, output, bytes, schema, origin)
        }
        Err(fault) => Ok(push_line(output, fault.name())?),
    }
}

/// Adds a line for each record from a place on, and one that says why no more follows, and where.
fn push_records(
    alloc: Global,
    output: &mut String,
    input: &mut Counted<&[u8]>,
    place: &mut Cursor,
    schema: &Schema,
) -> Result<(), AllocError> {
    for _ in 0..u64::MAX {
        match read_record(alloc, input, place) {
            Ok(Step::Whole(raw)) => push_record(alloc, output, &raw, schema)?,
            Ok(Step::Stopped(stop)) => return push_stop(output, &stop, place.offset),
            Err(fault) => return push_line(output, fault.name()),
        }
    }
    Ok(())
}

fn push_record(
    alloc: Global,
    output: &mut String,
    raw: &RawRecord,
    schema: &Schema,
) -> Result<(), AllocError> {
    if raw.kind >= FIRST {
        output.push_str("first ")?;
    }
    match decode(alloc, raw, schema) {
        Ok(record) => push_meaning(alloc, output, &record),
        Err(fault) => push_line(output, fault.name()),
    }
}

fn push_meaning(alloc: Global, output: &mut String, record: &Record) -> Result<(), AllocError> {
    match record {
        Record::Cells(groups) => write!(output, "groups {}\n", groups.len()),
        Record::Origin(origin) => write!(output, "origin {}\n", origin.get()),
        Record::Cursor(cursor) => push_cursor(alloc, output, cursor),
        Record::End(count) => write!(output, "end {count}\n"),
        Record::Witness(witness) => push_witness(alloc, output, witness),
    }
}

fn push_witness(alloc: Global, output: &mut String, witness: &[u8]) -> Result<(), AllocError> {
    let witness = hex::encode(alloc, witness)?;
    let witness = witness.as_str();
    write!(output, "witness {witness}\n")
}

fn push_cursor(alloc: Global, output: &mut String, cursor: &Cursor) -> Result<(), AllocError> {
    let id = hex::encode(alloc, &cursor.id)?;
    let digest = hex::encode(alloc, &cursor.digest)?;
    let (id, digest) = (id.as_str(), digest.as_str());
    write!(output, "cursor {id} {} {digest}\n", cursor.offset)
}

fn push_stop(output: &mut String, stop: &Stop, offset: u64) -> Result<(), AllocError> {
    match stop {
        Stop::End => write!(output, "End at {offset}\n"),
        Stop::Torn => write!(output, "Torn at {offset}\n"),
        Stop::Damaged(fault) => write!(output, "Damaged {} at {offset}\n", fault.name()),
    }
}

/// Adds the cells that a replay of a file makes, or its fault.
fn push_replayed<A: Cells>(
    alloc: Global,
    output: &mut String,
    bytes: &[u8],
    schema: &Schema,
    origin: Origin,
) -> Result<()> {
    let made: Result<Replica<A>, RecoveryFault> = replayed(alloc, bytes, schema, origin);
    match &made {
        Ok(replica) => Ok(push_cells(alloc, output, replica)?),
        Err(fault) => Ok(push_line(output, fault.name())?),
    }
}

/// A replica of an origin into which a file, whose header was read before, is replayed.
fn replayed<A: Cells>(
    alloc: Global,
    bytes: &[u8],
    schema: &Schema,
    origin: Origin,
) -> Result<Replica<A>, RecoveryFault> {
    let mut input = Counted::new(bytes);
    let Ok(mut place) = header_from(alloc, &mut input, schema) else {
        return Err(RecoveryFault::Memory);
    };
    let mut replica = Replica::new(alloc, schema, origin)?;
    let mut found = Found::new(alloc);
    let _stop = replay(
        alloc,
        &mut input,
        &mut place,
        schema,
        &mut replica,
        &mut found,
    )?;
    Ok(replica)
}

fn push_cells<A: Cells>(
    alloc: Global,
    output: &mut String,
    replica: &Replica<A>,
) -> Result<(), AllocError> {
    for cell in &replica.cells_from(alloc, 0, replica.cell_count())? {
        push_fields(output, cell)?;
        output.push('\n')?;
    }
    Ok(())
}
