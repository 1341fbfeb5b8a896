//! What precedes the records in a file of a journal.
ghost use Rattle.std.specs.Prelude.{◌≡◌, ◌≤◌, IfOk, length};
ghost use Rattle.rr_io.specs.Counted.{inner_of};
ghost use Rattle.rr_io.specs.Stream.{KeepsFailures, ReadsSome};
ghost use Rattle.rr_schema.specs.SchemaBytes.{schema_bytes};
ghost use Rattle.rr_journal.specs.Fault.{Finds};
ghost use Rattle.rr_journal.specs.Header.{after_schema, header_at, header_len, header_text, start_at, undigested_len, ReadsHeader};

use crate::cursor::Cursor;
use crate::digest::{DIGEST_LEN, cut_digest};
use crate::fault::JournalFault;
use crate::fields::{bytes_at, cursor_at, u8_at, u16_at};
use crate::records::bytes_from;
use rr_io::Counted;
use rr_schema::Schema;
use std::alloc::{AllocError, Global};
use std::io::Read;

/// The bytes that every file of a journal begins with.
const MAGIC: [u8; 4] = *b"RRJN";

/// The version that is written: batches begin with a witness.
const VERSION: u8 = 2;

/// The first version, which is read too: it has no witnesses.
const FIRST_VERSION: u8 = 1;

/// How many decimals the values of cells have.
pub const DECIMALS: u8 = 0;

/// How many bytes a header has besides its schema and its digest.
const BESIDES_LEN: usize = 40;

const _: () = prove!(VERSION == 2);

const _: () = prove!(FIRST_VERSION == 1);

const _: () = prove!(DECIMALS == 0);

const _: () = prove!(BESIDES_LEN == 40);

/// The size of a schema in bytes.
fn schema_len(schema: &Schema) -> u16
    ensures value { result ≡ length (schema_bytes schema.now) }
    ensures few { result ≤ 77 }
{
    let _archives = schema.archives(); // their contract says that they are few
    schema.byte_len() as u16
}

/// The header of a file that begins at this place in a journal.
#[tactic(auto, unfolding(crate::specs::Header::header_text, crate::specs::Header::undigested_header, crate::specs::Cursor::cursor_text))]
pub fn header_bytes(alloc: Global, schema: &Schema, begins: &Cursor) -> Result<Vec<u8>, AllocError>
    ensures { IfOk result (λ bytes. bytes.items ≡ header_text schema.now begins.now) }
{
    let own = schema.bytes(alloc)?;
    let mut bytes = Vec::new(alloc);
    bytes.extend_from_slice(&MAGIC)?;
    bytes.push(VERSION)?;
    bytes.push(DECIMALS)?;
    bytes.extend_from_slice(&schema_len(schema).to_be_bytes())?;
    bytes.extend_from_slice(&own)?;
    bytes.extend_from_slice(&begins.id)?;
    bytes.extend_from_slice(&begins.offset.to_be_bytes())?;
    bytes.extend_from_slice(&begins.digest)?;
    let digest = cut_digest(&bytes);
    bytes.extend_from_slice(&digest)?;
    Ok(bytes)
}

/// Checks the magic, the version and the decimals, and returns what follows them.
#[tactic(auto, unfolding(crate::specs::Header::start_at))]
fn after_start(bytes: &[u8]) -> Result<&[u8], JournalFault>
    ensures { Finds (λ rest. rest.now) result (start_at bytes.now) }
{
    let (start, rest) = bytes_at(bytes, MAGIC.len())?;
    if start != MAGIC.as_slice() {
        return Err(JournalFault::BadMagic);
    }
    let (version, rest) = u8_at(rest)?;
    if version != VERSION && version != FIRST_VERSION {
        return Err(JournalFault::BadVersion);
    }
    let (decimals, rest) = u8_at(rest)?;
    if decimals != DECIMALS {
        return Err(JournalFault::BadDecimals);
    }
    Ok(rest)
}

/// Checks a schema and its length, and returns what follows them.
#[tactic(auto, unfolding(crate::specs::Header::after_schema))]
fn after_schema<'a>(bytes: &'a [u8], schema: &Schema) -> Result<&'a [u8], JournalFault>
    ensures { Finds (λ rest. rest.now) result (after_schema schema.now bytes.now) }
{
    let (len, rest) = u16_at(bytes)?;
    if len != schema_len(schema) {
        return Err(JournalFault::SchemaDiffers);
    }
    let (own, rest) = bytes_at(rest, len as usize)?;
    if !schema.has_bytes(own) {
        return Err(JournalFault::SchemaDiffers);
    }
    Ok(rest)
}

/// How many bytes of a header its digest covers.
fn undigested_len(schema: &Schema) -> usize
    ensures value { result ≡ undigested_len schema.now }
    ensures few { result ≤ 117 }
{
    BESIDES_LEN + schema_len(schema) as usize
}

/// The size in bytes of a file's header, after which its records begin.
pub fn header_len(schema: &Schema) -> usize
    ensures value { result ≡ header_len schema.now }
    ensures few { result ≤ 125 }
{
    undigested_len(schema) + DIGEST_LEN
}

/// The header at the beginning of the bytes, and what follows it.
#[tactic(auto, unfolding(crate::specs::Header::header_at))]
fn header_of<'a>(bytes: &'a [u8], schema: &Schema) -> Result<(Cursor, &'a [u8]), JournalFault>
    ensures { Finds (λ x. (x.0, x.1.now)) result (header_at schema.now bytes.now) }
{
    let rest = after_start(bytes)?;
    let rest = after_schema(rest, schema)?;
    let (cursor, rest) = cursor_at(rest)?;
    let (check, rest) = bytes_at(rest, DIGEST_LEN)?;
    let digested = undigested_len(schema).min(bytes.len());
    let digest = cut_digest(&bytes[..digested]);
    if check != digest.as_slice() {
        return Err(JournalFault::BadDigest);
    }
    Ok((cursor, rest))
}

/// Reads a header and nothing beyond it, and returns the place in the journal at which the file
/// begins.
///
/// Refused as the first fault from left to right: `Short` if the bytes end before a field does;
/// `BadMagic`; `BadVersion`; `BadDecimals`; `SchemaDiffers`, also for another length; `BadDigest`.
/// `ReadFailed` comes if the reader fails. Takes as much memory as the header has bytes.
pub fn header_from<R: Read>(
    alloc: Global,
    input: &mut Counted<R>,
    schema: &Schema,
) -> Result<Cursor, JournalFault>
    ensures read { ReadsHeader schema.now (R.remaining (inner_of input.old))
        (R.remaining (inner_of input.new)) result }
    ensures prefix { ReadsSome R.remaining input.old input.new }
    ensures failures_never_fall { KeepsFailures input.old input.new }
{
    let bytes = bytes_from(alloc, input, header_len(schema))?;
    match header_of(bytes.as_slice(), schema) {
        Ok((cursor, _)) => Ok(cursor),
        Err(fault) => Err(fault),
    }
}
