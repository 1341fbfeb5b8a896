//! What a peer asks for of a journal or a checkpoint, and the answer.

ghost use Rattle.std.specs.Prelude.{◌≡◌, ◌++◌, ◌∷◌, [], IfOk, OnOk, codes, map, option_map};
ghost use Rattle.rr_connection.specs.Answer.{header_of, reply_view as response_view};
ghost use Rattle.rr_text.specs.Text.{number_at};
ghost use Rattle.rr_web.specs.Parts.{given_view, lent_place, number_in, part_fields, part_query_in, part_response};
ghost use Rattle.rr_web.specs.Parts.{place_fields, query_view, refused_text, status_of};
ghost use Rattle.rr_web.specs.Query.{parameter_of};

use crate::query::parameter;
use crate::samples::decimal;
use rr_connection::{Field, Reply as Response, Value};
use rr_text::text::number;
use std::alloc::{AllocError, Global};

/// What a peer asks for of a journal or a checkpoint, by the parameters of a query. Each may be
/// absent.
#[derive(Debug, Drop)]
pub struct PartQuery {
    /// `from`: the offset in bytes at which what is asked for begins.
    pub from: Option<u64>,
    /// `begins`: the offset of the checkpoint that is asked for.
    pub begins: Option<u64>,
    /// `id`: the id of the journal, in hexadecimal digits.
    pub id: Option<Vec<u8>>,
    /// `schema`: the bytes of the schema that the peer has, in hexadecimal digits.
    pub schema: Option<Vec<u8>>,
    /// `decimals`: how many decimals the values of the peer's cells have.
    pub decimals: Option<Vec<u8>>,
}

/// The number that a query names, if it names one; the outer option is none if that isn't a number
/// of 64 bits.
fn number_in(text: Option<Vec<u8>>) -> Option<Option<u64>>
    ensures { result ≡ number_in (option_map (λ text. text.items) text) }
{
    match text {
        None => Some(None),
        Some(text) => match number(&text) {
            Some(number) => Some(Some(number)),
            None => None,
        },
    }
}

/// What a query asks for, or none if it names an offset that isn't a number of 64 bits. The cost is
/// linear in the query.
pub fn part_query(alloc: Global, query: &[u8]) -> Result<Option<PartQuery>, AllocError>
    ensures { IfOk result (λ asked. option_map query_view asked ≡ part_query_in query.now) }
{
    let from = number_in(parameter(alloc, query, b"from")?);
    let begins = number_in(parameter(alloc, query, b"begins")?);
    let id = parameter(alloc, query, b"id")?;
    let schema = parameter(alloc, query, b"schema")?;
    let decimals = parameter(alloc, query, b"decimals")?;
    let (Some(from), Some(begins)) = (from, begins) else {
        return Ok(None);
    };
    Ok(Some(PartQuery {
        from,
        begins,
        id,
        schema,
        decimals,
    }))
}

/// What a peer is given.
#[derive(Debug, Drop)]
pub enum Given {
    /// These bytes.
    Bytes(Vec<u8>),
    /// No bytes yet.
    Nothing,
    /// There are no such bytes any more, or this is another journal.
    Gone,
    /// The peer has another schema, or values with another number of decimals.
    Differs,
    /// A refusal of what it asks, by this name.
    Refused(&'static str),
}

/// Where a journal is.
#[derive(Clone, Copy, Debug)]
pub struct JournalPlace<'a> {
    /// Its id, in hexadecimal digits.
    pub id: &'a [u8],
    /// The offset in bytes up to which it is synced.
    pub end: u64,
}

/// The status of what is given.
fn status_of(given: &Given) -> u16
    ensures { result ≡ status_of (given_view given.now) }
{
    match given {
        Given::Bytes(_) => 200,
        Given::Nothing => 204,
        Given::Refused(_) => 400,
        Given::Differs => 409,
        Given::Gone => 410,
    }
}

/// Adds a field with a copy of a value.
fn push_copied(
    alloc: Global,
    fields: &mut Vec<Field>,
    name: &'static [u8],
    value: &[u8],
) -> Result<(), AllocError>
    ensures { OnOk result (map header_of fields.new.items
        ≡ map header_of fields.old.items ++ (name.now, value.now) ∷ []) }
{
    fields.push(Field {
        name,
        value: Value::Made(Vec::from_slice(alloc, value)?),
    })?;
    Ok(())
}

/// Adds the fields that say where a journal is.
fn push_place(
    alloc: Global,
    fields: &mut Vec<Field>,
    place: &JournalPlace<'_>,
) -> Result<(), AllocError>
    ensures { OnOk result (map header_of fields.new.items
        ≡ map header_of fields.old.items ++ place_fields (lent_place place.now)) }
{
    push_copied(alloc, fields, b"rr-journal-id", place.id)?;
    let end = decimal(alloc, place.end)?;
    push_copied(alloc, fields, b"rr-journal-end", &end)
}

/// Adds the field of an answer with a body.
fn push_kind(fields: &mut Vec<Field>, media_type: &'static [u8]) -> Result<(), AllocError>
    ensures { OnOk result (map header_of fields.new.items ≡ map header_of fields.old.items
        ++ (codes "content-type", media_type.now) ∷ []) }
{
    fields.push(Field {
        name: b"content-type",
        value: Value::Constant(media_type),
    })?;
    Ok(())
}

/// The line of a refusal.
fn refused_text(alloc: Global, name: &str) -> Result<Vec<u8>, AllocError>
    ensures { IfOk result (λ text. text.items ≡ refused_text name.now) }
{
    let mut text = Vec::from_slice(alloc, b"error ")?;
    text.extend_from_slice(name.as_bytes())?;
    text.push(b'\n')?;
    Ok(text)
}

/// The answer to a peer: 200 and the bytes, 204, 410, 409 if its schema or its decimals differ, or
/// 400 with a name. Fields of the answer say where the journal is, if that is to be told.
pub fn part_response(
    alloc: Global,
    given: Given,
    place: Option<JournalPlace<'_>>,
) -> Result<Response, AllocError>
    ensures { IfOk result (λ response. response_view response
        ≡ part_response (given_view given) (option_map lent_place place.entry)) }
{
    let status = status_of(&given);
    let mut fields = Vec::new(alloc);
    if let Some(place) = &place {
        push_place(alloc, &mut fields, place)?;
    }
    let body = match given {
        Given::Bytes(bytes) => {
            push_kind(&mut fields, b"application/octet-stream")?;
            bytes
        }
        Given::Refused(name) => {
            push_kind(&mut fields, b"text/plain; charset=utf-8")?;
            refused_text(alloc, name)?
        }
        Given::Nothing | Given::Gone | Given::Differs => Vec::new(alloc),
    };
    Ok(Response {
        status,
        fields,
        body,
        closes: false,
    })
}
