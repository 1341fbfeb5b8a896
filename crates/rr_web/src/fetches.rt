//! The fetch that a query asks for, and its reply.

ghost use Rattle.std.specs.Prelude.{◌≡◌, IfOk, codes, option_map};
ghost use Rattle.std.specs.Fmt.{signed_decimal};
ghost use Rattle.rr_text.specs.Results.{GivesUnless};
ghost use Rattle.rr_text.specs.Text.{number_at};
ghost use Rattle.rr_fetch.specs.Requests.{request_view, IsFetchable};
ghost use Rattle.rr_fetch.specs.Words.{parts};
ghost use Rattle.rr_desk.specs.ReaderState.{AnswersSeen, cells_seen};
ghost use Rattle.rr_fetch.specs.Answers.{cells_text};
ghost use Rattle.rr_web.specs.Answers.{records_reply};
ghost use Rattle.rr_web.specs.Fetches.{asked_in, back_to, end_by, reply_by, request_in, start_by, words_in};
ghost use Rattle.rr_web.specs.Fetches.{together, words_view};
ghost use Rattle.rr_web.specs.Query.{parameter_of};
ghost use Rattle.rr_web.specs.Reply.{reply_view};

use crate::answers::{Form, form_in, records_reply, refusal_reply};
use crate::faults::fault_in;
use crate::query::parameter;
use crate::reply::Reply;
use itoa::Buffer;
use rr_archive::Cells;
use rr_desk::Reader;
use rr_fetch::{Request, RequestFault, RequestWords, read_request};
use rr_schema::Schema;
use rr_text::text::number;
use std::alloc::{AllocError, Global};

/// The words of a request, each the value of a parameter.
#[derive(Drop)]
struct Words {
    function: Vec<u8>,
    resolution: Vec<u8>,
    start: Vec<u8>,
    end: Vec<u8>,
    key: Vec<u8>,
}

impl Words {
    /// The words, as they are read.
    fn lend(&self) -> RequestWords<'_>
        ensures { parts result ≡ words_view self.now }
    {
        RequestWords::new(
            &self.function,
            &self.resolution,
            &self.start,
            &self.end,
            &self.key,
        )
    }
}

/// The words of a request, if none is missing.
fn together(
    function: Option<Vec<u8>>,
    resolution: Option<Vec<u8>>,
    start: Option<Vec<u8>>,
    end: Option<Vec<u8>>,
    key: Option<Vec<u8>>,
) -> Option<Words>
    ensures { option_map words_view result
        ≡ together (option_map (λ text. text.items) function)
        (option_map (λ text. text.items) resolution) (option_map (λ text. text.items) start)
        (option_map (λ text. text.items) end) (option_map (λ text. text.items) key) }
{
    let (Some(function), Some(resolution)) = (function, resolution) else {
        return None;
    };
    let (Some(start), Some(end), Some(key)) = (start, end, key) else {
        return None;
    };
    Some(Words {
        function,
        resolution,
        start,
        end,
        key,
    })
}

/// A second in decimal.
fn decimal(alloc: Global, second: i64) -> Result<Vec<u8>, AllocError>
    ensures { IfOk result (λ text. text.items ≡ signed_decimal second) }
{
    let mut buffer = Buffer::new();
    Vec::from_slice(alloc, buffer.format(second).as_bytes())
}

/// The second that a text of `last` goes back to.
fn back_to(alloc: Global, end: i64, text: Vec<u8>) -> Result<Vec<u8>, AllocError>
    ensures { IfOk result (λ second. second.items ≡ back_to end text.items (number_at text.items)) }
{
    match number(&text) {
        Some(seconds) => decimal(alloc, end.saturating_sub_unsigned(seconds)),
        None => Ok(text),
    }
}

/// The start that a query names, if it names one.
fn start(alloc: Global, query: &[u8], now: i64) -> Result<Option<Vec<u8>>, AllocError>
    ensures { IfOk result (λ text. option_map (λ text. text.items) text
        ≡ start_by now (parameter_of query.now (codes "last"))
        (parameter_of query.now (codes "start"))) }
{
    match parameter(alloc, query, b"last")? {
        Some(text) => Ok(Some(back_to(alloc, now, text)?)),
        None => parameter(alloc, query, b"start"),
    }
}

/// The end that a query names, if it names one.
fn end(alloc: Global, query: &[u8], now: i64) -> Result<Option<Vec<u8>>, AllocError>
    ensures { IfOk result (λ text. option_map (λ text. text.items) text
        ≡ end_by now (parameter_of query.now (codes "last"))
        (parameter_of query.now (codes "end"))) }
{
    match parameter(alloc, query, b"last")? {
        Some(_) => Ok(Some(decimal(alloc, now)?)),
        None => parameter(alloc, query, b"end"),
    }
}

/// The words of the request that a query makes by its parameters `cf`, `resolution`, `start`, `end`
/// and `key`, if none is missing. With `last` the range is that many seconds before the second
/// `now`, whatever `start` and `end` say.
fn words_in(alloc: Global, query: &[u8], now: i64) -> Result<Option<Words>, AllocError>
    ensures { IfOk result (λ words. option_map words_view words ≡ words_in query.now now) }
{
    let function = parameter(alloc, query, b"cf")?;
    let resolution = parameter(alloc, query, b"resolution")?;
    let start = start(alloc, query, now)?;
    let end = end(alloc, query, now)?;
    let key = parameter(alloc, query, b"key")?;
    Ok(together(function, resolution, start, end, key))
}

/// The request of a query.
pub(crate) fn request_in(
    alloc: Global,
    query: &[u8],
    now: i64,
    schema: &Schema,
) -> Result<Request, RequestFault>
    ensures value { GivesUnless RequestFault.Memory request_view result
        (request_in schema.now query.now now) }
    ensures fetchable { IfOk result (λ q. IsFetchable schema.now (request_view q)) }
{
    match words_in(alloc, query, now) {
        Ok(Some(words)) => read_request(alloc, &words.lend(), schema),
        Ok(None) => Err(RequestFault::BadCommand),
        Err(_) => Err(RequestFault::Memory),
    }
}

/// The rows of a request, in a form.
pub(crate) fn rows_reply<A: Cells>(
    alloc: Global,
    form: Form,
    request: &Request,
    reader: &mut Reader<A>,
) -> Result<Reply, AllocError>
    requires { IsFetchable reader.old.schema (request_view request.now) }
    ensures { AnswersSeen reader.old reader.new (IfOk result (λ reply. reply_view reply
        ≡ records_reply form request.now.key
        (cells_text reader.new.schema (cells_seen reader.new) (request_view request.now)))) }
{
    let records = reader.fetch(alloc, request)?;
    records_reply(alloc, form, request.key.text(), records)
}

/// The reply to the fetch that a query asks for at the second `now`: the rows of its request, in
/// the form that it names, after the operations that the reader has seen when the call returns; or
/// the first of these refusals to apply, with what helps behind its name: `BadFormat`, for an
/// unknown form; `BadCommand`, for a missing parameter; and those of [`read_request`]. The cost is that of [`Reader::fetch`], plus
/// one linear in the query.
pub(crate) fn fetch_reply<A: Cells>(
    alloc: Global,
    query: &[u8],
    now: i64,
    reader: &mut Reader<A>,
) -> Result<Reply, AllocError>
    ensures { AnswersSeen reader.old reader.new (IfOk result (λ reply. reply_view reply
        ≡ reply_by reader.new.schema (cells_seen reader.new)
        (asked_in reader.old.schema query.now now))) }
{
    let Some(form) = form_in(alloc, query)? else {
        return refusal_reply(alloc, "BadFormat: format must be csv or json");
    };
    match request_in(alloc, query, now, reader.schema()) {
        Ok(request) => rows_reply(alloc, form, &request, reader),
        Err(RequestFault::Memory) => Err(AllocError),
        Err(fault) => refusal_reply(alloc, fault_in(alloc, query, fault)?),
    }
}
