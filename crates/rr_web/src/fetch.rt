//! A fetch that can be answered, and how much memory its answer takes, before it is made.

ghost use Rattle.std.specs.Prelude.{◌≡◌, ◌^◌, ◌-◌, min, IfOk, IfSome, Ok, Result, option_map};
ghost use Rattle.rr_text.specs.Results.{GivesUnless};
ghost use Rattle.rr_fetch.specs.declared.fault.RequestFault.{RequestFault};
ghost use Rattle.rr_cells.specs.FetchText.{Request as Asks};
ghost use Rattle.rr_fetch.specs.Requests.{request_view, IsFetchable};
ghost use Rattle.rr_connection.specs.Requests.{request_view as asked_view};
ghost use Rattle.rr_desk.specs.ReaderState.{AnswersSeen, cells_seen};
ghost use Rattle.rr_fetch.specs.Answers.{cells_text};
ghost use Rattle.rr_web.specs.Answers.{records_reply};
ghost use Rattle.rr_web.specs.Fetch.{extra, fetch_asked, fetch_in, fetch_view, found, room_of};
ghost use Rattle.rr_web.specs.Fetches.{request_in};
ghost use Rattle.rr_web.specs.Reply.{reply_view};

use crate::answers::{Form, form_in};
use crate::ask::{Ask, asked_by};
use crate::fetches::{request_in, rows_reply};
use crate::reply::Reply;
use crate::target::target_parts;
use rr_archive::Cells;
use rr_connection::Request as Asked;
use rr_desk::Reader;
use rr_fetch::{Request, RequestFault, prefix_of};
use rr_schema::Schema;
use std::alloc::{AllocError, Global};

/// The most bytes of a record behind its key and the comma: two numbers, a comma and a line feed.
const REST: usize = 42;

const _: () = prove!(REST == 42);

/// The most bytes that a row takes besides while it is made into JSON: 32 for where its record is,
/// 88 in a text that doubles as it grows, and 44 in the whole text.
const JSON_ROW: usize = 164;

const _: () = prove!(JSON_ROW == 164);

/// A fetch that can be answered, and the form that it asks for.
#[derive(Debug, Drop)]
pub struct Fetch {
    form: Form,
    request: Request,
}

/// The most bytes that a row takes besides, in a form.
fn extra(form: Form) -> usize
    ensures { result ≡ extra form }
{
    match form {
        Form::Csv => 0,
        Form::Json => JSON_ROW,
    }
}

impl Fetch {
    /// How many bytes of memory the answer takes while it is made, at most, but for its head and a
    /// few small parts. The cost is linear in the key.
    pub fn room(&self, alloc: Global) -> Result<usize, AllocError>
        ensures { IfOk result (λ room. room ≡ min (room_of (fetch_view self.now)) (2 ^ 64 - 1)) }
    {
        let prefix = prefix_of(alloc, self.request.key.text())?;
        let row = prefix.len() + (REST + extra(self.form));
        Ok(row.saturating_mul(self.request.rows as usize))
    }

    /// The reply: the rows, after the operations that the reader has seen when the call returns.
    /// The cost is that of [`Reader::fetch`].
    pub fn reply<A: Cells>(
        &self,
        alloc: Global,
        reader: &mut Reader<A>,
    ) -> Result<Reply, AllocError>
        requires { IsFetchable reader.old.schema (request_view self.now.request) }
        ensures { AnswersSeen reader.old reader.new (IfOk result (λ reply. reply_view reply
            ≡ records_reply self.now.form self.now.request.key (cells_text reader.new.schema
            (cells_seen reader.new) (request_view self.now.request)))) }
    {
        rows_reply(alloc, self.form, &self.request, reader)
    }
}

/// A request, unless it is refused.
fn unless_refused(request: Result<Request, RequestFault>) -> Result<Option<Request>, AllocError>
    ensures value { (answer : Result Asks RequestFault)
        → GivesUnless RequestFault.Memory request_view request answer
        → IfOk result (λ kept. option_map request_view kept ≡ found answer) }
    ensures same { IfOk result (λ kept. IfSome kept (λ q. request ≡ Ok q)) }
{
    match request {
        Ok(request) => Ok(Some(request)),
        Err(RequestFault::Memory) => Err(AllocError),
        Err(_) => Ok(None),
    }
}

/// The request of a query at the second `now`, unless it is refused.
fn request_unless_refused(
    alloc: Global,
    query: &[u8],
    now: i64,
    schema: &Schema,
) -> Result<Option<Request>, AllocError>
    ensures value { IfOk result (λ kept. option_map request_view kept
        ≡ found (request_in schema.now query.now now)) }
    ensures fetchable { IfOk result (λ kept. IfSome kept (λ q.
        IsFetchable schema.now (request_view q))) }
{
    unless_refused(request_in(alloc, query, now, schema))
}

/// The fetch that a query asks for at the second `now`, if it can be answered.
fn fetch_in(
    alloc: Global,
    query: &[u8],
    now: i64,
    schema: &Schema,
) -> Result<Option<Fetch>, AllocError>
    ensures value { IfOk result (λ fetch. option_map fetch_view fetch
        ≡ fetch_in schema.now query.now now) }
    ensures fetchable { IfOk result (λ found. IfSome found (λ fetch.
        IsFetchable schema.now (request_view fetch.request))) }
{
    let Some(form) = form_in(alloc, query)? else {
        return Ok(None);
    };
    let Some(request) = request_unless_refused(alloc, query, now, schema)? else {
        return Ok(None);
    };
    Ok(Some(Fetch { form, request }))
}

/// The fetch that a request asks for at the second `now`, if it asks for one that can be answered;
/// [`Fetch::reply`] is then what [`crate::read_reply`] would answer. The cost is linear in the
/// target.
pub fn fetch_of(
    alloc: Global,
    request: &Asked,
    now: i64,
    schema: &Schema,
) -> Result<Option<Fetch>, AllocError>
    ensures value { IfOk result (λ fetch. option_map fetch_view fetch
        ≡ fetch_asked schema.now now (asked_view request.now)) }
    ensures fetchable { IfOk result (λ found. IfSome found (λ fetch.
        IsFetchable schema.now (request_view fetch.request))) }
{
    let (path, query) = target_parts(&request.target);
    match asked_by(&request.method, path) {
        Ask::Fetch => fetch_in(alloc, query, now, schema),
        _ => Ok(None),
    }
}
