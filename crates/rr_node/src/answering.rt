//! The answer to a line of a fetch connection.

ghost use Rattle.std.specs.Prelude.{◌≡◌, Option, Ok, IfOk, option_map};
ghost use Rattle.rr_text.specs.Results.{GivesUnless};
ghost use Rattle.rr_feed.specs.Feed.{HandsOut};
ghost use Rattle.rr_feed.specs.Items.{Item, item_view};
ghost use Rattle.rr_fetch.specs.Requests.{request_view, IsFetchable};
ghost use Rattle.rr_node.specs.Answering.{Next};
ghost use Rattle.rr_node.specs.Fetches.{after_fetch, by_name, error_text, request_in, sight, AnswersItem, AnswersRequest};

use rr_archive::Cells;
use rr_desk::{FetchFault, Gate, Reader};
use rr_feed::{Feed, FeedLine, LINE_TOO_LONG};
use rr_fetch::{Request, RequestFault, parse_request};
use rr_schema::Schema;
use rr_text::bytes::{LINE_FEED, SPACE};
use rr_text::text::cut;
use std::alloc::{AllocError, Global};

/// What follows the word `fetch` and a space, if a line begins with them.
fn after_fetch(line: &[u8]) -> Option<&[u8]>
    ensures { option_map (λ words. words.now) result ≡ after_fetch line.now }
{
    let (word, rest) = cut(SPACE, line)?;
    (word == b"fetch".as_slice()).then_some(rest)
}

/// The request of a line `fetch CF RESOLUTION START END KEY`.
#[tactic(auto, unfolding(crate::specs::Fetches::request_in))]
fn request_in(alloc: Global, line: &[u8], schema: &Schema) -> Result<Request, RequestFault>
    ensures value { GivesUnless RequestFault.Memory request_view result
        (request_in schema.now line.now) }
    ensures fetchable { IfOk result (λ q. IsFetchable schema.now (request_view q)) }
{
    let words = after_fetch(line).ok_or(RequestFault::BadCommand)?;
    parse_request(alloc, words, schema)
}

/// The refusal with this name.
fn error_text(alloc: Global, name: &str) -> Result<Vec<u8>, AllocError>
    ensures { IfOk result (λ refusal. refusal.items ≡ error_text name.now) }
{
    let mut refusal = Vec::from_slice(alloc, b"error ")?;
    refusal.extend_from_slice(name.as_bytes())?;
    refusal.push(LINE_FEED)?;
    Ok(refusal)
}

/// The answer to a request through a gate.
fn answer_request<A: Cells, G: Gate>(
    alloc: Global,
    request: &Request,
    reader: &mut Reader<A>,
    gate: &mut G,
) -> Result<Vec<u8>, AllocError>
    requires { IsFetchable reader.old.schema (request_view request.now) }
    ensures { AnswersRequest (λ text. text.items) (Ok (request_view request.now))
        (sight reader.old (G.calls gate.old)) (sight reader.new (G.calls gate.new)) result }
{
    match reader.fetch_through(alloc, request, gate) {
        Ok(text) => Ok(text),
        Err(FetchFault::GateShut) => error_text(alloc, FetchFault::GateShut.name()),
        Err(FetchFault::Memory) => Err(AllocError),
    }
}

/// The answer to a line of a fetch connection, or its refusal, without the empty line that follows
/// it there. The cost is that of the fetch.
pub fn answer_line<A: Cells, G: Gate>(
    alloc: Global,
    line: &[u8],
    reader: &mut Reader<A>,
    gate: &mut G,
) -> Result<Vec<u8>, AllocError>
    ensures { AnswersRequest (λ text. text.items) (by_name (request_in reader.old.schema line.now))
        (sight reader.old (G.calls gate.old)) (sight reader.new (G.calls gate.new)) result }
{
    match request_in(alloc, line, reader.schema()) {
        Ok(request) => answer_request(alloc, &request, reader, gate),
        Err(RequestFault::Memory) => Err(AllocError),
        Err(fault) => error_text(alloc, fault.name()),
    }
}

/// The answer to an item, followed by an empty line.
fn answer_item<A: Cells, G: Gate>(
    alloc: Global,
    item: FeedLine<'_>,
    reader: &mut Reader<A>,
    gate: &mut G,
) -> Result<Vec<u8>, AllocError>
    ensures { AnswersItem (λ text. text.items) (item_view item.entry)
        (sight reader.old (G.calls gate.old)) (sight reader.new (G.calls gate.new)) result }
{
    let mut text = match item {
        FeedLine::Line(line) => answer_line(alloc, line, reader, gate)?,
        FeedLine::TooLong => error_text(alloc, LINE_TOO_LONG)?,
    };
    text.push(LINE_FEED)?;
    Ok(text)
}

/// The answer to the next item of a feed, if it can be handed out.
pub(crate) fn next_answer<A: Cells, G: Gate>(
    alloc: Global,
    feed: &mut Feed,
    reader: &mut Reader<A>,
    gate: &mut G,
) -> Result<Option<Vec<u8>>, AllocError>
    ensures { (item : Option Item) × HandsOut feed.old item feed.new
        × Next (λ text. text.items) item
        (sight reader.old (G.calls gate.old)) (sight reader.new (G.calls gate.new)) result }
{
    match feed.next_line() {
        Some(item) => Ok(Some(answer_item(alloc, item, reader, gate)?)),
        None => Ok(None),
    }
}
