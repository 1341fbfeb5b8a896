//! The replies to requests that read.

ghost use Rattle.std.specs.Prelude.{IfOk};
ghost use Rattle.rr_connection.specs.Requests.{request_view};
ghost use Rattle.rr_desk.specs.ReaderState.{AnswersSeen};
ghost use Rattle.rr_web.specs.Read.{IsReadReply};
ghost use Rattle.rr_web.specs.Reply.{lent_text, reply_view};

use crate::ask::{Ask, asked_by};
use crate::fetches::fetch_reply;
use crate::fixed::fixed_reply;
use crate::listing::series_reply;
use crate::reply::Reply;
use crate::target::target_parts;
use rr_archive::Cells;
use rr_connection::Request;
use rr_desk::Reader;
use std::alloc::{AllocError, Global};

/// The reply to any request that isn't a write, at the second `now`, by what the reader has seen
/// when the call returns: the rows of a fetch or the keys of series, or 400 with the name of why
/// the query is refused; the text of `metrics`; to a health check 200, or 503 with the `failure`
/// for which the node can acknowledge nothing now; 204 to a ping; the page and its files; or 404 or
/// 405. A write is refused with 405. The cost is linear in the query, plus that of the reply: of
/// [`Reader::fetch`] for a fetch, and of [`Reader::keys_after`] for the keys that are searched.
pub fn read_reply<A: Cells>(
    alloc: Global,
    request: &Request,
    now: i64,
    reader: &mut Reader<A>,
    metrics: &[u8],
    failure: Option<&[u8]>,
) -> Result<Reply, AllocError>
    ensures { AnswersSeen reader.old reader.new (IfOk result (λ reply.
        IsReadReply reader.old reader.new now metrics.now (lent_text failure.entry)
        (request_view request.now) (reply_view reply))) }
{
    let (path, query) = target_parts(&request.target);
    match asked_by(&request.method, path) {
        Ask::Fetch => fetch_reply(alloc, query, now, reader),
        Ask::Series => series_reply(alloc, query, reader),
        ask => fixed_reply(alloc, ask, metrics, failure),
    }
}
