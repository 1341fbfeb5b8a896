//! The replies that need no reader.

ghost use Rattle.std.specs.Prelude.{◌≡◌, IfOk};
ghost use Rattle.rr_web.specs.Fixed.{IsFixedReply, failing_reply, health_reply};
ghost use Rattle.rr_web.specs.Reply.{lent_text, reply_of, reply_view};

use crate::ask::Ask;
use crate::json::push_quoted;
use crate::refusals::refusal_of;
use crate::reply::{Kind, Reply, Status};
use crate::texts::page_reply;
use std::alloc::{AllocError, Global};

/// A reply with a text of this kind.
fn reply_of(alloc: Global, status: Status, kind: Kind, text: &[u8]) -> Result<Reply, AllocError>
    ensures { IfOk result (λ reply. reply_view reply ≡ reply_of status kind text.now) }
{
    Ok(Reply {
        status,
        kind,
        text: Vec::from_slice(alloc, text)?,
    })
}

/// Why a node can acknowledge nothing, as JSON.
fn failing_reply(alloc: Global, why: &[u8]) -> Result<Reply, AllocError>
    ensures { IfOk result (λ reply. reply_view reply ≡ failing_reply why.now) }
{
    let mut text = Vec::from_slice(alloc, b"{\"name\":\"rr\",\"status\":\"fail\",\"message\":")?;
    push_quoted(alloc, &mut text, why)?;
    text.extend_from_slice(b"}\n")?;
    Ok(Reply {
        status: Status::Busy,
        kind: Kind::Json,
        text,
    })
}

/// Whether a node can acknowledge what it is sent, in the form of InfluxDB.
fn health_reply(alloc: Global, failure: Option<&[u8]>) -> Result<Reply, AllocError>
    ensures { IfOk result (λ reply. reply_view reply ≡ health_reply (lent_text failure.entry)) }
{
    match failure {
        Some(why) => failing_reply(alloc, why),
        None => reply_of(
            alloc,
            Status::Ok,
            Kind::Json,
            b"{\"name\":\"rr\",\"status\":\"pass\"}\n",
        ),
    }
}

/// The reply to a request that needs no reader.
pub(crate) fn fixed_reply(
    alloc: Global,
    ask: Ask,
    metrics: &[u8],
    failure: Option<&[u8]>,
) -> Result<Reply, AllocError>
    ensures { IfOk result (λ reply.
        IsFixedReply metrics.now (lent_text failure.entry) ask (reply_view reply)) }
{
    match ask {
        Ask::Metrics => reply_of(alloc, Status::Ok, Kind::Metrics, metrics),
        Ask::Health => health_reply(alloc, failure),
        Ask::Ping => reply_of(alloc, Status::NoContent, Kind::Plain, &[]),
        Ask::Page | Ask::Script | Ask::Style => page_reply(alloc, ask),
        _ => refusal_of(alloc, ask),
    }
}
