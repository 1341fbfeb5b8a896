//! Requests that are refused whatever a node holds.

ghost use Rattle.std.specs.Prelude.{◌≡◌, IfOk, option_map};
ghost use Rattle.rr_connection.specs.Requests.{request_view};
ghost use Rattle.rr_line.specs.Precision.{precision_name};
ghost use Rattle.rr_web.specs.Query.{parameter_of};
ghost use Rattle.rr_web.specs.Refusals.{coding_refusal, error_reply, refusal_of, refused_lines, refused_write};
ghost use Rattle.rr_web.specs.Refusals.{is_other, precision_refusal, put_off_write};
ghost use Rattle.rr_web.specs.Reply.{reply_view};
ghost use Rattle.std.specs.Prelude.{codes};

use crate::ask::{Ask, asked_by};
use crate::precision::is_precision;
use crate::query::parameter;
use crate::reply::{Kind, Reply, Status};
use crate::target::target_parts;
use rr_connection::Request;
use rr_line::Precision;
use std::alloc::{AllocError, Global};

/// A refusal and its reason, as JSON. The reason has no quote, backslash or control character.
pub(crate) fn error_reply(alloc: Global, status: Status, why: &[u8]) -> Result<Reply, AllocError>
    ensures { IfOk result (λ reply. reply_view reply ≡ error_reply status why.now) }
{
    let mut text = Vec::from_slice(alloc, b"{\"error\":\"")?;
    text.extend_from_slice(why)?;
    text.extend_from_slice(b"\"}\n")?;
    Ok(Reply {
        status,
        kind: Kind::Json,
        text,
    })
}

/// The refusal of a request for another path, or by another method. A request that reads is told
/// that it is written by `POST`, and a write that it is read by `GET`.
pub(crate) fn refusal_of(alloc: Global, ask: Ask) -> Result<Reply, AllocError>
    ensures { IfOk result (λ reply. reply_view reply ≡ refusal_of ask) }
{
    match ask {
        Ask::Nothing | Ask::Journal | Ask::Checkpoint => {
            error_reply(alloc, Status::NotFound, b"there is no such path")
        }
        Ask::OnlyGet | Ask::Write => error_reply(alloc, Status::OnlyGet, b"it is read by GET"),
        _ => error_reply(alloc, Status::OnlyPost, b"it is written by POST"),
    }
}

/// Whether a write names a precision other than this one.
fn is_other(named: &Option<Vec<u8>>, precision: Precision) -> bool
    ensures { result ≡ is_other precision (option_map (λ text. text.items) named.now) }
{
    match named {
        Some(named) => !is_precision(named, precision),
        None => false,
    }
}

/// The refusal of a write that names a precision other than this one.
fn refuse_precision(alloc: Global, precision: Precision) -> Result<Reply, AllocError>
    ensures { IfOk result (λ reply. reply_view reply ≡ precision_refusal precision) }
{
    let mut why = Vec::from_slice(alloc, b"the precision of this node is ")?;
    why.extend_from_slice(precision.name().as_bytes())?;
    error_reply(alloc, Status::BadRequest, &why)
}

/// The refusal of lines for the coding of their body or for their query, if they are refused.
fn refused_lines(
    alloc: Global,
    is_encoded: bool,
    query: &[u8],
    precision: Precision,
) -> Result<Option<Reply>, AllocError>
    ensures { IfOk result (λ refusal. option_map reply_view refusal
        ≡ refused_lines precision is_encoded (parameter_of query.now (codes "precision"))) }
{
    if is_encoded {
        let why = b"a body with a content-encoding is not read";
        return Ok(Some(error_reply(alloc, Status::UnknownCoding, why)?));
    }
    let named = parameter(alloc, query, b"precision")?;
    if is_other(&named, precision) {
        return Ok(Some(refuse_precision(alloc, precision)?));
    }
    Ok(None)
}

/// The reply to a request whose lines are not to be taken, before any is read. None if they are to
/// be taken: the request is a `POST` to where lines are taken, its body has no content coding, and
/// it names no precision other than this one, the node's. The first of these to apply is given: 404
/// or 405, 415, 400. The cost is linear in the target.
pub fn refused_write(
    alloc: Global,
    request: &Request,
    precision: Precision,
) -> Result<Option<Reply>, AllocError>
    ensures { IfOk result (λ refusal. option_map reply_view refusal
        ≡ refused_write precision (request_view request.now)) }
{
    let (path, query) = target_parts(&request.target);
    match asked_by(&request.method, path) {
        Ask::Write => refused_lines(alloc, request.is_encoded, query, precision),
        ask => Ok(Some(refusal_of(alloc, ask)?)),
    }
}

/// The reply to a write while no origin can be taken: no line is, and the write may be sent again.
pub fn put_off_write(alloc: Global) -> Result<Reply, AllocError>
    ensures { IfOk result (λ reply. reply_view reply ≡ put_off_write) }
{
    let why = b"the origin can't be recorded: nothing is taken";
    error_reply(alloc, Status::Busy, why)
}
