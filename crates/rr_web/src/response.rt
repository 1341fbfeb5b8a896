//! Replies as HTTP responses.

ghost use Rattle.std.specs.Prelude.{◌≡◌, ◌∷◌, ◌++◌, [], IfOk, OnOk, map};
ghost use Rattle.rr_connection.specs.Answer.{header_of, reply_view as response_view};
ghost use Rattle.rr_web.specs.Reply.{reply_view};
ghost use Rattle.rr_web.specs.Response.{body_of, code_of, fields_of, media_type, policy_fields, response_of};
ghost use Rattle.rr_web.specs.Response.{status_fields, text_fields};

use crate::reply::{Kind, Reply, Status};
use rr_connection::{Field, Reply as Response, Value};
use std::alloc::{AllocError, Global};

/// What the page may load: scripts, styles and answers of its own node.
const POLICY: &[u8] = b"default-src 'none'; script-src 'self'; style-src 'self'; \
    connect-src 'self'; base-uri 'none'; form-action 'none'; frame-ancestors 'none'";

/// The code of a status.
fn code_of(status: Status) -> u16
    ensures { result ≡ code_of status }
{
    match status {
        Status::Ok => 200,
        Status::NoContent => 204,
        Status::BadRequest => 400,
        Status::NotFound => 404,
        Status::OnlyPost | Status::OnlyGet => 405,
        Status::UnknownCoding => 415,
        Status::Failed => 500,
        Status::Busy => 503,
    }
}

/// The media type of a text.
fn media_type(kind: Kind) -> &'static [u8]
    ensures { result.now ≡ media_type kind }
{
    match kind {
        Kind::Csv => b"text/csv; charset=utf-8",
        Kind::Json => b"application/json",
        Kind::Plain => b"text/plain; charset=utf-8",
        Kind::Metrics => b"text/plain; version=0.0.4; charset=utf-8",
        Kind::Html => b"text/html; charset=utf-8",
        Kind::Script => b"text/javascript; charset=utf-8",
        Kind::Style => b"text/css; charset=utf-8",
    }
}

/// Adds a field.
fn push_field(
    fields: &mut Vec<Field>,
    name: &'static [u8],
    value: &'static [u8],
) -> Result<(), AllocError>
    ensures { OnOk result (map header_of fields.new.items
        ≡ map header_of fields.old.items ++ (name.now, value.now) ∷ []) }
{
    fields.push(Field {
        name,
        value: Value::Constant(value),
    })?;
    Ok(())
}

/// Adds the field that comes with a status, if there is one. Clients of InfluxDB show the product
/// as the version of the server: it isn't one of InfluxDB's.
fn push_for_status(
    fields: &mut Vec<Field>,
    status: Status,
    product: &'static [u8],
) -> Result<(), AllocError>
    ensures { OnOk result (map header_of fields.new.items
        ≡ map header_of fields.old.items ++ status_fields product.now status) }
{
    match status {
        Status::NoContent => push_field(fields, b"x-influxdb-version", product),
        Status::OnlyPost => push_field(fields, b"allow", b"POST"),
        Status::OnlyGet => push_field(fields, b"allow", b"GET, HEAD"),
        Status::UnknownCoding => push_field(fields, b"accept-encoding", b"identity"),
        Status::Busy => push_field(fields, b"retry-after", b"1"),
        _ => Ok(()),
    }
}

/// Adds the policy of a page.
fn push_policy(fields: &mut Vec<Field>, kind: Kind) -> Result<(), AllocError>
    ensures { OnOk result (map header_of fields.new.items
        ≡ map header_of fields.old.items ++ policy_fields kind) }
{
    match kind {
        Kind::Html => push_field(fields, b"content-security-policy", POLICY),
        _ => Ok(()),
    }
}

/// Adds the fields of a text: a browser must neither keep it nor guess its kind.
fn push_for_text(fields: &mut Vec<Field>, kind: Kind) -> Result<(), AllocError>
    ensures { OnOk result (map header_of fields.new.items
        ≡ map header_of fields.old.items ++ text_fields kind) }
{
    push_field(fields, b"content-type", media_type(kind))?;
    push_field(fields, b"x-content-type-options", b"nosniff")?;
    push_field(fields, b"cache-control", b"no-store")?;
    push_policy(fields, kind)
}

/// The fields of a response.
fn fields_of(
    alloc: Global,
    status: Status,
    kind: Kind,
    product: &'static [u8],
) -> Result<Vec<Field>, AllocError>
    ensures { IfOk result (λ fields. map header_of fields.items
        ≡ fields_of product.now status kind) }
{
    let mut fields = Vec::new(alloc);
    push_for_status(&mut fields, status, product)?;
    if status == Status::NoContent {
        return Ok(fields);
    }
    push_for_text(&mut fields, kind)?;
    Ok(fields)
}

/// The body of a response.
fn body_of(alloc: Global, status: Status, text: Vec<u8>) -> Vec<u8>
    ensures { result.items ≡ body_of status text.items }
{
    match status {
        Status::NoContent => Vec::new(alloc),
        _ => text,
    }
}

/// A reply as an HTTP response, after which its connection stays: its code, its fields and its
/// text. The response with 204 has no body and no kind, and names the product, such as `rr-2`.
pub fn response_of(
    alloc: Global,
    reply: Reply,
    product: &'static str,
) -> Result<Response, AllocError>
    ensures { IfOk result (λ response. response_view response
        ≡ response_of product.now (reply_view reply)) }
{
    let Reply { status, kind, text } = reply;
    Ok(Response {
        status: code_of(status),
        fields: fields_of(alloc, status, kind, product.as_bytes())?,
        body: body_of(alloc, status, text),
        closes: false,
    })
}
