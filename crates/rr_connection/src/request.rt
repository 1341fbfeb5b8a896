//! Requests.

ghost use Rattle.std.specs.Prelude.{◌≡◌, IfOk};
ghost use Rattle.httparse.specs.Spans.{IsRequestWithin};
ghost use Rattle.rr_connection.specs.Requests.{begun_at, request_view};

use crate::coding::has_coding;
use httparse::spans::{HeaderSpan, RequestSpans};
use std::alloc::{AllocError, Global};

/// A whole request.
#[derive(Debug, Drop)]
pub struct Request {
    /// Its method, as it was sent.
    pub method: Vec<u8>,
    /// Its target: usually a path and a query.
    pub target: Vec<u8>,
    /// Whether its body has a content coding (RFC 9110, section 8.4) other than `identity`. No
    /// coding is undone here.
    pub is_encoded: bool,
    /// Its body, without the framing of chunks.
    pub body: Vec<u8>,
}

impl Request {
    /// A request whose head is in the input, with no byte of its body yet.
    pub(crate) fn begin(
        alloc: Global,
        input: &[u8],
        headers: &[HeaderSpan],
        head: &RequestSpans,
    ) -> Result<Request, AllocError>
        requires { IsRequestWithin input.now headers.now head.now }
        ensures { IfOk result (λ r. request_view r ≡ begun_at input.now headers.now head.now) }
    {
        Ok(Request {
            method: Vec::from_slice(alloc, head.method.of(input))?,
            target: Vec::from_slice(alloc, head.path.of(input))?,
            is_encoded: has_coding(input, &headers[..head.headers]),
            body: Vec::new(alloc),
        })
    }
}
