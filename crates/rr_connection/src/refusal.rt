//! Why a connection's requests are refused.

ghost use Rattle.std.specs.Prelude.{◌≡◌};
ghost use Rattle.rr_connection.specs.Refused.{refusal_text, text_of_status};

use http1::ReadError;

/// Why nothing more is read from a connection.
#[derive(Clone, Copy, Debug, PartialEq, Eq)]
pub enum Refusal {
    /// What was sent isn't a request, or its head is too long.
    Malformed(ReadError),
    /// The body is longer than allowed.
    BodyTooLong,
    /// The body has a transfer coding other than `chunked`.
    UnknownCoding,
    /// The input ended within a request.
    CutShort,
    /// Memory ran out.
    Memory,
}

const BAD_REQUEST: &[u8] =
    b"HTTP/1.1 400 Bad Request\r\nconnection: close\r\ncontent-length: 0\r\n\r\n";

const CONTENT_TOO_LARGE: &[u8] =
    b"HTTP/1.1 413 Content Too Large\r\nconnection: close\r\ncontent-length: 0\r\n\r\n";

const URI_TOO_LONG: &[u8] =
    b"HTTP/1.1 414 URI Too Long\r\nconnection: close\r\ncontent-length: 0\r\n\r\n";

const HEAD_TOO_LARGE: &[u8] =
    b"HTTP/1.1 431 Request Header Fields Too Large\r\nconnection: close\r\ncontent-length: 0\r\n\r\n";

const NOT_IMPLEMENTED: &[u8] =
    b"HTTP/1.1 501 Not Implemented\r\nconnection: close\r\ncontent-length: 0\r\n\r\n";

impl Refusal {
    /// The response that says so, after which the connection ends; nothing if memory ran out.
    pub fn text(self) -> &'static [u8]
        ensures { result.now ≡ refusal_text self }
    {
        match self {
            Refusal::Malformed(error) => text_of_status(error.status()),
            Refusal::BodyTooLong => CONTENT_TOO_LARGE,
            Refusal::UnknownCoding => NOT_IMPLEMENTED,
            Refusal::CutShort => BAD_REQUEST,
            Refusal::Memory => b"",
        }
    }
}

/// The response to what can't be read, by its status.
fn text_of_status(status: u16) -> &'static [u8]
    ensures { result.now ≡ text_of_status status }
{
    match status {
        414 => URI_TOO_LONG,
        431 => HEAD_TOO_LARGE,
        _ => BAD_REQUEST,
    }
}
