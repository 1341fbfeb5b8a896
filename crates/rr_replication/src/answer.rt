//! What a peer answers.

ghost use Rattle.std.specs.Prelude.{All, length};
ghost use Rattle.httparse.specs.Spans.{IsHeaderWithin};

use hex::FromHex;
use httparse::spans::HeaderSpan;
use rr_journal::ID_LEN;
use rr_text::text::number;
use std::alloc::Global;

/// The field with the id of a journal, in hexadecimal digits.
pub const ID_FIELD: &[u8] = b"rr-journal-id";

/// The field with the offset in bytes up to which a journal is synced, in decimal digits.
pub const END_FIELD: &[u8] = b"rr-journal-end";

/// What a peer answers to a request.
#[derive(Debug, Drop)]
pub struct PeerAnswer {
    /// The status.
    pub status: u16,
    /// The id of the peer's journal, if the answer has it.
    pub id: Option<[u8; ID_LEN]>,
    /// The offset in bytes up to which that is synced, if the answer has it.
    pub end: Option<u64>,
    /// The body.
    pub body: Vec<u8>,
}

/// The value of the first field with this name in a head, ignoring case.
fn value_of<'a>(input: &'a [u8], headers: &[HeaderSpan], name: &[u8]) -> Option<&'a [u8]>
    requires { All (IsHeaderWithin (length input.now)) headers.now }
{
    for header in headers {
        if header.name.of(input).eq_ignore_ascii_case(name) {
            return Some(header.value.of(input));
        }
    }
    None
}

/// The id that a value gives in hexadecimal digits, if it gives one.
fn id_in(value: &[u8]) -> Option<[u8; ID_LEN]> {
    match <[u8; ID_LEN]>::from_hex(value) {
        Ok(id) => Some(id),
        Err(_) => None,
    }
}

impl PeerAnswer {
    /// The answer with this status and these fields of the input, before its body comes.
    pub(crate) fn begin(
        alloc: Global,
        input: &[u8],
        headers: &[HeaderSpan],
        status: u16,
    ) -> PeerAnswer
        requires { All (IsHeaderWithin (length input.now)) headers.now }
    {
        PeerAnswer {
            status,
            id: value_of(input, headers, ID_FIELD).and_then(id_in),
            end: value_of(input, headers, END_FIELD).and_then(number),
            body: Vec::new(alloc),
        }
    }
}
