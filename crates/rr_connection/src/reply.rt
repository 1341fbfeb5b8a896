//! Replies, before they become HTTP responses.

ghost use Rattle.std.specs.Prelude.{◌≡◌};
ghost use Rattle.rr_connection.specs.Answer.{reason_of};

/// The value of a field.
#[derive(Debug, Drop)]
pub enum Value {
    /// A constant of the program.
    Constant(&'static [u8]),
    /// Made for this reply.
    Made(Vec<u8>),
}

/// A field of the head of a response, such as its content type.
#[derive(Debug, Drop)]
pub struct Field {
    /// The name.
    pub name: &'static [u8],
    /// The value.
    pub value: Value,
}

/// The answer to a request.
#[derive(Debug, Drop)]
pub struct Reply {
    /// The status, at least 200.
    pub status: u16,
    /// The fields, except those for the body's length and the connection.
    pub fields: Vec<Field>,
    /// The body.
    pub body: Vec<u8>,
    /// Whether the connection is to end after it.
    pub closes: bool,
}

impl Value {
    ghost use Rattle.rr_connection.specs.Answer.{value_bytes};

    /// The bytes.
    pub fn as_slice(&self) -> &[u8]
        ensures { result.now ≡ value_bytes self.now }
    {
        match self {
            Value::Constant(text) => text,
            Value::Made(text) => text.as_slice(),
        }
    }
}

/// The reason phrase of a status (RFC 9110, section 15), or empty for one that no reply has.
pub(crate) fn reason_of(status: u16) -> &'static [u8]
    ensures { result.now ≡ reason_of status }
{
    match status {
        200 => b"OK",
        204 => b"No Content",
        400 => b"Bad Request",
        404 => b"Not Found",
        405 => b"Method Not Allowed",
        409 => b"Conflict",
        410 => b"Gone",
        415 => b"Unsupported Media Type",
        500 => b"Internal Server Error",
        501 => b"Not Implemented",
        503 => b"Service Unavailable",
        _ => b"",
    }
}
