//! The rows of a fetch as replies, and refusals of queries.

ghost use Rattle.std.specs.Prelude.{◌≡◌, IfOk};
ghost use Rattle.rr_web.specs.Answers.{form_in, form_of, records_reply, refusal_text};
ghost use Rattle.rr_web.specs.Reply.{reply_of, reply_view};

use crate::query::parameter;
use crate::reply::{Kind, Reply, Status};
use crate::rows::fetch_json;
use std::alloc::{AllocError, Global};

/// The form in which a fetch is answered.
#[derive(Clone, Copy, Debug, PartialEq, Eq)]
pub(crate) enum Form {
    /// CSV records, as on the fetch port.
    Csv,
    /// JSON: the key, and its rows.
    Json,
}

/// The form of this name.
fn form_of(name: &[u8]) -> Option<Form>
    ensures { result ≡ form_of name.now }
{
    if name == b"csv".as_slice() {
        Some(Form::Csv)
    } else if name == b"json".as_slice() {
        Some(Form::Json)
    } else {
        None
    }
}

/// The form that a query names as its `format`: CSV if it names none, and none if there is no such
/// form. The cost is linear in the query.
pub(crate) fn form_in(alloc: Global, query: &[u8]) -> Result<Option<Form>, AllocError>
    ensures { IfOk result (λ form. form ≡ form_in query.now) }
{
    match parameter(alloc, query, b"format")? {
        Some(name) => Ok(form_of(&name)),
        None => Ok(Some(Form::Csv)),
    }
}

/// The records of a fetch of this key, in a form. The cost is linear in them.
pub(crate) fn records_reply(
    alloc: Global,
    form: Form,
    key: &[u8],
    records: Vec<u8>,
) -> Result<Reply, AllocError>
    ensures { IfOk result (λ reply. reply_view reply ≡ records_reply form key.now records.items) }
{
    match form {
        Form::Csv => Ok(Reply {
            status: Status::Ok,
            kind: Kind::Csv,
            text: records,
        }),
        Form::Json => Ok(Reply {
            status: Status::Ok,
            kind: Kind::Json,
            text: fetch_json(alloc, key, &records)?,
        }),
    }
}

/// The reply to a query that is refused: by the name of its fault as on the fetch port, and by what
/// helps the one who asked.
pub(crate) fn refusal_reply(alloc: Global, fault: &str) -> Result<Reply, AllocError>
    ensures { IfOk result (λ reply. reply_view reply
        ≡ reply_of Status.BadRequest Kind.Plain (refusal_text fault.now)) }
{
    let mut text = Vec::from_slice(alloc, b"error ")?;
    text.extend_from_slice(fault.as_bytes())?;
    text.push(b'\n')?;
    Ok(Reply {
        status: Status::BadRequest,
        kind: Kind::Plain,
        text,
    })
}
