//! Short answers, in place of those that aren't given.

use crate::item::Outcome;
use rr_connection::{Field, Reply, Value};
use std::alloc::{AllocError, Global};

/// Why nothing was done when a queue is behind.
pub(crate) const BEHIND: &[u8] = b"{\"error\":\"the node is behind: nothing was written\"}\n";

/// Sent in place of an answer for which there is no room.
const NO_ROOM: &[u8] = b"{\"error\":\"the node holds too many answers\"}\n";

/// The answer to a request for whose own answer there is no room: 503.
pub fn no_room_reply(alloc: Global) -> Result<Reply, AllocError> {
    excuse_reply(alloc, 503, NO_ROOM)
}

/// A short answer, in place of one that isn't given.
fn excuse_reply(alloc: Global, status: u16, text: &[u8]) -> Result<Reply, AllocError> {
    let mut fields = Vec::with_capacity(alloc, 2)?;
    fields.push(Field {
        name: b"content-type",
        value: Value::Constant(b"application/json"),
    })?;
    if status == 503 {
        fields.push(Field {
            name: b"retry-after",
            value: Value::Constant(b"1"),
        })?;
    }
    Ok(Reply {
        status,
        fields,
        body: Vec::from_slice(alloc, text)?,
        closes: false,
    })
}

/// The same as an outcome: the connection is closed if there is no memory for it.
pub(crate) fn excuse(alloc: Global, status: u16, text: &[u8]) -> Outcome {
    match excuse_reply(alloc, status, text) {
        Ok(reply) => Outcome::Reply(reply),
        Err(_) => Outcome::Nothing,
    }
}

/// What is answered in place of what doesn't fit: 503 if something was asked for; what was done
/// keeps its status.
pub(crate) fn no_room(alloc: Global, outcome: &Outcome) -> Outcome {
    let status = match outcome {
        Outcome::Reply(reply) if reply.status == 200 => 503,
        Outcome::Reply(reply) => reply.status,
        _ => return Outcome::Nothing,
    };
    excuse(alloc, status, NO_ROOM)
}
