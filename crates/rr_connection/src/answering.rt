//! The answer to a request.

ghost use Rattle.std.specs.Prelude.{◌≡◌, ◌++◌, [], IfErr, IfOk, OnOk, if◌then◌else◌, length, map, take};
ghost use Rattle.http1.specs.Head.{pairs};
ghost use Rattle.http1.specs.Conn.{data_text};
ghost use Rattle.http1.specs.Server.{writing};
ghost use Rattle.rr_connection.specs.Answer.{answered_by, body_written, header_of, headers_of, reply_view, response_to, size_of};

use crate::http::{HttpConnection, Phase};
use crate::reply::{Field, Reply, reason_of};
use http1::{BodySize, Header, WriteError};
use std::alloc::{AllocError, Global};

/// Why an answer isn't sent.
#[derive(Clone, Copy, Debug, PartialEq, Eq)]
pub enum AnswerFault {
    /// No request is out.
    NotAsked,
    /// The reply isn't an HTTP response, or memory ran out.
    Write(WriteError),
}

/// The fields of a response.
fn headers_of<'a>(
    alloc: Global,
    fields: &'a [Field],
    closes: bool,
) -> Result<Vec<Header<'a>>, AllocError>
    ensures { IfOk result (λ headers. pairs headers.items
        ≡ headers_of (map header_of fields.now) closes) }
{
    let mut headers = Vec::new(alloc);
    for field in fields {
        headers.push(Header {
            name: field.name,
            value: field.value.as_slice(),
        })?;
    }
    if closes {
        headers.push(Header {
            name: b"connection",
            value: b"close",
        })?;
    }
    Ok(headers)
}

/// The size of a body.
fn size_of(body: &[u8]) -> BodySize
    ensures { result ≡ size_of body.now }
{
    match body.len() {
        0 => BodySize::Empty,
        len => BodySize::Known(len as u64),
    }
}

impl HttpConnection {
    ghost use Rattle.rr_connection.specs.Answering.{Answers, FailsToAnswer};

    /// Appends the body of a response, unless it has none.
    fn write_body(&mut self, body: &[u8]) -> Result<(), WriteError>
        ensures text { OnOk result (self.new.unsent.items ≡ self.old.unsent.items
            ++ (if self.old.is_head then [] else data_text (writing self.old.server) body.now)) }
        ensures server { OnOk result
            (self.new.server ≡ body_written self.old.is_head self.old.server (body.now)) }
        ensures kept { take (length self.old.unsent.items) self.new.unsent.items
            ≡ self.old.unsent.items }
        ensures other { self.new
            ≡ record self.old { server = self.new.server; unsent = self.new.unsent } }
    {
        if self.is_head {
            return Ok(());
        }
        self.server.write_data(&mut self.unsent, body)
    }

    /// Appends a response.
    fn write(&mut self, reply: &Reply) -> Result<(), WriteError>
        ensures text { OnOk result (self.new.unsent.items ≡ self.old.unsent.items
            ++ response_to self.old.server self.old.is_head (reply_view reply.now)) }
        ensures server { OnOk result
            (self.new.server ≡ answered_by self.old.server self.old.is_head (reply_view reply.now)) }
        ensures kept { take (length self.old.unsent.items) self.new.unsent.items
            ≡ self.old.unsent.items }
        ensures other { self.new
            ≡ record self.old { server = self.new.server; unsent = self.new.unsent } }
    {
        let headers = headers_of(self.alloc, reply.fields.as_slice(), reply.closes)?;
        self.server.write_response(
            &mut self.unsent,
            reply.status,
            reason_of(reply.status),
            headers.as_slice(),
            size_of(reply.body.as_slice()),
        )?;
        self.write_body(reply.body.as_slice())?;
        self.server.write_end(&mut self.unsent, &[])
    }

    /// Answers the request that is out. If that fails, nothing of the answer is sent, and the
    /// connection ends once what came before it is.
    pub fn answer(&mut self, reply: &Reply) -> Result<(), AnswerFault>
        ensures answered { OnOk result (Answers self.old reply.now self.new) }
        ensures failed { IfErr result (FailsToAnswer self.old self.new) }
    {
        if self.phase != Phase::Waits {
            return Err(AnswerFault::NotAsked);
        }
        let len = self.unsent.len();
        match self.write(reply) {
            Ok(()) if self.server.is_closed() => {
                self.phase = Phase::Over;
                Ok(())
            }
            Ok(()) => {
                self.phase = Phase::Receives;
                Ok(())
            }
            Err(fault) => {
                self.unsent.truncate(len);
                self.phase = Phase::Over;
                Err(AnswerFault::Write(fault))
            }
        }
    }
}
