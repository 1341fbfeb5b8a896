//! The protocol of a connection.

use crate::item::{Outcome, Work};
use crate::limits::SMALL;
use crate::socket::{Moved, Socket, moved_by};
use crate::watch::Stage;
use rr_connection::{Found, HttpConnection, LineConnection, PIECE};
use std::alloc::AllocError;

/// The protocol of a connection.
#[derive(Drop)]
pub enum Protocol {
    /// Requests of HTTP/1.1.
    Http(HttpConnection),
    /// Lines.
    Lines(LineConnection),
}

impl Protocol {
    /// Whether more is to be received.
    pub(crate) fn wants_read(&self) -> bool {
        match self {
            Protocol::Http(http) => http.wants_read(),
            Protocol::Lines(lines) => lines.wants_read(),
        }
    }

    /// Whether bytes are to be sent.
    pub(crate) fn wants_write(&self) -> bool {
        match self {
            Protocol::Http(http) => http.wants_write(),
            Protocol::Lines(lines) => lines.wants_write(),
        }
    }

    /// Whether nothing more is read.
    pub(crate) fn is_over(&self) -> bool {
        match self {
            Protocol::Http(http) => http.is_over(),
            Protocol::Lines(lines) => lines.is_over(),
        }
    }

    /// What the client's next bytes are part of.
    pub(crate) fn stage(&self) -> Stage {
        match self {
            Protocol::Http(http) if http.is_within_body() => Stage::Upload,
            Protocol::Http(http) if http.is_within_request() => Stage::Head,
            _ => Stage::Idle,
        }
    }

    /// How many bytes of memory are held for it.
    pub(crate) fn held(&self) -> usize {
        match self {
            Protocol::Http(http) => http.held(),
            Protocol::Lines(lines) => lines.held(),
        }
    }

    /// How many bytes it needs in all for what it receives: the size of a body, or the most that a
    /// piece of lines may have. Before a body that is unknown, and 8 KiB at a time are enough.
    pub(crate) fn needs(&self) -> usize {
        match self {
            Protocol::Http(http) if http.is_within_body() => http.body_size().max(SMALL),
            Protocol::Http(_) => SMALL,
            Protocol::Lines(_) => PIECE,
        }
    }

    /// Takes in the first `count` of these bytes.
    pub(crate) fn receive(&mut self, bytes: &[u8], count: usize) -> Result<(), AllocError> {
        let Some(came) = bytes.get(..count) else {
            return Ok(());
        };
        match self {
            Protocol::Http(http) => http.receive(came),
            Protocol::Lines(lines) => lines.receive(came),
        }
    }

    /// Notes that nothing more will be received.
    pub(crate) fn end(&mut self) {
        match self {
            Protocol::Http(http) => http.end(),
            Protocol::Lines(lines) => lines.end(),
        }
    }

    /// What is asked for next, if anything is.
    pub(crate) fn next(&mut self) -> Result<Option<Work>, AllocError> {
        match self {
            Protocol::Http(http) => match http.next() {
                Found::Request(request) => Ok(Some(Work::Request(request))),
                _ => Ok(None),
            },
            Protocol::Lines(lines) => match lines.next()? {
                Some(piece) => Ok(Some(Work::Piece(piece))),
                None => Ok(None),
            },
        }
    }

    /// Takes an answer, and returns whether that succeeded.
    pub(crate) fn answer(&mut self, outcome: Outcome) -> bool {
        match (self, outcome) {
            (Protocol::Http(http), Outcome::Reply(reply)) => {
                // If that fails, the connection ends by itself once what came before is sent.
                let _answered = http.answer(&reply);
                true
            }
            (Protocol::Lines(lines), Outcome::Text(text)) => lines.answer(text.as_slice()).is_ok(),
            _ => false,
        }
    }

    /// Sends as much as the socket takes at once.
    pub(crate) fn write_to<S: Socket>(&mut self, socket: &mut S) -> Moved {
        match self {
            Protocol::Http(http) => {
                let moved = moved_by(socket.write(http.unsent()));
                if let Moved::Bytes(count) = moved {
                    http.sent(count);
                }
                moved
            }
            Protocol::Lines(lines) => {
                let moved = moved_by(socket.write(lines.unsent()));
                if let Moved::Bytes(count) = moved {
                    lines.sent(count);
                }
                moved
            }
        }
    }
}
