//! What is handed on, and what comes back.

use rr_connection::{Piece, Reply, Request};

/// What a connection asks for.
#[derive(Debug, Drop)]
pub enum Work {
    /// The answer to a request.
    Request(Request),
    /// Lines to be taken.
    Piece(Piece),
}

/// What a connection asks for, with its key.
#[derive(Debug, Drop)]
pub struct Item {
    /// The key of the connection.
    pub key: usize,
    /// When it was asked for, in milliseconds since the reactor began.
    pub came: u64,
    /// What it asks for.
    pub work: Work,
}

/// What comes of an item.
#[derive(Debug, Drop)]
pub enum Outcome {
    /// The answer to a request.
    Reply(Reply),
    /// The answer to a piece of lines.
    Text(Vec<u8>),
    /// There is none, and the connection is closed.
    Nothing,
}

impl Outcome {
    /// How many bytes of memory are held for it.
    pub(crate) fn held(&self) -> usize {
        match self {
            Outcome::Reply(reply) => reply.body.capacity(),
            Outcome::Text(text) => text.capacity(),
            Outcome::Nothing => 0,
        }
    }
}

/// What came of a connection's item, by its key.
#[derive(Debug, Drop)]
pub struct Answer {
    /// The key of the connection.
    pub key: usize,
    /// What came of its item.
    pub outcome: Outcome,
}

impl Work {
    /// Whether it is for the keeper.
    pub fn is_write(&self) -> bool {
        match self {
            Work::Request(request) => request.method.as_slice() == b"POST".as_slice(),
            Work::Piece(_) => true,
        }
    }

    /// Whether it can be answered 503, with nothing taken.
    pub fn is_request(&self) -> bool {
        matches!(self, Work::Request(_))
    }

    /// How many bytes of memory are held for it.
    pub fn held(&self) -> usize {
        match self {
            Work::Request(request) => request
                .body
                .capacity()
                .saturating_add(request.target.capacity()),
            Work::Piece(piece) => piece.text.capacity(),
        }
    }
}
