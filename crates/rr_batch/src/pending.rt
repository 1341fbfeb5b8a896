//! What became of items, before it is known whether that is saved.

use rr_node::{Report, TakenText};
use rr_web::Reply;

/// What became of an item.
#[derive(Debug, Drop)]
pub enum Pending {
    /// It gets this answer whatever is saved: no line of it was taken.
    Decided(Reply),
    /// The lines of its body were taken.
    Body(TakenText),
    /// The lines of a piece were taken.
    Lines {
        /// The answer to them: a line for each that was refused.
        refusals: Vec<u8>,
        /// What became of all lines of the connection, if this was its last piece.
        report: Option<Report>,
    },
    /// The connection has had as many pieces as it may have, and is closed.
    Closed,
}

/// What became of the item of a connection, by the connection's key.
#[derive(Debug, Drop)]
pub struct Waiting {
    /// The key.
    pub key: usize,
    /// What became of it.
    pub pending: Pending,
}
