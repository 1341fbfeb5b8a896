//! What records mean.

use crate::cursor::Cursor;
use crate::digest::DIGEST_LEN;
use crate::group::Group;
use rr_schema::Origin;

/// What a record of a journal means.
#[derive(Debug, Drop)]
pub enum Record {
    /// Cells to be joined: one group or more.
    Cells(Vec<Group>),
    /// The origin of the node's samples from here on.
    Origin(Origin),
    /// How far another node's journal had been joined before this.
    Cursor(Cursor),
    /// The end of a checkpoint, and how many cells it has.
    End(u64),
    /// A witness, by which whoever has the directory's key sees that what comes before it was synced.
    Witness([u8; DIGEST_LEN]),
}
