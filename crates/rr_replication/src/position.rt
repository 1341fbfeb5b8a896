//! Where a node is in the store of a peer.

ghost use Rattle.std.specs.Prelude.{◌≡◌, ◌++◌, codes, IfOk, OnOk};
ghost use Rattle.std.specs.Fmt.{decimal};
ghost use Rattle.rr_replication.specs.Position.{byte_of, greeting_target, target_of};

use crate::tally::Tally;
use itoa::Buffer;
use rr_journal::{Cursor, DECIMALS, header_len};
use rr_schema::Schema;
use std::alloc::{AllocError, Global};

/// Where a node is in the store of a peer.
#[derive(Clone, Copy, Debug, PartialEq, Eq)]
pub enum Position {
    /// In its journal.
    Journal(Cursor),
    /// Before its newest checkpoint, of which nothing is read yet.
    Newest,
    /// In a checkpoint, after which its journal is read from `begins` on.
    Checkpoint {
        /// Where the checkpoint begins.
        begins: Cursor,
        /// How far its records are read, as if they were the journal's from there on.
        place: Cursor,
        /// What was read of it.
        tally: Tally,
    },
}

/// Adds a number in decimal digits.
fn push_number(text: &mut Vec<u8>, number: u64) -> Result<(), AllocError>
    ensures { OnOk result (text.new.items ≡ text.old.items ++ decimal number) }
{
    let mut buffer = Buffer::new();
    text.extend_from_slice(buffer.format(number).as_bytes())
}

/// The target of a connection's first request: where the peer's journal is, if its schema is this
/// one.
pub(crate) fn greeting_target(alloc: Global, schema: &Schema) -> Result<Vec<u8>, AllocError>
    ensures { IfOk result (λ text. text.items ≡ greeting_target schema.now) }
{
    let digits = hex::encode(alloc, &schema.bytes(alloc)?)?;
    let mut text = Vec::from_slice(alloc, b"/journal?decimals=")?;
    push_number(&mut text, u64::from(DECIMALS))?;
    text.extend_from_slice(b"&schema=")?;
    text.extend_from_slice(digits.as_bytes())?;
    Ok(text)
}

/// The byte of a checkpoint's file at which its records continue.
fn byte_of(schema: &Schema, begins: &Cursor, place: &Cursor) -> u64
    ensures { result ≡ byte_of schema.now begins.now place.now }
{
    let records = place.offset.saturating_sub(begins.offset);
    records.saturating_add(header_len(schema) as u64)
}

impl Position {
    /// The target of the request for what comes next.
    #[tactic(auto, unfolding(crate::specs::Position::target_of))]
    pub(crate) fn target(&self, alloc: Global, schema: &Schema) -> Result<Vec<u8>, AllocError>
        ensures { IfOk result (λ text. text.items ≡ target_of schema.now self.now) }
    {
        let mut text = Vec::new(alloc);
        match self {
            Position::Journal(place) => {
                let id = hex::encode(alloc, &place.id)?;
                text.extend_from_slice(b"/journal?id=")?;
                text.extend_from_slice(id.as_bytes())?;
                text.extend_from_slice(b"&from=")?;
                push_number(&mut text, place.offset)?;
            }
            Position::Newest => text.extend_from_slice(b"/checkpoint?from=0")?,
            Position::Checkpoint { begins, place, .. } => {
                text.extend_from_slice(b"/checkpoint?begins=")?;
                push_number(&mut text, begins.offset)?;
                text.extend_from_slice(b"&from=")?;
                push_number(&mut text, byte_of(schema, begins, place))?;
            }
        }
        Ok(text)
    }
}
