//! Notes of what was published.

use crate::book::Prefix;
use std::marker::Model;

/// A note of the operations that a keeper had published. Any thread may take it to a reader of the
/// same desk, which then sees them. It takes eight bytes.
#[derive(Drop)]
pub struct Note {
    pub(crate) prefix: Prefix,
}

impl Model for Note {
    ghost use Rattle.rr_desk.specs.Editions.{flat};
    ghost use Rattle.rr_desk.specs.ReaderState.{NoteState};

    ghost Value = { NoteState };

    ghost view = { λ n. record { desk = n.prefix.desk; list = flat n.prefix.editions } };
}
