//! What a node gives a peer of its journal, and what the peer makes of it.
//!
//! An offset counts the bytes of records in a node's endless journal. A peer asks for the bytes
//! from an offset on and is given a part of them ([`part_from`]): bytes of one file, up to the end
//! of that file or of what is synced, and at most 4 MiB. It reads the part's whole records
//! ([`read_part`]): each must chain to the one before it, and its cells are added to a list, to be
//! joined. If the part's end cuts a record, the peer asks again from that record on.
//!
//! A peer asks over HTTP, through a [`PeerConnection`], and [`Following`] says what it asks for
//! next and takes the answer: first where the journal is, then the journal from where it was read
//! up to; or the newest checkpoint, if the journal is gone or is another history, and then the
//! journal after that. A [`Pace`] says how long a peer that can't be followed is left alone.
//!
//! ```text
//! files, end, from ── part_from ──> Bytes { file, skip, len } | Nothing | Gone
//!                                     └── bytes ──┐
//!                   ┌─────────────────────────────┘
//! place, cells ── read_part ──> the place after the last whole record, and more cells
//!                   └── read_record ─> record ── decode ─> groups ── Decoder ─> cell
//! ```
//!
//! In `specs/` both are functions of their arguments (`Part.antt`, `Reading.antt`), and what an
//! answer makes of a [`Following`] is defined by what was asked for (`Following.antt`). [`laws`]
//! states that parts asked for in succession are the journal's bytes up to its end, without gap or
//! overlap (`Files.antt`); that a peer that keeps asking is refused none of them, and has the cells
//! of all records in the end; and that a map these are joined to holds all that the records say
//! (`Laws.antt`).
#![tactic(auto)]

mod answer;
mod cells;
mod connection;
mod fault;
mod following;
pub mod laws;
mod pace;
mod part;
mod peer_fault;
mod position;
mod records;
mod tally;

pub use answer::{END_FIELD, ID_FIELD, PeerAnswer};
pub use connection::PeerConnection;
pub use fault::PartFault;
pub use following::{Following, Next};
pub use pace::{LONGEST_PAUSE, Pace, Reached};
pub use part::{MAX_PART, Part, part_from};
pub use peer_fault::PeerFault;
pub use position::Position;
pub use records::read_part;
pub use tally::Tally;
