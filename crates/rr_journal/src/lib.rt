//! A journal: records appended to files, each with a digest that chains it to the one before.
//!
//! ```text
//! header   "RRJN", version u8, decimals u8, length of the schema u16, schema,
//!          id [16], offset u64, digest [8], and a digest [8] of all of this
//! record   length of the body u32, kind u8, body, digest [8]
//!
//! kind 1   cells: groups of  length of the key u16, key text, archive u8, length u32, packed cells
//! kind 2   origin: u16
//! kind 3   cursor: id [16], offset u64, digest [8]
//! kind 4   end of a checkpoint: how many cells it has, u64
//! kind 5   witness: [8], of the offset at which it stands, under the directory's key
//! kind +128  the record is the first after a sync
//! ```
//!
//! Numbers are big-endian. A record has at most 1 MiB, and no more is written between two syncs. A
//! digest is the first eight bytes of a SHA-256; that of a record covers the digest of the record
//! before it, and its own length, kind and body. A header names its place in the journal, a
//! [`Cursor`]: the journal's id, how many bytes of records come before the file, and the digest of
//! the last of them, to which the first record chains. So a record that is lost, repeated, swapped
//! or changed is detected, across files too. What is written between two syncs begins with a witness,
//! by which whoever has the key sees that what comes before it was synced ([`was_synced`]).
//!
//! [`encode`] turns a [`Record`] into a [`RawRecord`], and [`decode`] checks one from anywhere.
//! From a file that a crash left, [`header_from`] and [`read_record`] read a header and then one
//! record at a time, until none is whole, and say why ([`Stop`]): the end, a tail that a crash
//! tore, or damage. A node writes through a [`Journal`]: what [`commit`] acknowledges is synced.
//! [`laws`] states that what was written is read, that a prefix is read as its whole records, and
//! that what is synced is read whatever follows it.
#![tactic(auto)]

mod committing;
mod cursor;
mod decoding;
mod digest;
mod encoding;
mod fault;
mod fields;
mod group;
mod grouping;
mod header;
mod journal;
mod kind;
pub mod laws;
mod meaning;
mod memory;
mod raw;
mod records;
mod step;
mod witness;
mod writing;

pub use committing::{CommitFault, commit, fits_between_syncs};
pub use cursor::{Cursor, ID_LEN};
pub use decoding::decode;
pub use digest::DIGEST_LEN;
pub use encoding::encode;
pub use fault::JournalFault;
pub use group::Group;
pub use header::{DECIMALS, header_bytes, header_from, header_len};
pub use journal::{Journal, JournalFailed};
pub use meaning::Record;
pub use memory::MemoryJournal;
pub use raw::{MAX_BODY_LEN, MAX_RECORD_LEN, RawRecord};
pub use records::read_record;
pub use step::{MAX_UNSYNCED, Step, Stop};
pub use witness::{KEY_LEN, Key, WITNESS_LEN, was_synced};
pub use writing::write_record;
