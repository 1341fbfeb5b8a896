//! A desk: one keeper that writes, and readers on threads of their own that answer without waiting.
//!
//! [`open`] makes a desk of a replica. The [`Keeper`] has a replica of its own, into which it puts
//! samples and joins cells; each is an operation, pending until [`Keeper::publish`] shows all of
//! them to the readers in one step. A [`Reader`] answers from one of two copies of the replica,
//! which hold what was published; it never waits for the keeper, nor do the keeper's writes wait
//! for it. It may ask a [`Gate`] before it answers a fetch. A [`Note`] tells a reader what was
//! published.
//!
//! ```text
//! put, write, join_cell ──> pending ── publish ──> book, and the copy that is shown ──> Reader
//! ```
//!
//! Below these are the copies (`copies.rt`, `read_handle.rt`): the keeper's replica beside the two
//! copies shown to readers in turn. Publishing ends an edition in the book and swaps the copies.
//!
//! In `specs/`, a keeper stands for two lists of operations, the published and the pending ones
//! (`KeeperState.antt`), and a reader for the list it has seen (`ReaderState.antt`). A reader
//! answers from the cells that its list makes. All lists of one desk, seen, told or published, are
//! prefixes of one list: that is the rule of the copies (`Rule.antt`), which every step keeps. No
//! list is in memory. The book of editions (`Editions.antt`), of which code keeps only the count,
//! says whether a copy has what a note is of.
#![tactic(auto)]

mod answers;
mod book;
mod change;
mod copies;
mod fault;
mod gate;
mod keeper;
pub mod laws;
mod naming;
mod note;
mod opening;
mod order;
mod points;
mod read_handle;
mod reader;
mod reader_count;
mod rule;
mod samples;
mod sampling;
mod shown;
mod sides;
mod started;
mod unwritten;
mod writing;

pub use fault::{FetchFault, OpenFault};
pub use gate::{Gate, GateCall};
pub use keeper::Keeper;
pub use note::Note;
pub use opening::open;
pub use reader::Reader;
pub use rr_text::limits::MAX_READERS;
pub use samples::KeyedValue;
