//! Fetches: which rows of a series are asked for, and the CSV that answers.
//!
//! ```text
//! bytes ── request_words ──> words ── read_request ──> a request: key, function, archive, slots
//! request ── answer_text ──> entries of each slot ── consolidate ──> a row ── push_row ──> CSV
//! ```
//!
//! [`request_words`] splits a text into words, which a script may keep until it has a schema, and
//! [`read_request`] reads a [`Request`] from them and the schema, which chooses the archive;
//! [`parse_request`] does both. [`consolidate`] makes a row from the entries of its slot, which are
//! what each origin contributes to it. [`answer_text`] looks up the entries of each slot of a
//! request in a replica, and writes a CSV record for each row, whose first field, the key, a writer
//! of `csv` writes once ([`prefix_of`]), and whose numbers it writes into a buffer (`digits`);
//! [`answer`] writes that text to a stream.
//!
//! In `specs/`, a request, or else the first fault, is a function of the bytes
//! (`specs/Requests.antt`), a row one of the entries (`specs/Consolidation.antt`), the text of a
//! record one of its fields, by the rules of CSV (`specs/Records.antt`), and an answer one of the
//! replica's cells (`specs/Answers.antt`). [`laws`] says that rows and answers are those of the
//! samples that the cells were made from, and that records are what a writer of `csv` writes.
#![tactic(auto)]

mod answering;
mod consolidation;
mod digits;
mod fault;
pub mod laws;
mod prefix;
mod record;
mod request;
mod rows;
mod sum;
mod words;

pub use answering::{answer, answer_text};
pub use consolidation::consolidate;
pub use fault::{AnswerFault, RequestFault};
pub use prefix::prefix_of;
pub use request::{Request, parse_request, read_request};
pub use words::{RequestWords, request_words};
