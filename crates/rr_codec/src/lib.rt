//! Cells of one archive as packed bytes.
//!
//! ```text
//! a cell ── ten numbers of 128 bits ── their steps from the expected ones ── flags, and each step that isn't 0
//! ```
//!
//! The fields of a cell are unsigned numbers (`fields`). The last cell of the same origin and the
//! fields already read give an expected number for each (`expecting`, `recent`); the step from
//! there, up or down, is what is written (`step`). What is expected decides how many bytes a cell
//! takes, never which cell is read: a step leads from any expected number to any other. So cells
//! whose times, numbers and values go on as before take few bytes, and any others little more than
//! their fields have. The cells that go on as most do have a fast path (`regular`).
//!
//! In `specs/`, the text of some cells is a function of them and of the span that their writer took
//! (`specs/Text.antt`), and the reading is one of the bytes, to the first fault from left to right
//! (`specs/Reading.antt`); [`laws`] states that each is the inverse of the other. [`encode`] writes
//! a text, [`decode`] reads one that this node wrote, [`Decoder`] goes through one cell by cell
//! without memory, and [`check`] checks one from elsewhere before it is read.
#![tactic(auto)]

mod checking;
mod decoder;
mod decoding;
mod encoding;
mod expecting;
mod fault;
mod fields;
pub mod laws;
mod number;
mod recent;
mod regular;
mod step;
mod steps;

pub use checking::check;
pub use decoder::Decoder;
pub use decoding::decode;
pub use encoding::encode;
pub use fault::CodecFault;
