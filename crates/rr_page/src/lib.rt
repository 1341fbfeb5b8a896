//! Cells and pages as bytes.
//!
//! A cell has one spelling in each [`Version`] (`specs/CellText.antt`): the length of its key text
//! and the text, its archive, slot and origin, and its contribution, each number big-endian and of
//! its own width. It is written by [`cell_bytes`] and read by [`read_cell`], which accepts only
//! valid cells of a schema and names the first fault from left to right (`specs/Reading.antt`).
//!
//! A page (`specs/Page.antt`) has a head and at most 256 cells, strictly ascending by name. It is
//! written by [`encode`] and read by [`decode`], which accepts only pages of a schema and names the
//! first fault as well (`specs/PageReading.antt`). [`laws`] says that what is read is what was
//! written, and that no page is a prefix of another.
#![tactic(auto)]

mod cells;
mod decoding;
mod encoding;
mod fault;
pub mod fields;
mod heading;
pub mod laws;
mod version;
mod writing;

pub use cells::{archive_of, key_of, read_cell, read_cell_in};
pub use decoding::{decode, follows};
pub use encoding::encode;
pub use fault::PageFault;
pub use heading::version_of;
pub use version::{LATEST, Version};
pub use writing::{FIELDS_LEN, cell_bytes, push_name};
