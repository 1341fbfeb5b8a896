//! The names that every other crate of the store uses, and no code: origins, the schema of
//! archives, and streams that count failed calls.
//!
//! `rr_schema` has [`Origin`] and [`Schema`], `rr_document` reads a schema from TOML, as
//! [`FromToml`], and `rr_io` has [`Counted`], [`Failing`] and [`stream`]. A crate that needs only
//! one of them uses that one.
#![tactic(auto)]

pub use rr_document::FromToml;
pub use rr_io::{Counted, Failing, stream};
pub use rr_schema::{
    ArchiveSpec, ConsolidationFunction, Origin, OriginFault, Schema, SchemaFault, laws,
};
pub use rr_text::{bytes, limits, text};
