//! Schemas read from TOML.
//!
//! An operator writes a schema as a TOML text, or as part of one. [`FromToml`] reads it: with the
//! trait in scope, `Schema::from_toml` and `Schema::from_table` return the schema, or the first
//! fault, key by key.
//!
//! ```text
//! text ── toml ──> table ── step, archive ──> numbers ── Schema::new ──> Schema
//! ```
#![tactic(auto)]

mod document;

pub use document::FromToml;
