//! What reading lines, keys, scripts and requests is built on: the limits of the store, the bytes
//! that divide a text, cutting it at a byte, and decimal numbers. All other crates that read or
//! bound build on it.
//!
//! A text is a slice of bytes. [`text::cut`] and [`bytes::strip`] take it apart, and
//! [`text::number`] and [`text::integer`] read what is left, in one pass and without memory.
//! [`limits`] names each limit once, for whoever checks it, and [`refusal::push_refusal`] writes
//! why a line is refused. The definitions say what each answer stands for: how steps follow one
//! another up to the first fault, and when a result is that of a definition.
#![tactic(auto)]

pub mod bytes;
pub mod limits;
pub mod refusal;
pub mod text;
