//! Requests to a node over HTTP, and its replies: there is no socket here.
//!
//! ```text
//! target ── target_parts ──> a path and a query
//! method and path ── asked_by ──> Ask
//! request ── fetch_of ──> a Fetch, if it is one that can be answered, and how much memory that takes
//! request that reads ── read_reply, by a reader ──> Reply: a status, a kind of text, and the text
//!     the rows of a fetch, CSV or JSON; the keys of series, a line each; numbers, health; a page
//! request of a peer ── part_query ──> what it asks for
//! what a peer is given ── part_response ──> a response
//! request that writes ── refused_write ──> a Reply, or none: then its lines are to be taken
//! refusals and report of lines ── write_reply ──> Reply
//! replies to bodies refused whole ── RefusedBodies::count ──> their numbers
//! numbers of a node ── metrics_text ──> the text form of Prometheus
//! Reply ── response_of ──> an HTTP response
//! ```
//!
//! In `specs/` each is a function of the bytes. Requests and responses are those of
//! `rr_connection`. Queries are those of HTML forms, as the URL Standard reads them; a write is
//! answered as InfluxDB would, so that its senders recognize a refusal of some lines.
#![tactic(auto)]

mod answers;
mod ask;
mod bodies;
mod family;
mod faults;
mod fetch;
mod fetches;
mod fixed;
mod json;
pub mod laws;
mod listing;
mod node_metrics;
mod page;
mod parts;
mod peer_metrics;
mod precision;
mod process;
mod query;
mod read;
mod refusals;
mod reply;
mod response;
mod rows;
mod samples;
mod script;
mod series;
mod style;
mod target;
mod texts;
mod writes;

pub use ask::{Ask, asked_by};
pub use bodies::RefusedBodies;
pub use fetch::{Fetch, fetch_of};
pub use node_metrics::{
    AnswerCounts, ArchiveRows, NodeMetrics, RefusedLines, archive_rows, metrics_text,
};
pub use parts::{Given, JournalPlace, PartQuery, part_query, part_response};
pub use peer_metrics::PeerNumbers;
pub use process::{ProcessNumbers, resident_bytes};
pub use read::read_reply;
pub use refusals::{put_off_write, refused_write};
pub use reply::Reply;
pub use response::response_of;
pub use target::target_parts;
pub use writes::write_reply;
