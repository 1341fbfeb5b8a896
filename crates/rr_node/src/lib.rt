//! A node: a server that takes lines, answers fetches and pulls from its peers, as a [`Config`]
//! says.
//!
//! ```text
//!               ┌ Visits ── serve_lines ──> samples that a Keeper puts, answers and a report
//! keep_round ───┤ Dial ──── pull_peer ────> cells that it joins and publishes
//!               └ Shelf ─────────────────< a snapshot of its replica
//! serve_seat ──── Visits ── serve_reader ─> answers of a Reader, or a session where a peer pulls
//! ```
//!
//! [`serve_node`] keeps rounds on one thread ([`keep_round`]) and serves each [`Seat`] on another.
//! What is handed in is behind small traits, each seen as the list of its calls: [`Visits`], a
//! [`Dial`], a [`Halt`] and a [`Clock`] of [`rr_host`], and a [`Shelf`], which takes snapshots.
//!
//! In `specs/` what lines make of a keeper, and the answers to them, are functions of the lines and
//! the clock's moments (`specs/Lines.antt`). The answer to a fetch is a function of the cells that
//! the reader has seen (`specs/Fetches.antt`), over lists of operations that grow. A seat is the
//! connections of its calls, served in order (`specs/Seats.antt`); a round is its parts in order
//! (`specs/Round.antt`), and a node's rounds follow each other (`specs/Rounds.antt`).
#![tactic(auto)]

mod answer;
mod answering;
mod connection;
mod fault;
mod gates;
mod line_stream;
mod lines;
mod node;
mod peers;
mod pull;
mod reader;
mod report;
mod round;
mod rounds;
mod rules;
mod saving;
mod seat;
mod shelf;
mod tally;

pub use answering::answer_line;
pub use fault::NodeFault;
pub use gates::OpenGate;
pub use line_stream::{LineStream, TakenText, take_text};
pub use lines::{serve_lines, serve_lines_within};
pub use node::{Seats, serve_node};
pub use pull::pull_peer;
pub use reader::serve_reader;
pub use report::{Report, push_report, push_report_line};
pub use round::keep_round;
pub use rr_config::{Config, ConfigFault};
pub use rr_host::{Clock, Dial, Halt, Visit, Visits};
pub use seat::{Seat, serve_seat};
pub use shelf::{Opening, Shelf};
pub use tally::Tally;
