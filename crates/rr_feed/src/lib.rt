//! Lines from bytes that come in pieces of any size.
//!
//! Bytes are pushed into a [`Feed`] as they come, and whole lines are taken out, as slices of what
//! the feed holds. A byte stream is cut after each line feed. What precedes a line feed is a
//! line if it has at most [`MAX_LINE`](rr_text::limits::MAX_LINE) bytes; a longer one is reported
//! as [`FeedLine::TooLong`], once, as soon as it is too long, and the rest of it is skipped. What
//! follows the last line feed becomes a line at the end of the stream, unless it is empty. A CR is
//! a byte like any other.
//!
//! ```text
//! pieces ── push ──> bytes that are left ── next_line ──> lines
//! ```
//!
//! In `specs/`, the items of a byte stream are a function of its bytes, and what a feed holds is
//! the bytes that are left, with a flag while a long line is skipped. [`laws`] says that what is
//! handed out depends only on the bytes pushed, and not on how they were cut.
#![tactic(auto)]

mod fault;
mod feed;
pub mod laws;
mod left;
mod line;
mod next;
mod piece;

pub use fault::FeedFault;
pub use feed::Feed;
pub use line::{FeedLine, LINE_TOO_LONG};
pub use piece::PIECE;
