//! Connections over TCP.
//!
//! ```text
//! Listening ─ next ──> a connection's two halves ── take_back ──> closed
//! Calling ─── open ──> those of a connection to a peer ─────────> closed
//! ```
//!
//! [`Listening`] gives incoming connections, and [`Calling`] connects to peers. A [`PacedDial`]
//! calls each peer at most once an interval. A [`Half`] waits one second at a time, and checks its
//! node's flag in between. Nothing is known of sockets.

mod calling;
mod listening;
mod paced;
mod socket;

pub use calling::Calling;
pub(crate) use listening::Accepted;
pub use listening::Listening;
pub(crate) use paced::PacedDial;
pub(crate) use socket::{Half, halves};
