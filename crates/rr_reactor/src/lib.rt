//! One thread that owns all of a node's sockets, and serves them as they become ready.
//!
//! ```text
//!             ┌── Poll: which sockets can be read or written, and a waker
//! Reactor ────┤
//!   │         └── Connections: a Connection for each socket, by its key
//!   │ items, each with the key of its connection              ▲ answers, by key
//!   ▼                                                         │
//! Queues: writes, and pieces of lines ──> the keeper ─────────┤
//!         other requests ───────────────> the readers ────────┘
//! ```
//!
//! A connection has at most one item out, and keeps its key until that is answered. So a queue has
//! at most as many items as there may be connections, and an answer finds its connection without a
//! number of its own. A slow client costs the bytes that it sent; one that takes too long is let go
//! ([`Stage`], [`Limits`]), and so is the one idle longest when a new one needs its place or its
//! file descriptor. When a queue is behind, a request is answered 503 at once.
//!
//! The memory of connections is bounded by [`Limits::held`], except for another 8 KiB that each may
//! send, and its answers of at most 8 KiB, of which some 64 KiB may wait. Whoever is to make a longer
//! one has memory for it promised first ([`Promises`]), so that what is made, and what waits for the
//! reactor, counts too; the reactor copies one at a time beyond that. Instead of a longer answer
//! that doesn't fit, a short one is sent: 503, unless something was done, whose status stays. A
//! request is read while all the bytes that it needs are left below [`Limits::received`] and no
//! waiter needs less, so large bodies leave room for small ones. A body whose head doesn't give its
//! length needs as much as one may have. Waiters advance each second, the one that needs least
//! first, and the oldest of equals; the first may take all that is left ([`Waiter`], [`Rank`]).
//!
//! When one finds no room, stalled connections are let go within a second, the one that holds most
//! first ([`Pace`], [`Holder`]): those that move nothing, or too little, and have no item out. One
//! that takes or sends enough in time isn't.
//!
//! [`Limits`], [`Waiter`], [`Stage`], [`Watch`] and [`Pace`] are functions of moments and counts,
//! with contracts. Nothing is known of sockets and threads, so what serves them is proved safe, and
//! to hand on an item of a connection only when none is out.
#![tactic(auto)]

mod acceptor;
mod connection;
mod connections;
mod excuse;
mod item;
mod limits;
mod order;
mod pace;
mod promises;
mod protocol;
mod queue;
mod queues;
mod reactor;
mod socket;
mod sweep;
mod watch;

pub use connection::Connection;
pub use connections::{Asked, Connections};
pub use excuse::no_room_reply;
pub use item::{Answer, Item, Outcome, Work};
pub use limits::Limits;
pub use order::{Rank, Waiter};
pub use pace::{Holder, Pace};
pub use promises::Promises;
pub use protocol::Protocol;
pub use queue::Queue;
pub use queues::Queues;
pub use reactor::Reactor;
pub use socket::Socket;
pub use watch::{Candidate, Stage, Watch};
