//! The whole program: obeys an order, serves a node over TCP, or serves one with a directory.
//!
//! ```text
//! words ── run ──┬── obey ───> a script run, or lines checked, over two streams
//!                ├── read_directory ─> what the files of a node have
//!                ├── Server ─> a configuration, a first snapshot, listeners, a running node
//!                └── serve_node_of ─> a configuration, a directory, a running node over HTTP
//! ```
//!
//! [`run`] takes the words, the configuration, the snapshot or the directory, and the addresses, in
//! this order; the first fault ends it. All of it is generic in the runtime, so that a test can
//! stand in for the process, its files, its network and its clock. Nothing is known of these, so no
//! public function promises more than its trait: the contracts of
//! [`Config::from_toml`](rr_config::Config::from_toml) and [`load`](rr_snapshot::load) say what the
//! text and the bytes mean, and that of [`serve_node`](rr_node::serve_node) what a node over TCP
//! does. `serve_node` is handed what is here: connections over TCP (`tcp`, [`TcpSeats`]), snapshots
//! in a file (`shelf`), the system's clock (`clock`) and the signals between its threads
//! (`signals`). The node with a directory is in `node`.
#![tactic(auto)]

mod clock;
mod endpoints;
mod files;
mod greeting;
mod journal;
mod listeners;
mod node;
mod program;
mod seats;
mod server;
mod shelf;
mod signals;
mod tcp;
mod tools;

pub use clock::SystemClock;
pub use node::{Checkpointing, JournalParts, PeerCalling};
pub use program::run;
pub use seats::TcpSeats;
pub use shelf::FileShelf;
pub use signals::{HaltFlag, StartBarrier, Waiting};
pub use tcp::{Calling, Listening};
