//! A node with one directory and one reactor: what `rr node` runs.
//!
//! ```text
//! configuration ─> directory, locked ─> addresses, tried ─> recovered ─> listeners ─> threads:
//!
//! Reactor ── writes ───> Keeping: a batch, committed and then answered ── a place ──> Checkpoints
//!    ^  └─── fetches ──> Handlers, on several threads   ^                  of the journal
//!    └────── answers ──< both                           └── cells ── Peers, a thread for each
//! ```
//!
//! A peer's thread keeps asking it for what its journal has gained, and hands the cells to the
//! keeper, which joins them with a batch and then records how far the journal was read. Handlers
//! give peers the bytes of this node's own journal.
//!
//! The origin of a start is taken when the first lines come: it is named in the directory and
//! recorded in the journal before any of them is taken.
//!
//! The decisions are made below: `rr_batch` decides what a batch comes to, `rr_web` how requests
//! are answered, `rr_directory` and `rr_recovery` what the files make, `rr_checkpoint` when and how
//! a checkpoint is written, `rr_reactor` how long connections may take. The threads are here.

mod arrivals;
mod checkpoints;
mod endings;
mod giving;
mod handler;
mod keeping;
mod link;
mod listening;
mod loading;
mod logbook;
mod made;
mod mailbox;
mod numbers;
mod origins;
mod peer;
mod process;
mod runtime;
mod serving;
mod shared;
mod start;
mod threads;
mod upgrade;
mod worker;

pub use checkpoints::Checkpointing;
pub use giving::JournalParts;
pub use peer::PeerCalling;
pub(crate) use serving::serve_node_of;
