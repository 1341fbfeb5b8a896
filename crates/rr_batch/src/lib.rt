//! The writes of a node's connections: taken by its keeper, committed to its journal, and only then
//! acknowledged.
//!
//! ```text
//! items ── Writer::take ──> samples, pending in the keeper; and a Pending for each item
//! Pendings ── commit_batch ──> published, and committed to the journal ──> an Answer for each item
//! ```
//!
//! A batch is what waits when the keeper looks: bodies of requests, and pieces of lines of any
//! number of connections. [`Writer`] takes their lines; what is to be answered waits as a
//! [`Pending`], which [`commit_batch`] turns into an answer once it is known whether the batch is
//! in the journal and synced. So one sync serves all that waited, and nothing that a crash could
//! lose is acknowledged. Refused lines are counted by the names of their faults: [`RefusalCounts`].
//!
//! Lines are taken only under an origin that [`take_origin`] has taken: it has a name outside the
//! journal, and its record is in the journal. Until then items that bring lines are put off
//! ([`Writer::put_off`]).
//!
//! The cells that a peer brings are joined by [`join_cells`] and committed with the next batch, and
//! how far its journal was read is recorded after them by [`commit_cursor`]. If one is of the
//! node's own origin and [`are_unwritten`] says that the node never wrote it, none is joined.
#![tactic(auto)]

mod answering;
mod committing;
mod fault;
pub mod laws;
mod origin;
mod peer;
mod pending;
mod put_off;
mod refusals;
mod taken;
mod writer;

pub use committing::{Answers, commit_batch};
pub use fault::BatchFault;
pub use origin::commit_origin;
pub use peer::{are_unwritten, commit_cursor, join_cells};
pub use pending::{Pending, Waiting};
pub use put_off::brings_lines;
pub use refusals::{MAX_NAMES, RefusalCounts};
pub use taken::{NotNamed, OriginNames, TakenOrigin, take_origin};
pub use writer::{MAX_REFUSALS, Writer};
