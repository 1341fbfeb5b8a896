//! Signals between the threads of a node.
//!
//! A [`HaltFlag`] ends the node early. A [`Flag`] asks for an early snapshot, or says that a peer
//! of another schema pulled. One thread puts a text in a [`SharedText`] for others to read. At a
//! [`StartBarrier`] the threads wait for each other before they take a connection, and by
//! [`Waiting`] they wait for one. Nothing is known of the calls of other threads.

mod flag;
mod halt;
mod shared_text;
mod start;
mod waiting;

pub(crate) use flag::Flag;
pub use halt::HaltFlag;
pub(crate) use shared_text::SharedText;
pub use start::StartBarrier;
pub(crate) use start::pause;
pub use waiting::Waiting;
