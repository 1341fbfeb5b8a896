//! What a node asks of its host: the time, and connections.
//!
//! Each is behind a small trait, which is seen as the list of its calls. [`Visits`] gives incoming
//! connections, a [`Dial`] reaches peers, a [`Clock`] gives moments, and a [`Halt`] ends a node
//! early. Those over TCP and the system's clock are in the program, those over memory in
//! `rr_fakes`. What is done once an interval has a [`Pace`].
//!
//! ```text
//! Visits ── next ──> Visit: an input and an output ── take_back
//! Dial ──── open ──> an input and an output ───────── take_back
//! Clock ─── now ───> a moment
//! ```
//!
//! In `specs/` the calls of each are values (`Visits.antt`, `Calls.antt`, `Clock.antt`,
//! `Halt.antt`). A stream is given by its bytes, if they are known, by how often it was read, and
//! by how many of its calls failed (`Streams.antt`).
#![tactic(auto)]

mod clock;
mod dial;
mod halt;
mod pace;
mod visits;

pub use clock::Clock;
pub use dial::{Dial, is_without_fault};
pub use halt::Halt;
pub use pace::Pace;
pub use visits::{Visit, Visits};
