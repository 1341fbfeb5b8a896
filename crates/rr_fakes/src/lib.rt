//! Stand-ins for tests: a host in memory, streams that give little, fail or hold bytes back, memory
//! that is refused, and small replicas.
//!
//! A test hands a call one of these in place of a connection, a file or a clock. All calls of a
//! host in memory are known, as long as there is memory to note them ([`log::CallLog`]): it meets
//! the contracts that `rr_host` and `rr_node` ask of a host. Of the others it is only known that
//! they run: what they do is written in their bodies, and a test says what comes of it.
//!
//! | Module | Stands for |
//! |---|---|
//! | [`clock`] | a clock that gives the moments it was made with |
//! | [`visits`] | connections with prepared inputs, which keep what they are answered |
//! | [`dial`] | peers with prepared bytes, which keep what they are sent |
//! | [`shelf`] | a shelf that keeps snapshots in memory |
//! | [`halt`] | the end of a node, which ends nothing |
//! | [`pieces`] | a reader that gives little at a time, and may fail at one call |
//! | [`failing`] | a stream whose first calls fail |
//! | [`holding`] | a writer that holds bytes back until it is flushed |
//! | [`room`] | a writer that takes little at a time, has limited room, and may fail at one call |
//! | [`refusing`] | memory that refuses a growth |
//! | [`replicas`] | replicas with rows of a minute, without a sample or with some |
//! | [`sessions`] | what the two sides of a session send |
//! | [`journals`] | the bytes of a journal in one file or two |
#![tactic(auto)]

pub mod clock;
pub mod dial;
pub mod failing;
pub mod halt;
pub mod holding;
pub mod journals;
pub mod log;
pub mod pieces;
pub mod refusing;
pub mod replicas;
pub mod room;
pub mod sessions;
pub mod shelf;
pub mod visits;
