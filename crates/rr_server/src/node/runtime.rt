//! What a node asks of the system.

use crate::node::checkpoints::Checkpointing;
use crate::node::giving::JournalParts;
use crate::node::peer::PeerCalling;
use std::sync::Wait;
use std::thread::Threads;
use std::time::Clock;

/// What the threads of a node ask of the system. [`Files`](std::rt::Files) and
/// [`Net`](std::net::Net) aren't part of it: see [`Checkpointing`].
pub trait ThreadRuntime: Checkpointing
    + JournalParts
    + PeerCalling
    + Eprint
    + Threads
    + Wait
    + Clock
    + Sync {}

impl<R> ThreadRuntime for R
where
    R: Checkpointing + JournalParts + PeerCalling + Eprint + Threads + Wait + Clock + Sync,
{}
