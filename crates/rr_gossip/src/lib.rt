//! Sessions in which one side pulls cells from another.
//!
//! A frame (`specs/Frame.antt`) is a length, a [`Kind`] and a body. The side that pulls sends its
//! schema, the names and versions of its cells in Summary frames (`specs/Summary.antt`), and an
//! end; the giving side replies with pages of the cells that these lack, and an end.
//!
//! Each side is a machine without a stream: [`Puller`] over a target (`specs/Puller.antt`),
//! [`Giver`] over a source (`specs/Giver.antt`). `next_frame` returns the next frame to send,
//! `take` is handed each frame of the other side, and both are held to one function of the machine,
//! the frame and the cells. Bytes that are no frame of the session are refused by name
//! ([`GossipFault`]).
//!
//! [`pull`] and [`give`] run a machine over a reader and a writer, a frame at a time: frames are
//! read by their length alone (`specs/Stream.antt`), and each call is held to the frames that it
//! read and wrote (`specs/Session.antt`). [`laws`] says which frames a side sends in a row
//! (`specs/Transcript.antt`), that a pull that completes joins exactly what its target lacked, in
//! order, that one that stops joins a prefix of that, and that this brings the join of the cells of
//! both sides.
#![tactic(auto)]

mod fault;
mod frame;
mod giver;
mod giving;
mod joining;
pub mod laws;
mod names;
mod pages;
mod puller;
mod pulling;
mod stream;
mod summary;

pub use fault::GossipFault;
pub use frame::{Kind, MAX_FRAME_LEN, MAX_FRAMES, content_of, frame_bytes};
pub use giver::Giver;
pub use giving::{give, give_after, give_within};
pub use puller::Puller;
pub use pulling::{pull, pull_within};
pub use rr_delta::{Source, Target};
pub use summary::{MAX_ENTRIES, read_summary, summary_bytes};
