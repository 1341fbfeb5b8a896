//! What one connection of a client carries, without its socket: the requests of HTTP/1.1 and their
//! answers, and the pieces of a connection for lines.
//!
//! ```text
//! received ── HttpConnection ──> a Request, then nothing until its Reply ──> to send
//! received ── LineConnection ──> a Piece of whole lines, then nothing until its answer ──> to send
//! ```
//!
//! Nothing here makes a system call or knows of threads. Whoever has the socket passes in what was
//! received and takes out what is to be sent; whoever answers may do so later, from another thread.
//! At most one request or piece of a connection is out at a time, so answers leave in the order of
//! their requests, even if a client sends several requests before the first answer.
//!
//! The grammar of requests is that of `http1`. However the bytes are split, each [`Request`] is the
//! next one of the stream, once; if there is none, the bytes received hold no whole one; and a
//! refusal comes only if no bytes that may follow could make one.
#![tactic(auto)]

mod answering;
mod coding;
mod http;
mod lines;
mod receiving;
mod refusal;
mod reply;
mod request;
mod room;

pub use answering::AnswerFault;
pub use http::{HttpConnection, MAX_HEADERS};
pub use lines::{LineConnection, PIECE, Piece};
pub use receiving::Found;
pub use refusal::Refusal;
pub use reply::{Field, Reply, Value};
pub use request::Request;
pub use room::MAX_UNSENT;
