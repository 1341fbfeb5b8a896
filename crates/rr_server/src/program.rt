//! Obeys the order given by a process's words.

use crate::journal::read_directory;
use crate::node::{Checkpointing, JournalParts, PeerCalling, serve_node_of};
use crate::server::Server;
use rr_files::TryLock;
use rr_process::{Ending, obey, read_order};
use rr_words::Order;
use std::env::Env;
use std::net::{Net, TcpListener, TcpStream};
use std::random::RandomSource;
use std::rt::Files;
use std::sync::Wait;
use std::thread::Threads;
use std::time::Clock;

/// The text, borrowed, if there is one.
pub(crate) fn lent(text: &Option<String>) -> Option<&str> {
    match text {
        Some(text) => Some(text.as_str()),
        None => None,
    }
}

/// How a node ended, whether or not it began.
fn ended(served: Result<Ending, Ending>) -> Ending {
    match served {
        Ok(ending) | Err(ending) => ending,
    }
}

/// Obeys the order given by the process's own words, and returns how that ended.
///
/// A node's configuration is read first, then the snapshot to begin with, then it listens on its
/// addresses; the first fault ends it. A file that can't be read is named on standard error.
pub fn run<R>(rt: &R) -> Ending
where
    R: AllocGlobal
        + Env
        + Files
        + Checkpointing
        + JournalParts
        + PeerCalling
        + Input
        + Print
        + Eprint
        + Net<Listener = TcpListener, Stream = TcpStream>
        + Clock
        + RandomSource
        + Threads
        + Wait
        + Sync,
    R::File: TryLock,
{
    let order = match read_order(rt) {
        Ok(order) => order,
        Err(fault) => return Ending::from(fault),
    };
    let (config, origin, load, save) = match &order {
        Order::Serve {
            config,
            origin,
            load,
            save,
        } => (config, *origin, load, save),
        Order::Node { config, data, load } => {
            return ended(serve_node_of(rt, config.as_str(), data.as_str(), lent(load)));
        }
        Order::Journal { what, folder } => return read_directory(rt, *what, folder.as_str()),
        _ => return obey(rt, &order),
    };
    let served = match Server::new(rt, config.as_str(), lent(save)) {
        Ok(server) => server.serve(origin, lent(load)),
        Err(ending) => Err(ending),
    };
    ended(served)
}
