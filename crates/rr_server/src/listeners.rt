//! Where the connections of a node come from.

use crate::server::OUT_OF_MEMORY;
use crate::signals::{Flag, HaltFlag, StartBarrier, Waiting};
use crate::tcp::Listening;
use rr_config::Config;
use rr_process::Ending;
use std::alloc::{AllocError, Global};
use std::io;
use std::io::ErrorKind;
use std::net::{Net, TcpListener, TcpStream};

/// What the threads of a node share.
#[derive(Drop)]
pub(crate) struct Signals {
    /// The flag that ends its connections.
    pub(crate) halt: HaltFlag,
    /// The flag by which an empty line connection asks for a snapshot.
    pub(crate) save_requested: Flag,
    /// The flag that says that a peer of another schema pulled.
    pub(crate) schema_differs: Flag,
    /// The barrier at which the threads begin.
    pub(crate) start: StartBarrier,
}

impl Signals {
    /// The signals of a node with this number of threads, no flag raised.
    fn new(alloc: Global, threads: usize) -> Result<Signals, AllocError> {
        Ok(Signals {
            halt: HaltFlag::new(alloc)?,
            save_requested: Flag::new(alloc)?,
            schema_differs: Flag::new(alloc)?,
            start: StartBarrier::new(alloc, threads)?,
        })
    }

    /// How one of its threads waits for visits: indefinitely, or for `every` seconds.
    pub(crate) fn waiting(&self, every: Option<u64>) -> Result<Waiting, AllocError> {
        let waiting = Waiting::new(self.halt.share()?).after_start(self.start.share()?);
        match every {
            Some(every) => Ok(waiting.at_intervals(every, self.save_requested.share()?)),
            None => Ok(waiting),
        }
    }
}

/// The listeners of a node: one for lines, and one for each reader; and what its threads share.
#[derive(Drop)]
pub(crate) struct Listeners {
    pub(crate) lines: Listening,
    pub(crate) fetches: Vec<Listening>,
    pub(crate) signals: Signals,
}

impl Listeners {
    /// Listens on the addresses of a configuration, the one for lines first.
    pub(crate) fn bind(
        rt: &(impl AllocGlobal + Eprint + Net<Listener = TcpListener, Stream = TcpStream>),
        config: &Config,
    ) -> Result<Listeners, Ending> {
        // One thread for the keeper, and one for each fetch address.
        let threads = config.fetch.len().saturating_add(1);
        let Ok(signals) = Signals::new(rt.alloc(), threads) else {
            return Err(OUT_OF_MEMORY);
        };
        Ok(Listeners {
            lines: listen_for_lines(rt, config, &signals)?,
            fetches: listen_for_fetches(rt, config, &signals)?,
            signals,
        })
    }
}

/// Listens on the line address.
fn listen_for_lines(
    rt: &(impl AllocGlobal + Eprint + Net<Listener = TcpListener, Stream = TcpStream>),
    config: &Config,
    signals: &Signals,
) -> Result<Listening, Ending> {
    let address = config.lines.as_str();
    listen_at(rt, address, config.idle, config.every, signals)
}

/// Listens on the fetch addresses.
fn listen_for_fetches(
    rt: &(impl AllocGlobal + Eprint + Net<Listener = TcpListener, Stream = TcpStream>),
    config: &Config,
    signals: &Signals,
) -> Result<Vec<Listening>, Ending> {
    let mut fetches = Vec::new(rt.alloc());
    for address in &config.fetch {
        let listening = listen_for_fetch(rt, address.as_str(), config.idle, signals)?;
        if fetches.push(listening).is_err() {
            return Err(OUT_OF_MEMORY);
        }
    }
    Ok(fetches)
}

/// Listens on a fetch address.
fn listen_for_fetch(
    rt: &(impl AllocGlobal + Eprint + Net<Listener = TcpListener, Stream = TcpStream>),
    address: &str,
    idle: Option<u64>,
    signals: &Signals,
) -> Result<Listening, Ending> {
    let listening = listen_at(rt, address, idle, None, signals)?;
    match signals.schema_differs.share() {
        Ok(schema_differs) => Ok(listening.with_schema_flag(schema_differs)),
        Err(_) => Err(OUT_OF_MEMORY),
    }
}

/// The ending when an address can't be listened on: out of memory, or a bad address, which is
/// reported with the system's reason.
fn ending_of(rt: &impl Eprint, address: &str, error: &io::Error) -> Ending {
    match error.kind() {
        ErrorKind::OutOfMemory => OUT_OF_MEMORY,
        _ => {
            // If this can't be printed, the ending still says that an address is bad.
            let _printed = eprintln!(rt; "rr: {address}: {error}");
            Ending::BadAddress
        }
    }
}

/// Listens on an address until the flag is raised, or for an interval if one is given. Connections
/// may be silent for the idle time; the first is taken once all threads have begun.
fn listen_at(
    rt: &(impl AllocGlobal + Eprint + Net<Listener = TcpListener, Stream = TcpStream>),
    address: &str,
    idle: Option<u64>,
    every: Option<u64>,
    signals: &Signals,
) -> Result<Listening, Ending> {
    let Ok(waiting) = signals.waiting(every) else {
        return Err(OUT_OF_MEMORY);
    };
    let listener = match TcpListener::bind(rt, address) {
        Ok(listener) => listener,
        Err(error) => return Err(ending_of(rt, address, &error)),
    };
    match Listening::new(rt.alloc(), listener, idle, waiting) {
        Ok(listening) => Ok(listening),
        Err(error) => Err(ending_of(rt, address, &error)),
    }
}
