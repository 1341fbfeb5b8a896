//! Where a node's connections are served, and its work there.

use crate::listeners::{Listeners, Signals};
use crate::seats::TcpSeats;
use crate::server::OUT_OF_MEMORY;
use crate::tcp::Listening;
use crate::tools::Tools;
use rr_config::Config;
use rr_desk::{Keeper, Reader};
use rr_node::{OpenGate, Seat, serve_node};
use rr_packed::PackedArchive;
use rr_process::Ending;
use std::alloc::{AllocError, Global};
use std::net::{Net, TcpStream};
use std::rt::Files;
use std::sync::Wait;
use std::thread::Threads;
use std::time::Clock;

/// Where the connections of a node are served.
#[derive(Drop)]
pub(crate) struct Endpoints {
    pub(crate) lines: Listening,
    pub(crate) seats: TcpSeats,
    pub(crate) signals: Signals,
}

/// A seat for each reader, with the connections of its address.
fn seats(
    alloc: Global,
    readers: Vec<Reader<PackedArchive>>,
    fetches: Vec<Listening>,
) -> Result<Vec<Seat<PackedArchive, Listening, OpenGate>>, AllocError> {
    let mut seats = Vec::new(alloc);
    for (reader, visits) in readers.into_iter().zip(fetches) {
        let gate = OpenGate::new();
        seats.push(Seat {
            reader,
            visits,
            gate,
        })?;
    }
    Ok(seats)
}

impl Endpoints {
    /// The listeners of a node, with a reader for each fetch address.
    pub(crate) fn new(
        alloc: Global,
        readers: Vec<Reader<PackedArchive>>,
        listeners: Listeners,
    ) -> Result<Endpoints, AllocError> {
        let Listeners {
            lines,
            fetches,
            signals,
        } = listeners;
        let halt = signals.halt.share()?;
        let seats = seats(alloc, readers, fetches)?;
        Ok(Endpoints {
            lines,
            seats: TcpSeats { seats, halt },
            signals,
        })
    }
}

/// Serves with a keeper and its readers' seats, until the flag that they share is raised.
pub(crate) fn work<R>(
    alloc: Global,
    keeper: &mut Keeper<PackedArchive>,
    lines: &mut Listening,
    seats: &mut TcpSeats,
    tools: &mut Tools<'_, '_, R>,
    config: &Config,
    rt: &R,
) -> Ending
where
    R: Files + Eprint + Net<Stream = TcpStream> + Clock + Threads + Wait + Sync,
{
    match serve_node(
        alloc,
        keeper,
        lines,
        &mut tools.dial,
        &mut tools.shelf,
        seats,
        &mut tools.halt,
        &mut tools.clock,
        config,
        rt,
    ) {
        Ok(()) => Ending::Done,
        Err(_) => OUT_OF_MEMORY,
    }
}
