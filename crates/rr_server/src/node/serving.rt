//! A node, from its configuration to its end.

ghost use Rattle.std.specs.Thread.{IsSync};

use crate::clock::SystemClock;
use crate::files::read_node_config;
use crate::greeting::node_greeting;
use crate::node::arrivals::Arrivals;
use crate::node::keeping::Keeping;
use crate::node::listening::listen;
use crate::node::numbers::Numbers;
use crate::node::process::second_of;
use crate::node::runtime::ThreadRuntime;
use crate::node::shared::Shared;
use crate::node::start::{Beginning, Started, open_directory, start};
use crate::node::threads::{Served, links_of};
use crate::node::worker::Workers;
use crate::server::OUT_OF_MEMORY;
use rr_batch::Writer;
use rr_config::NodeConfig;
use rr_desk::{Keeper, Reader, open};
use rr_files::TryLock;
use rr_host::Clock;
use rr_packed::PackedArchive;
use rr_process::Ending;
use rr_reactor::Reactor;
use rr_replica::Replica;
use std::alloc::AllocError;
use std::net::Net;
use std::random::RandomSource;
use std::rt::Files;
use std::thread::join_mut;

/// Prints what a node starts with, unless it is to be quiet.
fn greet(
    rt: &(impl AllocGlobal + Eprint),
    config: &NodeConfig,
    replica: &Replica<PackedArchive>,
) -> Result<(), Ending> {
    if config.quiet {
        return Ok(());
    }
    let Ok(line) = node_greeting(rt.alloc(), config, replica) else {
        return Err(OUT_OF_MEMORY);
    };
    // If it can't be printed, the node serves all the same.
    let _printed = rt.eprintln(line.as_str());
    Ok(())
}

/// Serves with a keeper, and with workers on threads of their own, until one ends.
fn serve_all<C: Clock, R: Files + ThreadRuntime>(
    rt: &R,
    path: &str,
    keeper: &mut Keeper<PackedArchive>,
    clock: &mut C,
    keeping: &mut Keeping<R::File>,
    workers: &mut Workers,
    shared: &Shared,
) -> Ending {
    let mut working = || -> ()
        requires { IsSync R.row }
    { workers.work(rt) };
    let mut keep = || -> Ending {
        let ending = keeping.serve(rt, path, keeper, clock);
        shared.end();
        ending
    };
    let (_, ending) = join_mut(rt, &mut working, &mut keep);
    ending
}

/// Serves a started node with a keeper, until a thread ends.
fn serve_keeper<R: AllocGlobal + Files + ThreadRuntime>(
    rt: &R,
    config: &NodeConfig,
    path: &str,
    beginning: Beginning<R::File>,
    reactor: Reactor,
    keeper: &mut Keeper<PackedArchive>,
    readers: Vec<Reader<PackedArchive>>,
) -> Result<Ending, AllocError> {
    let alloc = rt.alloc();
    let Ok(queues) = reactor.queues() else {
        return Err(AllocError);
    };
    let Beginning {
        logbook,
        origins,
        spare,
        cursors,
    } = beginning;
    let shared = Shared::new(alloc, queues, logbook.cursor.offset)?;
    let links = links_of(alloc, rt, config)?;
    let served = Served {
        alloc,
        path,
        schema: &config.schema,
        cursor: &logbook.cursor,
        shared: &shared,
    };
    let mut workers = Workers {
        workers: served.workers(reactor, readers, &links, &cursors)?,
        shared: shared.share()?,
    };
    let clock = &mut SystemClock::behind(rt);
    let mut keeping = Keeping {
        alloc,
        writer: Writer::new(alloc, config.precision, config.lead),
        logbook,
        origins,
        spare,
        numbers: Numbers::new(second_of(clock)),
        shared: shared.share()?,
        arrivals: Arrivals::new(alloc, links, cursors)?,
        is_saved: true,
    };
    let (keeping, workers) = (&mut keeping, &mut workers);
    Ok(serve_all(rt, path, keeper, clock, keeping, workers, &shared))
}

/// Opens a desk over the replica of a started node, and serves until a thread ends.
fn serve_started<R: AllocGlobal + Files + ThreadRuntime>(
    rt: &R,
    config: &NodeConfig,
    path: &str,
    started: Started<R::File>,
    reactor: Reactor,
) -> Result<Ending, AllocError> {
    let Started { replica, beginning } = started;
    let readers = (config.readers as usize).saturating_add(1);
    let Ok((mut keeper, readers)) = open(rt.alloc(), rt, replica, readers) else {
        return Err(AllocError);
    };
    let desk = &mut keeper;
    let ending = serve_keeper(rt, config, path, beginning, reactor, desk, readers);
    keeper.close(rt);
    ending
}

/// Serves as a node from a directory, which begins with a snapshot if one is named. The
/// configuration in a file, the directory's lock, the addresses, which are tried, recovery, and the
/// listeners come in this order; the first fault ends it.
pub(crate) fn serve_node_of<R>(
    rt: &R,
    file: &str,
    path: &str,
    load: Option<&str>,
) -> Result<Ending, Ending>
where
    R: AllocGlobal + Files + Net + RandomSource + ThreadRuntime,
    R::File: TryLock,
{
    let config = read_node_config(rt, file)?;
    let (directory, lock) = open_directory(rt, path)?;
    // They are let go of while the directory is read: a request that waited meanwhile could be given
    // up, sent again, and then taken twice.
    drop(listen(rt, file, &config)?);
    let started = start(rt, &config, &directory, load)?;
    let reactor = listen(rt, file, &config)?;
    greet(rt, &config, &started.replica)?;
    let ending = serve_started(rt, &config, path, started, reactor);
    drop(lock);
    match ending {
        Ok(ending) => Ok(ending),
        Err(_) => Err(OUT_OF_MEMORY),
    }
}
