//! A running node: a keeper and its readers, over TCP.

use crate::endpoints::{Endpoints, work};
use crate::files::{check_folder, first_replica, read_config, tell_replaced};
use crate::greeting::greeting;
use crate::listeners::Listeners;
use crate::tools::Tools;
use rr_config::Config;
use rr_desk::{Keeper, Reader, open};
use rr_packed::PackedArchive;
use rr_process::{Ending, ToolFault};
use rr_replica::Replica;
use rr_schema::Origin;
use std::alloc::AllocError;
use std::net::{Net, TcpListener, TcpStream};
use std::random::RandomSource;
use std::rt::Files;
use std::sync::Wait;
use std::thread::Threads;
use std::time::Clock;

/// The ending when memory runs out.
pub(crate) const OUT_OF_MEMORY: Ending = Ending::Failed(ToolFault::Memory);

/// A node to serve, and the file it saves to.
#[derive(Drop)]
pub(crate) struct Server<'a, R> {
    pub(crate) rt: &'a R,
    pub(crate) config: Config,
    pub(crate) save: Option<&'a str>,
}

impl<'a, R> Server<'a, R>
where
    R: AllocGlobal
        + Files
        + Eprint
        + Net<Listener = TcpListener, Stream = TcpStream>
        + Clock
        + RandomSource
        + Threads
        + Wait
        + Sync,
{
    /// A server configured by a file, which saves to another if one is named.
    pub(crate) fn new(
        rt: &'a R,
        config: &str,
        save: Option<&'a str>,
    ) -> Result<Server<'a, R>, Ending> {
        let config = read_config(rt, config)?;
        Ok(Server { rt, config, save })
    }

    /// Begins with the snapshot in a file, or empty, listens, and serves until all rounds and
    /// visits are done. Doesn't begin if the folder to save snapshots to is missing; if it begins
    /// empty, tells the operator of a snapshot there that it will replace.
    pub(crate) fn serve(&self, origin: Origin, load: Option<&str>) -> Result<Ending, Ending> {
        if let Some(file) = self.save {
            check_folder(self.rt, file)?;
            if load.is_none() {
                tell_replaced(self.rt, file);
            }
        }
        let replica = first_replica(self.rt, &self.config.schema, origin, load)?;
        let listeners = Listeners::bind(self.rt, &self.config)?;
        self.greet(&replica)?;
        Ok(self.serve_replica(replica, listeners))
    }

    /// Prints what it starts with, unless it is to be quiet.
    fn greet(&self, replica: &Replica<PackedArchive>) -> Result<(), Ending> {
        if self.config.quiet {
            return Ok(());
        }
        let Ok(line) = greeting(self.rt.alloc(), &self.config, replica) else {
            return Err(OUT_OF_MEMORY);
        };
        // If it can't be printed, the node serves all the same.
        let _printed = self.rt.eprintln(line.as_str());
        Ok(())
    }

    /// Opens a desk over a replica, with a reader for each fetch address, and serves with it.
    fn serve_replica(&self, replica: Replica<PackedArchive>, listeners: Listeners) -> Ending {
        let readers = listeners.fetches.len();
        let Ok((mut keeper, readers)) = open(self.rt.alloc(), self.rt, replica, readers) else {
            return OUT_OF_MEMORY;
        };
        let served = self.serve_desk(&mut keeper, readers, listeners);
        keeper.close(self.rt);
        match served {
            Ok(ending) => ending,
            Err(_) => OUT_OF_MEMORY,
        }
    }

    /// Serves with a keeper, which takes the lines, and with its readers.
    fn serve_desk(
        &self,
        keeper: &mut Keeper<PackedArchive>,
        readers: Vec<Reader<PackedArchive>>,
        listeners: Listeners,
    ) -> Result<Ending, AllocError> {
        let alloc = self.rt.alloc();
        let Endpoints {
            mut lines,
            mut seats,
            signals,
        } = Endpoints::new(alloc, readers, listeners)?;
        let mut tools = Tools::new(self.rt, &self.config, self.save, signals)?;
        Ok(work(
            alloc,
            keeper,
            &mut lines,
            &mut seats,
            &mut tools,
            &self.config,
            self.rt,
        ))
    }
}
