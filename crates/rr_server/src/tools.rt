//! What the keeper of a node works with.

use crate::clock::SystemClock;
use crate::listeners::Signals;
use crate::program::lent;
use crate::shelf::{FileShelf, PacedShelf, RoundLog};
use crate::signals::HaltFlag;
use crate::tcp::{Calling, PacedDial};
use rr_config::Config;
use std::alloc::AllocError;
use std::net::{Net, TcpStream};
use std::rt::Files;
use std::time::Clock;

/// What the keeper of a node works with, besides its visits and its seats.
#[derive(Drop)]
pub(crate) struct Tools<'c, 'a, R> {
    /// Calls the peers.
    pub(crate) dial: PacedDial<'c, R, Calling<'a, R>>,
    /// Takes the snapshots.
    pub(crate) shelf: PacedShelf<'a, R, FileShelf<'a, R>>,
    /// The flag that ends everything.
    pub(crate) halt: HaltFlag,
    /// The time.
    pub(crate) clock: SystemClock<&'a R>,
}

/// A dial that calls each peer at most once an interval.
fn dial<'c, 'a, R: AllocGlobal + Net<Stream = TcpStream> + Clock>(
    rt: &'a R,
    config: &'c Config,
    halt: &HaltFlag,
) -> Result<PacedDial<'c, R, Calling<'a, R>>, AllocError>
where
    'a: 'c,
{
    let alloc = rt.alloc();
    let calling = Calling::new(rt, alloc, config.idle, halt.share()?);
    PacedDial::new(rt, alloc, calling, config.every, &config.peers)
}

/// The log of rounds.
fn log<'a, R: AllocGlobal + Files + Eprint + Clock>(
    rt: &'a R,
    config: &Config,
) -> Result<RoundLog<'a, R>, AllocError> {
    let prints = config.every.is_some() && !config.quiet;
    RoundLog::new(rt, rt.alloc(), prints, lent(&config.status))
}

impl<'c, 'a, R> Tools<'c, 'a, R>
where
    R: AllocGlobal + Files + Eprint + Net<Stream = TcpStream> + Clock,
    'a: 'c,
{
    /// The tools of a keeper. Its shelf takes snapshots at most once an interval unless one is
    /// requested, and says so if a peer of another schema pulled.
    pub(crate) fn new(
        rt: &'a R,
        config: &'c Config,
        save: Option<&str>,
        signals: Signals,
    ) -> Result<Tools<'c, 'a, R>, AllocError> {
        let dial = dial(rt, config, &signals.halt)?;
        let files = FileShelf::new(rt, rt.alloc(), save)?;
        let log = log(rt, config)?;
        let Signals {
            halt,
            save_requested,
            schema_differs,
            ..
        } = signals;
        Ok(Tools {
            dial,
            shelf: PacedShelf::new(rt, files, config.every, save_requested, schema_differs, log),
            halt,
            clock: SystemClock::new(rt),
        })
    }
}
