//! Makes the threads of a node ready.

use crate::node::checkpoints::Checkpoints;
use crate::node::giving::Giver;
use crate::node::handler::Handler;
use crate::node::link::PeerLink;
use crate::node::peer::Peer;
use crate::node::shared::Shared;
use crate::node::worker::Worker;
use rr_config::NodeConfig;
use rr_desk::Reader;
use rr_journal::Cursor;
use rr_packed::PackedArchive;
use rr_reactor::Reactor;
use rr_schema::Schema;
use std::alloc::{AllocError, Global};
use std::time::Clock;

/// What the workers are made from.
#[derive(Drop)]
pub(crate) struct Served<'a> {
    pub(crate) alloc: Global,
    /// The directory.
    pub(crate) path: &'a str,
    pub(crate) schema: &'a Schema,
    /// Where the journal ends at the start.
    pub(crate) cursor: &'a Cursor,
    pub(crate) shared: &'a Shared,
}

impl Served<'_> {
    /// The worker that writes checkpoints.
    fn checkpoints(&self, reader: Reader<PackedArchive>) -> Result<Worker, AllocError> {
        Ok(Worker::Checkpoints(Checkpoints {
            alloc: self.alloc,
            reader,
            shared: self.shared.share()?,
            path: String::from_str(self.alloc, self.path)?,
            counted: None,
        }))
    }

    /// A worker that answers read requests.
    fn handler(&self, reader: Reader<PackedArchive>) -> Result<Worker, AllocError> {
        Ok(Worker::Handler(Handler {
            alloc: self.alloc,
            reader,
            shared: self.shared.share()?,
            giver: Giver::new(self.alloc, self.path, &self.cursor.id, self.schema)?,
        }))
    }

    /// A worker that follows the peer of a link, whose journal may have been read before.
    fn peer(&self, link: &PeerLink, known: &[Cursor]) -> Result<Worker, AllocError> {
        let (alloc, shared) = (self.alloc, self.shared.share()?);
        let schema = self.schema.copy(alloc)?;
        let known = Vec::from_slice(alloc, known)?;
        let link = link.share(alloc)?;
        Ok(Worker::Peer(Peer::new(alloc, schema, known, link, shared)))
    }

    /// One worker for the sockets, one for checkpoints, which has the first reader, one for each
    /// other reader, and one for each peer.
    pub(crate) fn workers(
        &self,
        reactor: Reactor,
        readers: Vec<Reader<PackedArchive>>,
        links: &[PeerLink],
        known: &[Cursor],
    ) -> Result<Vec<Worker>, AllocError> {
        let mut workers = Vec::new(self.alloc);
        workers.push(Worker::Reactor(reactor))?;
        for reader in readers {
            let worker = if workers.len() == 1 {
                self.checkpoints(reader)?
            } else {
                self.handler(reader)?
            };
            workers.push(worker)?;
        }
        for link in links {
            workers.push(self.peer(link, known)?)?;
        }
        Ok(workers)
    }
}

/// The links to the peers of a configuration.
pub(crate) fn links_of(
    alloc: Global,
    clock: &impl Clock,
    config: &NodeConfig,
) -> Result<Vec<PeerLink>, AllocError> {
    let mut links = Vec::new(alloc);
    for (place, address) in config.peers.iter().enumerate() {
        links.push(PeerLink::new(alloc, clock, place + 1, address.as_str())?)?;
    }
    Ok(links)
}
