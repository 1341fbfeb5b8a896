//! What peers bring, as the keeper takes it.

use crate::node::keeping::is_written;
use crate::node::link::{PeerLink, Standing};
use crate::node::mailbox::{Delivery, Mailbox};
use crate::signals::Flag;
use rr_batch::{BatchFault, are_unwritten, commit_cursor, join_cells};
use rr_desk::Keeper;
use rr_files::JournalFile;
use rr_journal::Cursor;
use rr_packed::PackedArchive;
use rr_recovery::put_cursor;
use rr_schema::Origin;
use rr_web::PeerNumbers;
use std::alloc::{AllocError, Global};
use std::fs::OpenFile;
use std::io::{Seek, Write};
use std::sync::Wait;
use std::time::Clock;

/// The most cells of peers joined in a batch, so that lines don't wait longer.
const CELLS: usize = 8_192;

/// What one peer brought.
#[derive(Drop)]
struct Arrival {
    link: PeerLink,
    delivery: Option<Delivery>,
    /// How many of its cells are joined.
    joined: usize,
}

/// What peers brought, and how far their journals are read.
#[derive(Drop)]
pub(crate) struct Arrivals {
    alloc: Global,
    arrivals: Vec<Arrival>,
    /// How far each journal is read, by its id.
    cursors: Vec<Cursor>,
}

impl Arrival {
    /// Takes the waiting delivery, if the one taken before is done with, and returns whether it has
    /// cells of this origin, the node's own, that the node never wrote: then it is let go of, and
    /// the peer isn't followed any more.
    fn take<R: Eprint + Wait>(&mut self, rt: &R, origin: Origin, next: u64) -> bool {
        if self.delivery.is_some() {
            return false;
        }
        let mailbox: &Mailbox = &self.link.mailbox;
        let Some(delivery) = mailbox.take(rt) else {
            return false;
        };
        if are_unwritten(&delivery.cells, origin, next) {
            self.refuse(rt);
            return true;
        }
        self.delivery = Some(delivery);
        self.joined = 0;
        false
    }

    /// Follows the peer no more, since it has cells of the node's own origin.
    fn refuse<R: Eprint + Wait>(&mut self, rt: &R) {
        let standing: &Standing = &self.link.standing;
        standing.has_own();
        let number = self.link.number;
        // If this can't be printed, the peer isn't followed all the same.
        let _printed = eprintln!(rt; "peer {number}: own origin");
        self.finish(rt);
    }

    /// How many cells are left to join.
    fn left(&self) -> usize {
        match &self.delivery {
            Some(delivery) => delivery.cells.len().saturating_sub(self.joined),
            None => 0,
        }
    }

    /// Joins the next cells, at most this many.
    fn join(&mut self, keeper: &mut Keeper<PackedArchive>, most: usize) -> Result<(), AllocError> {
        let Some(delivery) = &self.delivery else {
            return Ok(());
        };
        let len = delivery.cells.len();
        let begin = self.joined.min(len);
        let end = begin.saturating_add(most).min(len);
        join_cells(&delivery.cells[begin..end], keeper)?;
        self.joined = end;
        Ok(())
    }

    /// Lets go of a delivery that is done with.
    fn finish<R: Wait>(&mut self, rt: &R) {
        self.delivery = None;
        let mailbox: &Mailbox = &self.link.mailbox;
        mailbox.done(rt);
    }

    /// Whether all cells of the delivery are joined.
    fn is_joined(&self) -> bool {
        self.delivery.is_some() && self.left() == 0
    }

    /// How far the peer's journal is read then.
    fn read(&self) -> Option<Cursor> {
        match &self.delivery {
            Some(delivery) => delivery.read,
            None => None,
        }
    }
}

impl Arrivals {
    /// With nothing brought yet by the peers of these links, and journals read up to these cursors.
    pub(crate) fn new(
        alloc: Global,
        links: Vec<PeerLink>,
        cursors: Vec<Cursor>,
    ) -> Result<Arrivals, AllocError> {
        let mut arrivals = Vec::with_capacity(alloc, links.len())?;
        for link in links {
            arrivals.push(Arrival {
                link,
                delivery: None,
                joined: 0,
            })?;
        }
        Ok(Arrivals {
            alloc,
            arrivals,
            cursors,
        })
    }

    /// Whether any cells taken are left to join.
    pub(crate) fn has_left(&self) -> bool {
        for arrival in &self.arrivals {
            if arrival.left() > 0 {
                return true;
            }
        }
        false
    }

    /// Joins the next cells that peers brought, at most an equal share from each, and returns
    /// whether there is anything to commit. Raises `is_own_elsewhere` if a peer has cells of this
    /// origin, the node's own, that the node never wrote.
    pub(crate) fn join<R: Eprint + Wait>(
        &mut self,
        rt: &R,
        keeper: &mut Keeper<PackedArchive>,
        origin: Origin,
        is_own_elsewhere: &Flag,
    ) -> Result<bool, AllocError> {
        let most = CELLS / self.arrivals.len().max(1);
        let mut has_more = false;
        for arrival in &mut self.arrivals {
            if arrival.take(rt, origin, keeper.next_number()) {
                is_own_elsewhere.raise();
            }
            has_more |= arrival.left() > 0;
            arrival.join(keeper, most)?;
        }
        Ok(has_more)
    }

    /// Records how far each journal is read once all that its peer brought is joined and saved, and
    /// tells the peer's thread. What can't be recorded now is recorded later; returns whether all
    /// is.
    pub(crate) fn settle<R: Wait, F: Write + Seek + OpenFile>(
        &mut self,
        rt: &R,
        journal: &mut JournalFile<F>,
        cursor: &mut Cursor,
    ) -> Result<bool, BatchFault> {
        let mut is_settled = true;
        for arrival in &mut self.arrivals {
            if !arrival.is_joined() {
                continue;
            }
            if let Some(read) = arrival.read() {
                if !is_written(commit_cursor(self.alloc, &read, journal, cursor))? {
                    is_settled = false;
                    continue;
                }
                put_cursor(&mut self.cursors, read)?;
            }
            arrival.finish(rt);
        }
        Ok(is_settled)
    }

    /// Records how far all journals are read, in a new journal file, and returns whether that is
    /// saved.
    pub(crate) fn record<F: Write + Seek + OpenFile>(
        &self,
        journal: &mut JournalFile<F>,
        cursor: &mut Cursor,
    ) -> Result<bool, BatchFault> {
        for read in &self.cursors {
            if !is_written(commit_cursor(self.alloc, read, journal, cursor))? {
                return Ok(false);
            }
        }
        Ok(true)
    }

    /// The numbers of the peers, as they stand.
    pub(crate) fn numbers<R: Wait + Clock>(&self, rt: &R) -> Result<Vec<PeerNumbers>, AllocError> {
        let mut numbers = Vec::with_capacity(self.alloc, self.arrivals.len())?;
        for arrival in &self.arrivals {
            numbers.push(arrival.link.numbers(rt, self.alloc)?)?;
        }
        Ok(numbers)
    }
}
