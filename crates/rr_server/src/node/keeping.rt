//! The keeper of a node: batches of writes, taken, committed and answered.

use crate::files::tell;
use crate::node::arrivals::Arrivals;
use crate::node::logbook::Logbook;
use crate::node::numbers::Numbers;
use crate::node::origins::{DirectoryNames, OwnOrigins};
use crate::node::shared::{Answered, Desired, Shared};
use crate::server::OUT_OF_MEMORY;
use rr_batch::{
    Answers, BatchFault, TakenOrigin, Waiting, Writer, brings_lines, commit_batch, commit_origin,
    take_origin,
};
use rr_command_line::PRODUCT;
use rr_commit::ChangesFault;
use rr_desk::Keeper;
use rr_directory::FileName;
use rr_files::DataDirectory;
use rr_host::Clock;
use rr_journal::{Journal, commit};
use rr_packed::PackedArchive;
use rr_process::Ending;
use rr_reactor::{Answer, Item, Queues};
use std::alloc::{AllocError, Global};
use std::fs::OpenFile;
use std::io::{Seek, Write};
use std::rt::Files;
use std::sync::Wait;
use std::time;
use std::time::Duration;

/// A batch of this many bytes takes no further item: 8 MiB.
const BATCH: usize = 8 * 1024 * 1024;

/// What the keeper remembers from batch to batch.
#[derive(Drop)]
pub(crate) struct Keeping<F> {
    pub(crate) alloc: Global,
    pub(crate) writer: Writer,
    pub(crate) logbook: Logbook<F>,
    pub(crate) origins: OwnOrigins,
    /// A descriptor that is let go of when the origin is named, which needs one.
    pub(crate) spare: Option<F>,
    pub(crate) numbers: Numbers,
    pub(crate) shared: Shared,
    pub(crate) arrivals: Arrivals,
    /// Whether what the keeper holds is in the journal.
    pub(crate) is_saved: bool,
}

/// Whether a record is in the journal. If it isn't written, a later one may be; after any other
/// fault the node can't go on.
pub(crate) fn is_written(committed: Result<(), ChangesFault>) -> Result<bool, BatchFault> {
    match committed {
        Ok(()) => Ok(true),
        Err(ChangesFault::NotWritten) => Ok(false),
        Err(ChangesFault::NotSynced) => Err(BatchFault::NotSynced),
        Err(ChangesFault::Memory) => Err(BatchFault::Memory),
    }
}

/// The waiting items, until they reach the size of a batch; none if none comes in time.
fn gather<R: Wait + time::Clock>(
    rt: &R,
    alloc: Global,
    queues: &Queues,
    timeout: Duration,
) -> Result<Vec<Item>, AllocError> {
    let mut items = Vec::new(alloc);
    let mut bytes = 0usize;
    let mut timeout = timeout;
    for _ in 0..u64::MAX {
        if bytes >= BATCH {
            break;
        }
        let Some(item) = queues.writes.take(rt, timeout) else {
            break;
        };
        bytes = bytes.saturating_add(item.work.held()).saturating_add(1);
        items.push(item)?;
        timeout = Duration::ZERO;
    }
    Ok(items)
}

/// Takes the lines of items, if the origin is taken.
fn take_all<C: Clock, R: Wait>(
    rt: &R,
    alloc: Global,
    taken: Option<TakenOrigin>,
    writer: &mut Writer,
    items: Vec<Item>,
    keeper: &mut Keeper<PackedArchive>,
    clock: &mut C,
) -> Result<Vec<Waiting>, BatchFault> {
    let mut batch = Vec::with_capacity(alloc, items.len())?;
    for item in items {
        let waiting = match &taken {
            Some(taken) => writer.take(*taken, item, keeper, clock, rt)?,
            None => writer.put_off(&item)?,
        };
        batch.push(waiting)?;
    }
    Ok(batch)
}

/// Whether an item may bring a sample.
fn bring_lines(items: &[Item]) -> bool {
    items.iter().any(|item: &Item| brings_lines(&item.work))
}

/// Counts answers, and hands them on.
fn answer_all<R: Wait>(rt: &R, shared: &Shared, answers: Vec<Answer>) {
    let queues: &Queues = &shared.queues;
    let answered: &Answered = &shared.answered;
    for answer in answers {
        answered.count_answer(&answer);
        queues.answer(rt, answer);
    }
}

impl<F: Write + Seek + OpenFile + Drop> Keeping<F> {
    /// Commits a batch.
    fn commit<R: Files<File = F> + Wait>(
        &mut self,
        rt: &R,
        keeper: &mut Keeper<PackedArchive>,
        batch: Vec<Waiting>,
    ) -> Result<Answers, BatchFault> {
        let logbook = &mut self.logbook;
        commit_batch(
            self.alloc,
            batch,
            PRODUCT,
            keeper,
            &mut logbook.journal,
            &mut logbook.cursor,
            rt,
        )
    }

    /// Notes whether anything can be acknowledged, and tells the operator when that changes.
    fn tell_health<R: Eprint + time::Clock>(&mut self, rt: &R, path: &str) {
        let was_failing = self.shared.is_failing.is_raised();
        if self.is_saved {
            self.numbers.is_synced(rt);
            if was_failing {
                self.shared.is_failing.take();
                tell(rt, path, "the journal is written again");
            }
            return;
        }
        self.numbers.append_failed();
        if !was_failing {
            self.shared.is_failing.raise();
            let text = "the journal can't be written: nothing is acknowledged until it can";
            tell(rt, path, text);
        }
    }

    /// Notes how the last checkpoint ended.
    fn note_checkpoint<R: Wait + time::Clock>(&mut self, rt: &R) {
        let checkpoints: &Desired = &self.shared.checkpoints;
        let Some(ended) = checkpoints.ended(rt) else {
            return;
        };
        self.logbook.is_asked = false;
        if let Some(bytes) = ended {
            self.logbook.checkpoint = bytes;
            self.numbers.checkpoint_ended(rt, bytes);
        }
    }

    /// Takes the origin of this start, if it isn't taken and is needed: by these items, or by some
    /// that were put off.
    fn take_origin<R: Files<File = F> + Eprint>(
        &mut self,
        rt: &R,
        path: &str,
        items: &[Item],
    ) -> Result<(), BatchFault> {
        let was_put_off = self.shared.is_without_origin.is_raised();
        if self.origins.taken.is_some() || !(was_put_off || bring_lines(items)) {
            return Ok(());
        }
        let (alloc, next) = (self.alloc, self.origins.next);
        self.spare = None;
        let mut names = DirectoryNames { rt, alloc, path };
        let logbook = &mut self.logbook;
        let (journal, cursor) = (&mut logbook.journal, &mut logbook.cursor);
        match take_origin(alloc, next, &mut names, journal, cursor) {
            Ok(taken) => {
                self.origins.taken = Some(taken);
                self.numbers.has_origin(next);
                if was_put_off {
                    self.shared.is_without_origin.take();
                    tell(rt, path, "the origin is recorded: lines are taken again");
                }
            }
            Err(fault) => {
                is_written(Err(fault))?;
                if !was_put_off {
                    self.shared.is_without_origin.raise();
                    let text = "the origin can't be recorded: no line is taken until it can";
                    tell(rt, path, text);
                }
            }
        }
        Ok(())
    }

    /// Records the greatest origin that is taken and how far peers' journals are read, and returns
    /// whether that is saved. The files with the first of these records go with the checkpoint that
    /// makes them needless, so the next file has them too.
    fn record_again(&mut self) -> Result<bool, BatchFault> {
        let logbook = &mut self.logbook;
        let (journal, cursor) = (&mut logbook.journal, &mut logbook.cursor);
        let is_kept = match self.origins.greatest() {
            Some(origin) => is_written(commit_origin(self.alloc, origin, journal, cursor))?,
            None => true,
        };
        let is_recorded = is_kept && self.arrivals.record(journal, cursor)?;
        self.shared.is_synced_to(logbook.cursor.offset);
        Ok(is_recorded)
    }

    /// If a checkpoint is due, begins another journal file and asks for the checkpoint. If the file
    /// can't be made, the journal goes on in the current one; if it can't be written, no checkpoint
    /// is asked for.
    fn ask_for_checkpoint<R: Files<File = F> + Eprint + Wait>(
        &mut self,
        rt: &R,
        path: &str,
        keeper: &Keeper<PackedArchive>,
    ) -> Result<(), BatchFault> {
        if !self.is_saved || !self.logbook.is_due() {
            return Ok(());
        }
        let begins = self.logbook.cursor;
        self.logbook.since = begins.offset;
        let directory = DataDirectory::at(rt, path);
        let key = self.logbook.journal.key();
        match directory.create_journal(self.alloc, &begins, keeper.schema(), key) {
            Ok(journal) => {
                self.logbook.journal = journal;
                self.logbook.name = FileName::Journal(begins.offset);
                if self.record_again()? {
                    self.logbook.is_asked = true;
                    let checkpoints: &Desired = &self.shared.checkpoints;
                    checkpoints.ask(rt, begins);
                }
            }
            Err(error) => tell(rt, path, error),
        }
        Ok(())
    }

    /// Takes items, commits and answers them.
    fn take<C: Clock, R: Files<File = F> + Eprint + Wait + time::Clock>(
        &mut self,
        rt: &R,
        path: &str,
        keeper: &mut Keeper<PackedArchive>,
        clock: &mut C,
        items: Vec<Item>,
    ) -> Result<(), BatchFault> {
        self.logbook.see(rt, self.alloc, path);
        self.take_origin(rt, path, &items)?;
        let (alloc, taken) = (self.alloc, self.origins.taken);
        let batch = take_all(rt, alloc, taken, &mut self.writer, items, keeper, clock)?;
        self.numbers.count_bodies(&batch);
        let Answers { answers, is_saved } = self.commit(rt, keeper, batch)?;
        self.is_saved = is_saved;
        self.shared.is_synced_to(self.logbook.cursor.offset);
        self.tell_health(rt, path);
        answer_all(rt, &self.shared, answers);
        self.ask_for_checkpoint(rt, path, keeper)
    }

    /// Records how far peers' journals are read, if everything joined is saved.
    fn settle<R: Wait>(&mut self, rt: &R) -> Result<(), BatchFault> {
        if !self.is_saved {
            return Ok(());
        }
        let logbook = &mut self.logbook;
        let (journal, cursor) = (&mut logbook.journal, &mut logbook.cursor);
        if !self.arrivals.settle(rt, journal, cursor)? {
            self.numbers.append_failed();
        }
        self.shared.is_synced_to(logbook.cursor.offset);
        Ok(())
    }

    /// Writes a witness behind the last batch, if none is there yet: it shows a later start that the
    /// batch was synced. If that can't be written now, it is tried again.
    fn witness(&mut self) -> Result<(), BatchFault> {
        let logbook = &mut self.logbook;
        if !self.is_saved || !logbook.lacks_witness() {
            return Ok(());
        }
        let witnessed = match commit(&mut logbook.journal, &mut logbook.cursor, &[]) {
            Ok(()) => Ok(()),
            Err(fault) => Err(ChangesFault::from(fault)),
        };
        if is_written(witnessed)? {
            logbook.witnessed = logbook.cursor.offset;
            self.shared.is_synced_to(logbook.cursor.offset);
        }
        Ok(())
    }

    /// Posts the numbers as they stand, then takes, commits and answers what is waiting. If nothing
    /// comes within a second, the last batch gets its witness.
    fn round<C: Clock, R: Files<File = F> + Eprint + Wait + time::Clock>(
        &mut self,
        rt: &R,
        path: &str,
        keeper: &mut Keeper<PackedArchive>,
        clock: &mut C,
    ) -> Result<(), BatchFault> {
        let offset = self.logbook.cursor.offset;
        let (writer, arrivals) = (&self.writer, &self.arrivals);
        self.numbers.post(
            rt,
            self.alloc,
            keeper,
            writer,
            arrivals,
            offset,
            &self.shared,
        );
        let timeout = if self.arrivals.has_left() {
            Duration::ZERO
        } else {
            Duration::from_secs(1)
        };
        let items = gather(rt, self.alloc, &self.shared.queues, timeout)?;
        let is_own_elsewhere = &self.shared.is_own_elsewhere;
        let origin = self.origins.next;
        let has_more = self.arrivals.join(rt, keeper, origin, is_own_elsewhere)?;
        let is_behind = !self.is_saved || self.shared.is_without_origin.is_raised();
        if has_more || !items.is_empty() || is_behind {
            self.take(rt, path, keeper, clock, items)?;
        } else {
            self.witness()?;
        }
        self.settle(rt)?;
        self.note_checkpoint(rt);
        Ok(())
    }

    /// Whether another thread of the node has ended.
    fn is_halted(&self) -> bool {
        let queues: &Queues = &self.shared.queues;
        queues.is_halted()
    }

    /// Runs the keeper until the node can't go on or another of its threads has ended.
    pub(crate) fn serve<C: Clock, R: Files<File = F> + Eprint + Wait + time::Clock>(
        &mut self,
        rt: &R,
        path: &str,
        keeper: &mut Keeper<PackedArchive>,
        clock: &mut C,
    ) -> Ending {
        for _ in 0..u64::MAX {
            if self.is_halted() {
                break;
            }
            match self.round(rt, path, keeper, clock) {
                Ok(()) => {}
                Err(BatchFault::NotSynced) => {
                    let text =
                        "the journal can't be synced: the next start reads what the disk has";
                    tell(rt, path, text);
                    break;
                }
                Err(BatchFault::Memory) => return OUT_OF_MEMORY,
            }
        }
        Ending::Stopped
    }
}
