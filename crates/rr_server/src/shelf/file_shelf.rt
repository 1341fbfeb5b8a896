//! Snapshots in a file.

use super::replaced::Replaced;
use super::save_file::SaveFile;
use rr_io::Counted;
use rr_node::{NodeFault, Opening, Report, Shelf};
use rr_snapshot::SaveFault;
use std::alloc::{AllocError, Global};
use std::io;
use std::io::BufWriter;
use std::rt::Files;

/// Saves snapshots to a file, if one is named, and prints failures on standard error:
/// `peer I: NAME` for a peer, counted from 1; `peer I: own origin` once for a peer that has cells
/// of the node's own origin that the node never wrote; and `save: NAME` after a line with the file
/// and the reason.
///
/// A snapshot is written to a file beside, whose name ends in `.new`, and then renamed, so that the
/// file has the last snapshot or the new one, however the process ends. File and folder are synced,
/// so that this holds after a power loss too, if the disk keeps what it says it has.
#[derive(Drop)]
pub struct FileShelf<'a, R> {
    rt: &'a R,
    file: Option<Replaced<'a, R>>,
    /// The numbers of the peers for which `own origin` was printed.
    met: Vec<usize>,
}

impl<'a, R: Files + Eprint> FileShelf<'a, R> {
    /// A shelf that saves to a file, or to none.
    pub fn new(
        rt: &'a R,
        alloc: Global,
        path: Option<&str>,
    ) -> Result<FileShelf<'a, R>, AllocError> {
        let file = match path {
            Some(path) => Some(Replaced::new(rt, alloc, path)?),
            None => None,
        };
        Ok(FileShelf {
            rt,
            file,
            met: Vec::new(alloc),
        })
    }

    /// Durably replaces the last snapshot with one that is written whole.
    fn keep(&self, file: &Replaced<'a, R>, written: BufWriter<R::File>) -> io::Result<()> {
        file.replace(written)?;
        file.sync_folder()
    }
}

impl<R: Files + Eprint> Shelf for FileShelf<'_, R> {
    ghost use Rattle.std.specs.Prelude.{[], ◌∷◌, None};
    ghost use Rattle.rr_host.specs.Calls.{Grows};
    ghost use Rattle.rr_host.specs.Streams.{output_of};
    ghost use Rattle.rr_node.specs.Shelf.{counts, put_back};

    type Output = SaveFile<R::File>;

    ghost calls = { λ s. None };

    fn lines_taken(&mut self, _report: Option<Report>) {}

    fn own_origin(&mut self, number: usize) {
        if self.met.contains(&number) {
            return;
        }
        // If there is no memory to note it, it is printed again.
        let _noted = self.met.push(number);
        // If this can't be printed, there is no one to tell.
        let _printed = eprintln!(self.rt; "peer {number}: own origin");
    }

    fn peer_failed(&mut self, number: usize, fault: NodeFault) {
        let name = fault.name();
        // If this can't be printed, there is no one to tell.
        let _printed = eprintln!(self.rt; "peer {number}: {name}");
    }

    fn past_horizon(&mut self, _samples: u64) {}

    fn counts_cells(&mut self) -> bool
        ensures { Grows None None (counts result ∷ []) }
    {
        false
    }

    fn pulls_ended(&mut self, _cells: Option<usize>) {}

    fn open(&mut self) -> Opening<SaveFile<R::File>> {
        let Some(file) = &self.file else {
            return Opening::Unwanted;
        };
        match file.create() {
            Ok(output) => Opening::Writer(Counted::new(output)),
            Err(error) => {
                file.print_reason(&error);
                file.remove_beside();
                Opening::Failed
            }
        }
    }

    fn take_back(&mut self, output: Counted<SaveFile<R::File>>, whole: bool)
        ensures { Grows None None (put_back (output_of (λ _. None) output) whole ∷ []) }
    {
        let Some(file) = &self.file else {
            return;
        };
        let written = output.into_inner();
        if !whole {
            if let Some(error) = written.into_failure() {
                file.print_reason(&error);
            }
            file.remove_beside();
            return;
        }
        if let Err(error) = self.keep(file, written.into_file()) {
            file.print_reason(&error);
            file.remove_beside();
            self.save_failed(SaveFault::WriteFailed);
        }
    }

    fn save_failed(&mut self, fault: SaveFault) {
        let name = fault.name();
        // If this can't be printed, there is no one to tell.
        let _printed = eprintln!(self.rt; "save: {name}");
    }
}
