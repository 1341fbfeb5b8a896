//! The data directory of a node that isn't running, read for an operator.

mod folder;

use folder::Folder;
use rr_directory::{
    Directory, DirectoryFault, FileEnding, FileFault, FileName, Recovered, Refusal, any_schema,
    empty_replica, first_schema, own_refusal, push_cell, push_report, push_verdict, recover,
    start_of, survey,
};
use rr_files::key_in;
use rr_io::Counted;
use rr_io::stream::{flush, write_all};
use rr_journal::Key;
use rr_packed::PackedArchive;
use rr_process::{Ending, ToolFault, file_fault};
use rr_replica::{CellWalk, Replica};
use rr_schema::{Origin, Schema};
use rr_words::JournalWord;
use std::alloc::{AllocError, Global};
use std::io;
use std::io::Write;
use std::rt::Files;

/// How many bytes of records are held before they are written.
const PIECE: usize = 1 << 16;

/// What a node would have after a start: its replica, and what else was found.
type Started = Result<(Replica<PackedArchive>, Recovered), Refusal>;

/// The files of a directory, as a starting node reads them.
#[derive(Drop)]
struct StoppedNode<'a, R> {
    alloc: Global,
    folder: Folder<'a, R>,
    files: Vec<FileName>,
    schema: Schema,
    /// The key of the witnesses, if there is one.
    key: Option<Key>,
}

/// The fault of a run that a failed directory call ends.
fn directory_fault(fault: DirectoryFault) -> ToolFault {
    match fault {
        DirectoryFault::ReadFailed => ToolFault::ReadFailed,
        DirectoryFault::Memory => ToolFault::Memory,
    }
}

/// The fault of a run that a file's fault ends; none if the fault is the file's own.
fn run_fault(fault: FileFault) -> Option<ToolFault> {
    match fault {
        FileFault::ReadFailed => Some(ToolFault::ReadFailed),
        FileFault::Memory => Some(ToolFault::Memory),
        _ => None,
    }
}

/// The key of the witnesses of the directory at a path, if it has one.
fn key_of<R: Files + Eprint>(rt: &R, alloc: Global, path: &str) -> Result<Option<Key>, ToolFault> {
    match key_in(rt, alloc, path) {
        Ok(key) => Ok(key),
        Err(error) => Err(file_fault(rt, path, &error)),
    }
}

impl<'a, R: Files + Eprint> StoppedNode<'a, R> {
    /// The files of a directory, and the schema that the first whole header of them names.
    fn new(rt: &'a R, alloc: Global, path: &'a str) -> Result<StoppedNode<'a, R>, ToolFault> {
        let folder = Folder::new(rt, path);
        let names = match folder.names(alloc) {
            Ok(names) => names,
            Err(fault) => return Err(directory_fault(fault)),
        };
        let files = start_of(alloc, &names)?.files;
        let schema = match first_schema(alloc, &folder, &files) {
            Ok(Some(schema)) => schema,
            // There is no file, or the first one is refused.
            Ok(None) => any_schema(alloc)?,
            Err(fault) => return Err(run_fault(fault).unwrap_or(ToolFault::ReadFailed)),
        };
        Ok(StoppedNode {
            alloc,
            folder,
            files,
            schema,
            key: key_of(rt, alloc, path)?,
        })
    }

    /// What a node would have if it started under an origin that no file has anything of.
    fn start(&self) -> Result<Option<Started>, AllocError> {
        for number in (1..=u16::MAX).rev() {
            let Ok(origin) = Origin::new(number) else {
                continue;
            };
            let mut replica: Replica<PackedArchive> = empty_replica(
                self.alloc,
                &self.schema,
                origin,
            )?;
            match recover(
                self.alloc,
                &self.folder,
                &self.files,
                &self.schema,
                self.key,
                &mut replica,
            ) {
                Ok(recovered) => return Ok(Some(Ok((replica, recovered)))),
                Err(refusal) if refusal.fault == FileFault::OriginUsed => (),
                Err(refusal) => {
                    return Ok(Some(Err(own_refusal(self.alloc, &self.folder, refusal))));
                }
            }
        }
        Ok(None)
    }

    /// Writes a line for each file.
    fn write_reports<W: Write>(&self, output: &mut Counted<W>) -> Result<(), ToolFault> {
        for name in &self.files {
            let report = survey::<PackedArchive, _>(self.alloc, &self.folder, *name, self.key);
            if let FileEnding::Refused(fault) = report.ending
                && let Some(fault) = run_fault(fault)
            {
                return Err(fault);
            }
            let mut text = Vec::new(self.alloc);
            push_report(self.alloc, &mut text, &report)?;
            write_all(output, &text)?;
        }
        Ok(())
    }

    /// Writes the last line, and says whether a node would start.
    fn write_verdict<W: Write>(
        &self,
        output: &mut Counted<W>,
        refusal: Option<&Refusal>,
    ) -> Result<Ending, ToolFault> {
        let mut text = Vec::new(self.alloc);
        push_verdict(self.alloc, &mut text, refusal)?;
        write_all(output, &text)?;
        flush(output)?;
        Ok(match refusal {
            None => Ending::Done,
            Some(_) => Ending::DirectoryRefused,
        })
    }

    /// Writes the output of `check`.
    fn check<W: Write>(&self, output: &mut Counted<W>) -> Result<Ending, ToolFault> {
        self.write_reports(output)?;
        match self.start()? {
            Some(Err(refusal)) => match run_fault(refusal.fault) {
                Some(fault) => Err(fault),
                None => self.write_verdict(output, Some(&refusal)),
            },
            _ => self.write_verdict(output, None),
        }
    }

    /// Writes the record of each cell of a replica, in the order of their names.
    fn write_cells<W: Write>(
        &self,
        output: &mut Counted<W>,
        replica: &Replica<PackedArchive>,
    ) -> Result<Ending, ToolFault> {
        let mut walk = CellWalk::new(self.alloc, replica);
        let mut next = replica.cell_at(0);
        let mut text = Vec::new(self.alloc);
        for _ in 0..u64::MAX {
            let Some(cell) = next else {
                break;
            };
            push_cell(self.alloc, &mut text, &cell)?;
            if text.len() >= PIECE {
                write_all(output, &text)?;
                text.clear();
            }
            next = walk.next_cell(cell.key, cell.archive, cell.slot, cell.origin);
        }
        write_all(output, &text)?;
        flush(output)?;
        Ok(Ending::Done)
    }

    /// Writes the output of `cells`.
    fn cells<W: Write>(&self, output: &mut Counted<W>) -> Result<Ending, ToolFault> {
        match self.start()? {
            Some(Ok((replica, _))) => self.write_cells(output, &replica),
            Some(Err(refusal)) => match run_fault(refusal.fault) {
                Some(fault) => Err(fault),
                None => self.write_verdict(output, Some(&refusal)),
            },
            None => Ok(Ending::Done),
        }
    }
}

/// Reads a directory, writes what is asked of it to standard output, and returns how that ended. A
/// directory or a file that can't be read is named on standard error.
pub(crate) fn read_directory(
    rt: &(impl AllocGlobal + Files + Print + Eprint),
    what: JournalWord,
    path: &str,
) -> Ending {
    let mut output = Counted::new(io::writer(rt));
    let ended = match StoppedNode::new(rt, rt.alloc(), path) {
        Ok(node) => match what {
            JournalWord::Check => node.check(&mut output),
            JournalWord::Cells => node.cells(&mut output),
        },
        Err(fault) => Err(fault),
    };
    match ended {
        Ok(ending) => ending,
        Err(fault) => Ending::Failed(fault),
    }
}
