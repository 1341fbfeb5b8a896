//! Which files a start reads.
ghost use Rattle.std.specs.Prelude.{◌≡◌, IfOk, filter};
ghost use Rattle.rr_directory.specs.Start.{IsNewest, IsStart, checkpoint_offset, greater, is_needless, journal_from, names_from, names_of};

use crate::name::FileName;
use std::alloc::{AllocError, Global};

/// The files of a directory, by what a start does with them.
#[derive(Debug, Drop)]
pub struct Start {
    /// Those that are read, in this order: the newest checkpoint, if there is one, and the
    /// journal's files from its offset on.
    pub files: Vec<FileName>,
    /// Those from before the checkpoint: it makes them needless, and they may be removed.
    pub needless: Vec<FileName>,
}

impl FileName {
    /// The offset of a checkpoint.
    fn checkpoint_offset(self) -> Option<u64>
        ensures { result ≡ checkpoint_offset self }
    {
        match self {
            FileName::Checkpoint(offset) => Some(offset),
            FileName::Journal(_) => None,
        }
    }

    /// The offset of a file of the journal that begins at `from` or after it.
    fn journal_from(self, from: u64) -> Option<u64>
        ensures { result ≡ journal_from from self }
    {
        match self {
            FileName::Journal(offset) if offset >= from => Some(offset),
            _ => None,
        }
    }
}

/// The greater of two offsets, or the only one.
fn greater(one: Option<u64>, other: Option<u64>) -> Option<u64>
    ensures { result ≡ greater one other }
{
    match (one, other) {
        (Some(one), Some(other)) => Some(one.max(other)),
        (Some(one), None) => Some(one),
        (None, other) => other,
    }
}

/// The offset of the newest checkpoint.
fn newest(names: &[FileName]) -> Option<u64>
    ensures { IsNewest names.now result }
{
    let mut newest = None;
    for name in names {
        newest = greater(newest, name.checkpoint_offset());
    }
    newest
}

/// The offsets of the journal's files that begin at `from` or after it, as they come.
fn journals_from(alloc: Global, names: &[FileName], from: u64) -> Result<Vec<u64>, AllocError>
    ensures { IfOk result (λ offsets. offsets.items ≡ names_from from names.now) }
{
    names
        .iter()
        .filter_map(|name: &FileName| name.journal_from(from))
        .collect(alloc)
}

/// The files from before an offset.
fn names_before(alloc: Global, names: &[FileName], from: u64) -> Result<Vec<FileName>, AllocError>
    ensures { IfOk result (λ before. before.items ≡ filter (is_needless from) names.now) }
{
    names
        .iter()
        .copied()
        .filter(|name: &FileName| name.offset() < from)
        .collect(alloc)
}

/// The names of a checkpoint, if there is one, and of the journal's files that begin at offsets.
fn names_of(
    alloc: Global,
    checkpoint: Option<u64>,
    journals: &[u64],
) -> Result<Vec<FileName>, AllocError>
    ensures { IfOk result (λ files. files.items ≡ names_of checkpoint journals.now) }
{
    let mut files = Vec::new(alloc);
    if let Some(offset) = checkpoint {
        files.push(FileName::Checkpoint(offset))?;
    }
    for offset in journals {
        files.push(FileName::Journal(*offset))?;
    }
    Ok(files)
}

/// Which files of a directory a start reads, given the names of all: the newest checkpoint, if
/// there is one, and then all of the journal's files from its offset on, in order. The cost is that
/// of sorting them.
pub fn start_of(alloc: Global, names: &[FileName]) -> Result<Start, AllocError>
    ensures { IfOk result (IsStart names.now) }
{
    let checkpoint = newest(names);
    let from = checkpoint.unwrap_or(0);
    let mut journals = journals_from(alloc, names, from)?;
    journals.sort_unstable();
    Ok(Start {
        files: names_of(alloc, checkpoint, &journals)?,
        needless: names_before(alloc, names, from)?,
    })
}
