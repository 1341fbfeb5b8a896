//! Gives peers what they ask for.

use crate::node::shared::Shared;
use rr_connection::Reply;
use rr_directory::{Directory, FileName, start_of};
use rr_files::DataDirectory;
use rr_journal::DECIMALS;
use rr_replication::{MAX_PART, Part, part_from};
use rr_schema::Schema;
use rr_web::{Given, JournalPlace, PartQuery, part_query, part_response};
use std::alloc::{AllocError, Global};
use std::io;
use std::io::ErrorKind;
use std::rt::Files;
use std::sync::atomic::Ordering;

/// Reads the files of a journal on threads of their own: see
/// [`Checkpointing`](crate::node::Checkpointing).
pub trait JournalParts {
    /// The bytes given of the journal in the directory at a path, from an offset on. The journal is
    /// synced up to the offset `end`, and each of its files has a header of this many bytes.
    fn journal_part(
        &self,
        alloc: Global,
        path: &str,
        header: u64,
        end: u64,
        from: u64,
    ) -> io::Result<Given>;

    /// The bytes of the checkpoint that begins at an offset, or of the newest one, from a byte on.
    /// They are gone if the file ends before that.
    fn checkpoint_part(
        &self,
        alloc: Global,
        path: &str,
        begins: Option<u64>,
        from: u64,
    ) -> io::Result<Given>;
}

/// The names of the files of a directory.
fn names_in<R: Files>(
    alloc: Global,
    directory: &DataDirectory<'_, R>,
) -> io::Result<Vec<FileName>> {
    match directory.names(alloc) {
        Ok(names) => Ok(names),
        Err(_) => Err(io::Error::from(ErrorKind::NotFound)),
    }
}

/// The offsets at which the journal's files begin.
fn journal_offsets(alloc: Global, names: &[FileName]) -> Result<Vec<u64>, AllocError> {
    let mut offsets = Vec::new(alloc);
    for name in names {
        if let FileName::Journal(offset) = name {
            offsets.push(*offset)?;
        }
    }
    Ok(offsets)
}

/// The offset of the newest checkpoint, if there is one.
fn newest_checkpoint(alloc: Global, names: &[FileName]) -> Result<Option<u64>, AllocError> {
    match start_of(alloc, names)?.files.first() {
        Some(FileName::Checkpoint(offset)) => Ok(Some(*offset)),
        _ => Ok(None),
    }
}

/// Bytes of a file, if it is there.
fn given<R: Files>(
    alloc: Global,
    directory: &DataDirectory<'_, R>,
    name: FileName,
    from: u64,
    len: u64,
) -> io::Result<Given> {
    match directory.read_at(alloc, name, from, len)? {
        Some(bytes) => Ok(Given::Bytes(bytes)),
        None => Ok(Given::Gone),
    }
}

impl JournalParts for HostRuntime {
    fn journal_part(
        &self,
        alloc: Global,
        path: &str,
        header: u64,
        end: u64,
        from: u64,
    ) -> io::Result<Given> {
        if from == end {
            return Ok(Given::Nothing);
        }
        let directory = DataDirectory::at(self, path);
        let names = names_in(alloc, &directory)?;
        match part_from(&journal_offsets(alloc, &names)?, end, from) {
            Part::Bytes { file, skip, len } => {
                let from = header.saturating_add(skip);
                given(alloc, &directory, FileName::Journal(file), from, len)
            }
            Part::Nothing => Ok(Given::Nothing),
            Part::Gone => Ok(Given::Gone),
        }
    }

    fn checkpoint_part(
        &self,
        alloc: Global,
        path: &str,
        begins: Option<u64>,
        from: u64,
    ) -> io::Result<Given> {
        let directory = DataDirectory::at(self, path);
        let begins = match begins {
            Some(begins) => Some(begins),
            None => newest_checkpoint(alloc, &names_in(alloc, &directory)?)?,
        };
        let Some(begins) = begins else {
            return Ok(Given::Gone);
        };
        let name = FileName::Checkpoint(begins);
        let Ok(len) = directory.len(alloc, name) else {
            return Ok(Given::Gone);
        };
        if from == len {
            return Ok(Given::Nothing);
        }
        if from > len {
            return Ok(Given::Gone);
        }
        let len = len.saturating_sub(from).min(MAX_PART);
        given(alloc, &directory, name, from, len)
    }
}

/// Gives peers a node's journal and its checkpoints.
#[derive(Drop)]
pub(crate) struct Giver {
    alloc: Global,
    /// The directory.
    path: String,
    /// The id of the journal, and the schema, in hexadecimal digits.
    id: Vec<u8>,
    schema: Vec<u8>,
    /// The size of a file's header in bytes.
    header: u64,
}

impl Giver {
    /// A giver of the journal with this id, in the directory at a path.
    pub(crate) fn new(
        alloc: Global,
        path: &str,
        id: &[u8],
        schema: &Schema,
    ) -> Result<Giver, AllocError> {
        Ok(Giver {
            alloc,
            path: String::from_str(alloc, path)?,
            id: hex::encode(alloc, id)?.into_bytes(),
            schema: hex::encode(alloc, &schema.bytes(alloc)?)?.into_bytes(),
            header: rr_journal::header_len(schema) as u64,
        })
    }

    /// Whether a peer has another schema, or values with another number of decimals.
    fn differs(&self, asked: &PartQuery) -> bool {
        let other_schema = match &asked.schema {
            Some(schema) => schema.as_slice() != self.schema.as_slice(),
            None => false,
        };
        let other_decimals = match &asked.decimals {
            Some(decimals) => decimals.as_slice() != [b'0' + DECIMALS].as_slice(),
            None => false,
        };
        other_schema || other_decimals
    }

    /// Whether a peer asks for a journal other than this one.
    fn is_of_another(&self, asked: &PartQuery) -> bool {
        match &asked.id {
            Some(id) => id.as_slice() != self.id.as_slice(),
            None => false,
        }
    }

    /// What is given of the journal.
    fn journal<R: JournalParts>(&self, rt: &R, asked: &PartQuery, end: u64) -> io::Result<Given> {
        let Some(from) = asked.from else {
            return Ok(Given::Nothing);
        };
        if self.is_of_another(asked) {
            return Ok(Given::Gone);
        }
        rt.journal_part(self.alloc, self.path.as_str(), self.header, end, from)
    }

    /// The answer to a request for the journal, or for a checkpoint. The journal's place is told to
    /// those who ask for no bytes of it, and along with its bytes.
    pub(crate) fn answer<R: JournalParts + Eprint>(
        &self,
        rt: &R,
        query: &[u8],
        is_journal: bool,
        shared: &Shared,
    ) -> io::Result<Reply> {
        let end = shared.journal_end.load(Ordering::SeqCst);
        let place = JournalPlace { id: &self.id, end };
        let Some(asked) = part_query(self.alloc, query)? else {
            let refused = Given::Refused("BadQuery");
            return Ok(part_response(self.alloc, refused, None)?);
        };
        if self.differs(&asked) {
            if !shared.is_differing.is_raised() {
                shared.is_differing.raise();
                // If this can't be printed, the peer is told all the same.
                let _printed = eprintln!(rt; "rr: a peer asks for the journal with another schema");
            }
            return Ok(part_response(self.alloc, Given::Differs, None)?);
        }
        let given = if is_journal {
            self.journal(rt, &asked, end)?
        } else {
            let from = asked.from.unwrap_or(0);
            rt.checkpoint_part(self.alloc, self.path.as_str(), asked.begins, from)?
        };
        let is_told = asked.from.is_none() || (is_journal && matches!(&given, Given::Bytes(_)));
        let told = if is_told { Some(place) } else { None };
        Ok(part_response(self.alloc, given, told)?)
    }
}
